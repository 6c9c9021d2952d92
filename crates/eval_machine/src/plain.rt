// Instructions that use only operands and locals (WebAssembly Core 2.0, section 4.4).

ghost use Rattle.std.specs.Prelude.{◌≡◌, ◌∷◌, true, None, IfOk};
ghost use Rattle.wasm_tree.specs.declared.instr.Instr.{out-Instr};
ghost use Rattle.wasm_meaning.specs.Outcomes.{Gives, with_entry};
ghost use Rattle.eval_machine.specs.DenotedValues.{Comes, local_set_by, val_of};
ghost use Rattle.eval_machine.specs.Instructions.{DoesPlainly, is_plain};

use crate::locals::Locals;
use crate::operands::Operands;
use crate::value::Value;
use eval_spec::Stop;
use wasm_bytes::NoMemory;
use wasm_tree::{Instr, ValType};

fn put(operands: &mut Operands, value: Value) -> Result<Option<Stop>, NoMemory>
    ensures { IfOk result (λ stop. (stop ≡ None) × (operands.new ≡ val_of value ∷ operands.old)) }
{
    operands.push(value)?;
    Ok(None)
}

fn local_get(operands: &mut Operands, locals: &Locals, local: u32) -> Result<Option<Stop>, NoMemory>
    ensures { IfOk result (λ stop. Comes (with_entry locals.now local (λ value. Gives (value ∷ operands.old))) stop operands.new) }
{
    match locals.get(local) {
        Some(value) => {
            operands.push(value)?;
            Ok(None)
        }
        None => Ok(Some(Stop::Trap)),
    }
}

// Executes `local.set` or, if `tee`, `local.tee`, which leaves the value on top.
fn local_set(
    operands: &mut Operands,
    locals: &mut Locals,
    local: u32,
    tee: bool,
) -> Result<Option<Stop>, NoMemory>
    ensures { IfOk result (λ stop. Comes (local_set_by tee operands.old locals.old local) stop (operands.new, locals.new)) }
{
    let Some(value) = operands.pop() else {
        return Ok(Some(Stop::Trap));
    };
    if tee {
        operands.push(value)?;
    }
    Ok(locals.set(local, value))
}

/// Executes an instruction that uses only operands and locals; for any other nothing is promised.
pub(crate) fn plain(
    operands: &mut Operands,
    locals: &mut Locals,
    instr: &Instr,
) -> Result<Option<Stop>, NoMemory>
    ensures { IfOk result (λ stop. is_plain (out-Instr instr.now) ≡ true → DoesPlainly (out-Instr instr.now) operands.old locals.old stop operands.new locals.new) }
{
    match instr {
        Instr::Nop => Ok(None),
        Instr::Drop => Ok(operands.drop_one()),
        Instr::Select => Ok(operands.select()?),
        Instr::SelectTyped(types) => Ok(operands.select_typed(types.as_slice())?),
        Instr::LocalGet(local) => Ok(local_get(operands, locals, *local)?),
        Instr::LocalSet(local) => Ok(local_set(operands, locals, *local, false)?),
        Instr::LocalTee(local) => Ok(local_set(operands, locals, *local, true)?),
        Instr::I32Const(value) => Ok(put(operands, Value::narrow(*value))?),
        Instr::I64Const(value) => Ok(put(operands, Value::wide(*value))?),
        Instr::Un(op) => Ok(operands.unary(*op)?),
        Instr::Bin(op) => Ok(operands.binary(*op)?),
        Instr::RefNull(ty) => Ok(put(operands, Value::zero(ValType::Ref(*ty)))?),
        Instr::RefIsNull => Ok(operands.is_null()?),
        _ => Ok(Some(Stop::Trap)),
    }
}
