// Trampolines.

ghost use Rattle.std.specs.Prelude.{◌≡◌, ◌++◌, ◌<◌, ◌≤◌, ◌^◌, length, map, pos, IfOk, OnOk};
ghost use Rattle.base_lists.specs.Places.{numbers};
ghost use Rattle.wasm_tree.specs.declared.instr.Instr.TheVariants.{LocalGet as IsLocalGet};
ghost use Rattle.run_simulation.specs.Trampolines.{gets, slot_call};

use std::alloc::Global;
use wasm_bytes::{Items, NoMemory};
use wasm_tree::{Instr, ValType};

// Appends a `local.get` for each parameter.
fn add_gets(body: &mut Items<Instr>, params: usize) -> Result<(), NoMemory>
    requires { params ≤ 2 ^ 32 }
    ensures { OnOk result (body.new ≡ body.old ++ map IsLocalGet (numbers 0 params)) }
{
    for local in 0..params {
        body.keep(Instr::LocalGet(local as u32))?;
    }
    Ok(())
}

// Appends a call by type `ty` through a slot of the table.
#[tactic(auto, using(crate::proofs::TrampolineBodies::push_two))]
fn add_slot_call(body: &mut Items<Instr>, ty: u32, table: u32, slot: u32) -> Result<(), NoMemory>
    requires slot { slot < 2 ^ 31 }
    ensures { OnOk result (body.new ≡ body.old ++ slot_call ty table (pos slot)) }
{
    body.keep(Instr::I32Const(slot as i32))?;
    body.keep(Instr::CallIndirect { ty, table })
}

/// Returns the body of a trampoline: it passes its parameters on to the function in the slot.
pub(crate) fn trampoline_body(
    alloc: Global,
    params: &[ValType],
    ty: u32,
    table: u32,
    slot: u32,
) -> Result<Items<Instr>, NoMemory>
    requires params { length params.now ≤ 2 ^ 32 }
    requires slot { slot < 2 ^ 31 }
    ensures { IfOk result (λ body. body ≡ gets 0 params.now ++ slot_call ty table (pos slot)) }
{
    let mut body = Items::new(alloc);
    add_gets(&mut body, params.len())?;
    add_slot_call(&mut body, ty, table, slot)?;
    Ok(body)
}
