// What each instruction does by itself (WebAssembly Core 2.0, section 4.4).

ghost use Rattle.std.specs.Prelude.{◌≡◌, true, IfOk};
ghost use Rattle.wasm_tree.specs.declared.instr.Instr.{out-Instr};
ghost use Rattle.wasm_tree.specs.declared.instr.Instr.TheVariants as i;
ghost use Rattle.wasm_tree.specs.SameTypes.{same_func_type, same_type, same_types};
ghost use Rattle.eval_spec.specs.declared.stop.Stop.TheVariants as why;
ghost use Rattle.wasm_valid.specs.Validity.{IsValid};
ghost use Rattle.eval_machine.specs.declared.registers.MachineAct.TheVariants as act;
ghost use Rattle.eval_machine.specs.declared.registers.Flow.TheVariants as flow;
ghost use Rattle.eval_machine.specs.DenotedValues.{func_of, val_of};
ghost use Rattle.eval_machine.specs.Instructions.{Begins, ComesToAct, Opens, OpensWith, ReachesThroughTable, is_simple};
ghost use Rattle.eval_machine.specs.Kept.{MachineFits};
ghost use Rattle.eval_machine.specs.UnchangedParts.{Stays};

use crate::plain::plain;
use crate::registers::{Flow, MachineAct, Opening, Registers};
use crate::slots::Slot;
use crate::value::Value;
use eval_proof::imported_functions_are_typed;
use eval_spec::Stop;
use wasm_bytes::{Items, NoMemory};
use wasm_tree::{BlockType, FuncType, Instr, Module, RefType, ValType};

fn stopped<'a>(stop: Stop) -> MachineAct<'a>
    ensures { result ≡ act.Leaves (flow.Stopped stop) }
{
    MachineAct::Leaves(Flow::Stopped(stop))
}

// Opens a block, loop or if with these parameters, which gives `gives` values.
fn opened<'a>(
    params: &'a [ValType],
    gives: usize,
    body: &'a Items<Instr>,
    again: bool,
) -> MachineAct<'a>
    ensures { OpensWith params.now gives body.now again result }
{
    let takes = if again { params.len() } else { gives };
    MachineAct::Opens(Opening {
        params,
        gives,
        takes,
        body: body.as_slice(),
        again,
    })
}

// Opens a block, loop or if of this type; the act is a trap if the module does not have the type.
#[tactic(auto, using(crate::proofs::Openings::opens_empty, crate::proofs::Openings::opens_value, crate::proofs::Openings::opens_index))]
fn opening<'a>(
    input: &'a Module,
    ty: BlockType,
    body: &'a Items<Instr>,
    again: bool,
) -> MachineAct<'a>
    ensures { Opens input.now ty body.now again result }
{
    match ty {
        BlockType::Empty => opened(&[], 0, body, again),
        BlockType::Value(_) => opened(&[], 1, body, again),
        BlockType::Index(n) => match input.types.get(n as usize) {
            Some(ty) => opened(ty.params.as_slice(), ty.results.len(), body, again),
            None => stopped(Stop::Trap),
        },
    }
}

impl Registers {
    // Returns the act of a call that finds `func` in a table. An imported function stops the
    // evaluation before its type is looked at.
    fn reached<'a>(&self, input: &Module, ty: u32, func: u32) -> MachineAct<'a>
        requires valid { IsValid input.now }
        requires fits { MachineFits input.now self.now.kept }
        ensures { ReachesThroughTable input.now ty func result }
    {
        imported_functions_are_typed();
        let imported = self.kept.imports.funcs;
        if (func as usize) < imported {
            return stopped(Stop::Import);
        }
        let Some(callee) = input.funcs.get(func as usize - imported) else {
            return stopped(Stop::Trap);
        };
        let Some(asked) = input.types.get(ty as usize) else {
            return stopped(Stop::Trap);
        };
        if callee.ty == ty {
            return MachineAct::Calls(func);
        }
        let Some(has) = input.types.get(callee.ty as usize) else {
            return stopped(Stop::Trap);
        };
        if is_same(asked, has) {
            return MachineAct::Calls(func);
        }
        stopped(Stop::Trap)
    }

    // Executes `call_indirect` up to the call itself.
    fn call_indirect<'a>(&mut self, input: &Module, ty: u32, table: u32) -> MachineAct<'a>
        requires valid { IsValid input.now }
        requires fits { MachineFits input.now self.old.kept }
        ensures begins { ComesToAct input.now (i.CallIndirect ty table) self.old result self.new }
        ensures stays { Stays self.old.kept self.new.kept }
    {
        if (table as usize) < self.kept.imports.tables {
            return stopped(Stop::Unknown);
        }
        let Some(_) = self.kept.slot_count(input, table) else {
            return stopped(Stop::Trap);
        };
        let Some(place) = self.operands.pop_narrow() else {
            return stopped(Stop::Trap);
        };
        match self.kept.slot(input, table, place) {
            Slot::Unknown => stopped(Stop::Unknown),
            Slot::Known(value) => match referred(value) {
                Some(func) => {
                    imported_functions_are_typed();
                    self.reached(input, ty, func)
                }
                None => stopped(Stop::Trap),
            },
            Slot::OutOfBounds => stopped(Stop::Trap),
        }
    }

    // Executes an instruction that stays in its level.
    fn simple(&mut self, input: &Module, instr: &Instr) -> Result<Option<Stop>, NoMemory>
        requires valid { IsValid input.now }
        requires fits { MachineFits input.now self.old.kept }
        ensures begins { IfOk result (λ stop. is_simple (out-Instr instr.now) ≡ true → Begins input.now instr.now self.old stop self.new) }
        ensures stays { Stays self.old.kept self.new.kept }
    {
        let kept = &mut self.kept;
        let operands = &mut self.operands;
        match instr {
            Instr::GlobalGet(global) => Ok(kept.global_get(input, operands, *global)?),
            Instr::GlobalSet(global) => Ok(kept.global_set(input, operands, *global)?),
            Instr::RefFunc(func) => Ok(kept.ref_func(input, operands, *func)?),
            Instr::Load(op, arg) => Ok(kept.load(input, operands, *op, *arg)?),
            Instr::Store(op, arg) => Ok(kept.store(input, operands, *op, *arg)),
            Instr::MemorySize(memory) => Ok(kept.memory_size(input, operands, *memory)?),
            Instr::MemoryGrow(_) => Ok(Some(Stop::Grow)),
            Instr::MemoryInit { segment, memory } => {
                Ok(kept.memory_init(input, operands, *segment, *memory))
            }
            Instr::DataDrop(segment) => Ok(kept.data_drop(input, *segment)?),
            Instr::MemoryCopy { to, from } => Ok(kept.memory_copy(input, operands, *to, *from)),
            Instr::MemoryFill(memory) => Ok(kept.memory_fill(input, operands, *memory)),
            Instr::TableGet(table) => Ok(kept.table_get(input, operands, *table)?),
            Instr::TableSize(table) => Ok(kept.table_size(input, operands, *table)?),
            Instr::TableSet(_)
            | Instr::TableInit {
                segment: _,
                table: _,
            }
            | Instr::ElemDrop(_)
            | Instr::TableCopy { to: _, from: _ }
            | Instr::TableGrow(_)
            | Instr::TableFill(_) => Ok(Some(Stop::TableWrite)),
            _ => Ok(plain(operands, &mut self.locals, instr)?),
        }
    }

    /// Executes an instruction whose own turn is spent, and returns what remains to be done.
    pub(crate) fn begin<'a>(
        &mut self,
        input: &'a Module,
        instr: &'a Instr,
    ) -> Result<MachineAct<'a>, NoMemory>
        requires valid { IsValid input.now }
        requires fits { MachineFits input.now self.old.kept }
        ensures begins { IfOk result (λ act. ComesToAct input.now instr.now self.old act self.new) }
        ensures stays { Stays self.old.kept self.new.kept }
    {
        match instr {
            Instr::Block(ty, body) => Ok(opening(input, *ty, body, false)),
            Instr::Loop(ty, body) => Ok(opening(input, *ty, body, true)),
            Instr::If(ty, body, other) => match self.operands.pop_narrow() {
                Some(0) => Ok(opening(input, *ty, other, false)),
                Some(_) => Ok(opening(input, *ty, body, false)),
                None => Ok(stopped(Stop::Trap)),
            },
            Instr::Br(label) => Ok(MachineAct::Leaves(Flow::Branch(*label))),
            Instr::BrIf(label) => match self.operands.pop_narrow() {
                Some(0) => Ok(MachineAct::Continues),
                Some(_) => Ok(MachineAct::Leaves(Flow::Branch(*label))),
                None => Ok(stopped(Stop::Trap)),
            },
            Instr::BrTable(labels, last) => match self.operands.pop_narrow() {
                Some(n) => Ok(MachineAct::Leaves(Flow::Branch(
                    *labels.get(n as usize).unwrap_or(last),
                ))),
                None => Ok(stopped(Stop::Trap)),
            },
            Instr::Return => Ok(MachineAct::Leaves(Flow::Return)),
            Instr::Call(func) => {
                imported_functions_are_typed();
                Ok(MachineAct::Calls(*func))
            }
            Instr::CallIndirect { ty, table } => Ok(self.call_indirect(input, *ty, *table)),
            _ => match self.simple(input, instr)? {
                Some(stop) => Ok(stopped(stop)),
                None => Ok(MachineAct::Continues),
            },
        }
    }
}

fn referred(value: Value) -> Option<u32>
    ensures { result ≡ func_of (val_of value) }
{
    match value {
        Value::Func(func) => func,
        Value::I32(_) | Value::I64(_) | Value::Extern => None,
    }
}

fn is_same(ty: &FuncType, other: &FuncType) -> bool
    ensures { result ≡ same_func_type ty.now other.now }
{
    are_same(ty.params.as_slice(), other.params.as_slice())
        && are_same(ty.results.as_slice(), other.results.as_slice())
}

fn is_type(ty: ValType, other: ValType) -> bool
    ensures { result ≡ same_type ty other }
{
    match (ty, other) {
        (ValType::I32, ValType::I32)
        | (ValType::I64, ValType::I64)
        | (ValType::Ref(RefType::Func), ValType::Ref(RefType::Func))
        | (ValType::Ref(RefType::Extern), ValType::Ref(RefType::Extern)) => true,
        _ => false,
    }
}

fn are_same(types: &[ValType], others: &[ValType]) -> bool
    ensures { result ≡ same_types types.now others.now }
{
    if types.len() != others.len() {
        return false;
    }
    for i in 0..types.len() {
        if !is_type(types[i], others[i]) {
            return false;
        }
    }
    true
}
