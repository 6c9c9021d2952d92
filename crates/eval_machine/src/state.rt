// Instructions on globals, functions and tables (WebAssembly Core 2.0, sections 4.4.2, 4.4.5,
// 4.4.6).

ghost use Rattle.std.specs.Prelude.{◌≡◌, ◌<◌, ◌↔◌, IfOk, IsTrue, length};
ghost use Rattle.wasm_tree.specs.declared.instr.Instr.TheVariants as i;
ghost use Rattle.wasm_tree.specs.Spaces.{funcs_of};
ghost use Rattle.eval_machine.specs.Instructions.{BeginsWith};
ghost use Rattle.eval_machine.specs.Kept.{MachineFits};
ghost use Rattle.eval_machine.specs.UnchangedParts.{Stays};

use crate::kept::Kept;
use crate::operands::Operands;
use crate::slots::Slot;
use crate::value::Value;
use eval_spec::Stop;
use wasm_bytes::NoMemory;
use wasm_tree::Module;

impl Kept {
    pub(crate) fn global_get(
        &self,
        input: &Module,
        operands: &mut Operands,
        global: u32,
    ) -> Result<Option<Stop>, NoMemory>
        requires fits { MachineFits input.now self.now }
        ensures { IfOk result (λ stop. BeginsWith input.now (i.GlobalGet global) self.now operands.old stop self.now operands.new) }
    {
        match self.globals.get(global) {
            Ok(value) => {
                operands.push(value)?;
                Ok(None)
            }
            Err(stop) => Ok(Some(stop)),
        }
    }

    pub(crate) fn global_set(
        &mut self,
        input: &Module,
        operands: &mut Operands,
        global: u32,
    ) -> Result<Option<Stop>, NoMemory>
        requires fits { MachineFits input.now self.old }
        ensures begins { IfOk result (λ stop. BeginsWith input.now (i.GlobalSet global) self.old operands.old stop self.new operands.new) }
        ensures stays { Stays self.old self.new }
    {
        self.undo.note_global(&self.globals, global)?;
        let value = operands.pop();
        Ok(self.globals.set(global, value))
    }

    fn is_func(&self, input: &Module, func: u32) -> bool
        requires fits { MachineFits input.now self.now }
        ensures { IsTrue result ↔ (func < length (funcs_of input.now)) }
    {
        let func = func as usize;
        func < self.imports.funcs || func - self.imports.funcs < input.funcs.len()
    }

    pub(crate) fn ref_func(
        &self,
        input: &Module,
        operands: &mut Operands,
        func: u32,
    ) -> Result<Option<Stop>, NoMemory>
        requires fits { MachineFits input.now self.now }
        ensures { IfOk result (λ stop. BeginsWith input.now (i.RefFunc func) self.now operands.old stop self.now operands.new) }
    {
        if !self.is_func(input, func) {
            return Ok(Some(Stop::Trap));
        }
        operands.push(Value::Func(Some(func)))?;
        Ok(None)
    }

    pub(crate) fn table_get(
        &self,
        input: &Module,
        operands: &mut Operands,
        table: u32,
    ) -> Result<Option<Stop>, NoMemory>
        requires fits { MachineFits input.now self.now }
        ensures { IfOk result (λ stop. BeginsWith input.now (i.TableGet table) self.now operands.old stop self.now operands.new) }
    {
        if (table as usize) < self.imports.tables {
            return Ok(Some(Stop::Unknown));
        }
        let Some(_) = self.slot_count(input, table) else {
            return Ok(Some(Stop::Trap));
        };
        let Some(place) = operands.pop_narrow() else {
            return Ok(Some(Stop::Trap));
        };
        match self.slot(input, table, place) {
            Slot::Unknown => Ok(Some(Stop::Unknown)),
            Slot::Known(value) => {
                operands.push(value)?;
                Ok(None)
            }
            Slot::OutOfBounds => Ok(Some(Stop::Trap)),
        }
    }

    pub(crate) fn table_size(
        &self,
        input: &Module,
        operands: &mut Operands,
        table: u32,
    ) -> Result<Option<Stop>, NoMemory>
        requires fits { MachineFits input.now self.now }
        ensures { IfOk result (λ stop. BeginsWith input.now (i.TableSize table) self.now operands.old stop self.now operands.new) }
    {
        if (table as usize) < self.imports.tables {
            return Ok(Some(Stop::Unknown));
        }
        match self.slot_count(input, table) {
            Some(count) => {
                operands.push(Value::I32(count))?;
                Ok(None)
            }
            None => Ok(Some(Stop::Trap)),
        }
    }
}
