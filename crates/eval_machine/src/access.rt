// Instructions on memories and data segments (WebAssembly Core 2.0, section 4.4.7).

ghost use Rattle.std.specs.Prelude.{◌≡◌, ◌^◌, ◌<◌, List, None, Some, IfOk, IfSome, IsNone};
ghost use Rattle.wasm_tree.specs.declared.instr.Instr.TheVariants as i;
ghost use Rattle.wasm_tree_spec.specs.Prelude.{store_width};
ghost use Rattle.wasm_meaning.specs.Access.{load_to, load_width, store_from};
ghost use Rattle.wasm_meaning.specs.Memory.{pop_three};
ghost use Rattle.wasm_meaning.specs.Outcomes.{Gives, IllTyped};
ghost use Rattle.wasm_meaning.specs.State.{Val};
ghost use Rattle.wasm_meaning.specs.Values.{num_of};
ghost use Rattle.block_pool.specs.Pages.{IsWidth};
ghost use Rattle.eval_machine.specs.Accesses.{bytes_in, loaded_from, val_at};
ghost use Rattle.eval_machine.specs.Instructions.{BeginsWith};
ghost use Rattle.eval_machine.specs.DenotedValues.{number_of as of_number, val_of};
ghost use Rattle.eval_machine.specs.Kept.{MachineFits, datas_in};
ghost use Rattle.eval_machine.specs.UnchangedParts.{Stays};

use crate::kept::Kept;
use crate::memory::{copy, fill, init, store};
use crate::operands::Operands;
use crate::undo::write_flag;
use crate::value::Value;
use eval_spec::Stop;
use wasm_bytes::{Items, NoMemory};
use wasm_num::{Num, UnOp, apply1};
use wasm_tree::{LoadOp, MemArg, Module, StoreOp};

#[tactic(auto, unfolding(wasm_meaning::specs::Access::load_width))]
fn width_of(op: LoadOp) -> u32
    ensures value { result ≡ load_width op }
    ensures width { IsWidth result }
{
    match op {
        LoadOp::I32Load8S | LoadOp::I32Load8U | LoadOp::I64Load8S | LoadOp::I64Load8U => 1,
        LoadOp::I32Load16S | LoadOp::I32Load16U | LoadOp::I64Load16S | LoadOp::I64Load16U => 2,
        LoadOp::I32Load | LoadOp::I64Load32S | LoadOp::I64Load32U => 4,
        LoadOp::I64Load => 8,
    }
}

fn value(n: Num) -> Value
    ensures { val_of result ≡ of_number n }
{
    match n {
        Num::I32(n) => Value::I32(n),
        Num::I64(n) => Value::I64(n),
    }
}

// Returns the number that the bytes of a load encode, as a value of the type that the load gives,
// without sign extension.
#[tactic(auto, unfolding(wasm_meaning::specs::Access::load_width, wasm_meaning::specs::Access::load_to))]
fn plain_value(op: LoadOp, number: u64) -> Value
    requires { number < 256 ^ load_width op }
    ensures { val_of result ≡ val_at (load_to op) number }
{
    match op {
        LoadOp::I32Load
        | LoadOp::I32Load8S
        | LoadOp::I32Load8U
        | LoadOp::I32Load16S
        | LoadOp::I32Load16U => Value::I32(number as u32),
        LoadOp::I64Load
        | LoadOp::I64Load8S
        | LoadOp::I64Load8U
        | LoadOp::I64Load16S
        | LoadOp::I64Load16U
        | LoadOp::I64Load32S
        | LoadOp::I64Load32U => Value::I64(number),
    }
}

// Returns the value of a load, for the number that its bytes encode.
#[tactic(auto, unfolding(wasm_meaning::specs::Access::load_width, wasm_meaning::specs::Access::load_to, wasm_num::specs::Operations::un_from, wasm_num::specs::Operations::un_to, wasm_num::specs::Operations::un_value))]
fn value_of(op: LoadOp, number: u64) -> Value
    requires { number < 256 ^ load_width op }
    ensures { val_of result ≡ loaded_from op number }
{
    match op {
        LoadOp::I32Load8S => value(apply1(UnOp::I32Extend8S, Num::I32(number as u32))),
        LoadOp::I32Load16S => value(apply1(UnOp::I32Extend16S, Num::I32(number as u32))),
        LoadOp::I64Load8S => value(apply1(UnOp::I64Extend8S, Num::I64(number))),
        LoadOp::I64Load16S => value(apply1(UnOp::I64Extend16S, Num::I64(number))),
        LoadOp::I64Load32S => value(apply1(UnOp::I64Extend32S, Num::I64(number))),
        LoadOp::I32Load
        | LoadOp::I32Load8U
        | LoadOp::I32Load16U
        | LoadOp::I64Load
        | LoadOp::I64Load8U
        | LoadOp::I64Load16U
        | LoadOp::I64Load32U => plain_value(op, number),
    }
}

fn written_by(op: StoreOp) -> u32
    ensures value { result ≡ store_width op }
    ensures width { IsWidth result }
{
    match op {
        StoreOp::I32Store8 | StoreOp::I64Store8 => 1,
        StoreOp::I32Store16 | StoreOp::I64Store16 => 2,
        StoreOp::I32Store | StoreOp::I64Store32 => 4,
        StoreOp::I64Store => 8,
    }
}

// Returns the number that a store writes, if the value has the type that the store takes.
#[tactic(auto, unfolding(wasm_meaning::specs::Access::store_from))]
fn number_of(op: StoreOp, value: Value) -> Option<u64>
    ensures { result ≡ num_of (store_from op) (val_of value) }
{
    match (op, value) {
        (StoreOp::I32Store | StoreOp::I32Store8 | StoreOp::I32Store16, Value::I32(n)) => Some(
            u64::from(n),
        ),
        (
            StoreOp::I64Store | StoreOp::I64Store8 | StoreOp::I64Store16 | StoreOp::I64Store32,
            Value::I64(n),
        ) => Some(n),
        _ => None,
    }
}

impl Kept {
    pub(crate) fn load(
        &self,
        input: &Module,
        operands: &mut Operands,
        op: LoadOp,
        arg: MemArg,
    ) -> Result<Option<Stop>, NoMemory>
        requires fits { MachineFits input.now self.now }
        ensures { IfOk result (λ stop. BeginsWith input.now (i.Load op arg) self.now operands.old stop self.now operands.new) }
    {
        if (arg.memory as usize) < self.imports.memories {
            return Ok(Some(Stop::Unknown));
        }
        if arg.memory as usize > self.imports.memories {
            return Ok(Some(Stop::Trap));
        }
        let Some(paged) = &self.memory else {
            return Ok(Some(Stop::Trap));
        };
        let Some(base) = operands.pop_narrow() else {
            return Ok(Some(Stop::Trap));
        };
        let at = u64::from(base) + u64::from(arg.offset);
        let width = width_of(op);
        if at + u64::from(width) > paged.size() {
            return Ok(Some(Stop::Trap));
        }
        operands.push(value_of(op, paged.load(at, width)))?;
        Ok(None)
    }

    pub(crate) fn store(
        &mut self,
        input: &Module,
        operands: &mut Operands,
        op: StoreOp,
        arg: MemArg,
    ) -> Option<Stop>
        requires fits { MachineFits input.now self.old }
        ensures begins { BeginsWith input.now (i.Store op arg) self.old operands.old result self.new operands.new }
        ensures stays { Stays self.old self.new }
    {
        if (arg.memory as usize) < self.imports.memories {
            return Some(Stop::Unknown);
        }
        if arg.memory as usize > self.imports.memories {
            return Some(Stop::Trap);
        }
        let Some(paged) = &mut self.memory else {
            return Some(Stop::Trap);
        };
        let Some(value) = operands.pop() else {
            return Some(Stop::Trap);
        };
        let Some(number) = number_of(op, value) else {
            return Some(Stop::Trap);
        };
        let Some(base) = operands.pop_narrow() else {
            return Some(Stop::Trap);
        };
        store(
            paged,
            self.turns,
            u64::from(base) + u64::from(arg.offset),
            written_by(op),
            number,
        )
    }

    pub(crate) fn memory_size(
        &self,
        input: &Module,
        operands: &mut Operands,
        memory: u32,
    ) -> Result<Option<Stop>, NoMemory>
        requires fits { MachineFits input.now self.now }
        ensures { IfOk result (λ stop. BeginsWith input.now (i.MemorySize memory) self.now operands.old stop self.now operands.new) }
    {
        if (memory as usize) < self.imports.memories {
            return Ok(Some(Stop::Unknown));
        }
        match input.mems.get(memory as usize - self.imports.memories) {
            Some(limits) => {
                operands.push(Value::I32(limits.min))?;
                Ok(None)
            }
            None => Ok(Some(Stop::Trap)),
        }
    }

    pub(crate) fn memory_fill(
        &mut self,
        input: &Module,
        operands: &mut Operands,
        memory: u32,
    ) -> Option<Stop>
        requires fits { MachineFits input.now self.old }
        ensures begins { BeginsWith input.now (i.MemoryFill memory) self.old operands.old result self.new operands.new }
        ensures stays { Stays self.old self.new }
    {
        if (memory as usize) < self.imports.memories {
            return Some(Stop::Unknown);
        }
        if memory as usize > self.imports.memories {
            return Some(Stop::Trap);
        }
        let Some(paged) = &mut self.memory else {
            return Some(Stop::Trap);
        };
        let Some(range) = pop_range(operands) else {
            return Some(Stop::Trap);
        };
        fill(
            paged,
            &mut self.turns,
            range.to,
            (range.from % 256) as u8,
            range.count,
        )
    }

    pub(crate) fn memory_copy(
        &mut self,
        input: &Module,
        operands: &mut Operands,
        memory: u32,
        source: u32,
    ) -> Option<Stop>
        requires fits { MachineFits input.now self.old }
        ensures begins { BeginsWith input.now (i.MemoryCopy memory source) self.old operands.old result self.new operands.new }
        ensures stays { Stays self.old self.new }
    {
        let imported = self.imports.memories;
        if (memory as usize) < imported {
            return Some(Stop::Unknown);
        }
        if (source as usize) < imported {
            return Some(Stop::Unknown);
        }
        if memory as usize > imported {
            return Some(Stop::Trap);
        }
        if source as usize > imported {
            return Some(Stop::Trap);
        }
        let Some(paged) = &mut self.memory else {
            return Some(Stop::Trap);
        };
        let Some(range) = pop_range(operands) else {
            return Some(Stop::Trap);
        };
        if u64::from(range.from) + u64::from(range.count) > paged.size() {
            return Some(Stop::Trap);
        }
        copy(paged, &mut self.turns, range.to, range.from, range.count)
    }

    /// Executes `memory.init`; a dropped segment has no bytes.
    pub(crate) fn memory_init(
        &mut self,
        input: &Module,
        operands: &mut Operands,
        segment: u32,
        memory: u32,
    ) -> Option<Stop>
        requires fits { MachineFits input.now self.old }
        ensures begins { BeginsWith input.now (i.MemoryInit segment memory) self.old operands.old result self.new operands.new }
        ensures stays { Stays self.old self.new }
    {
        if (memory as usize) < self.imports.memories {
            return Some(Stop::Unknown);
        }
        if memory as usize > self.imports.memories {
            return Some(Stop::Trap);
        }
        let Some(bytes) = bytes_of(&self.dropped, input, segment) else {
            return Some(Stop::Trap);
        };
        let Some(paged) = &mut self.memory else {
            return Some(Stop::Trap);
        };
        let Some(range) = pop_range(operands) else {
            return Some(Stop::Trap);
        };
        if u64::from(range.from) + u64::from(range.count) > bytes.len() as u64 {
            return Some(Stop::Trap);
        }
        let from = range.from as usize;
        let taken = &bytes[from..from + range.count as usize];
        init(paged, &mut self.turns, range.to, taken)
    }

    pub(crate) fn data_drop(
        &mut self,
        input: &Module,
        segment: u32,
    ) -> Result<Option<Stop>, NoMemory>
        requires fits { MachineFits input.now self.old }
        ensures begins { IfOk result (λ stop. (vs : List Val) → BeginsWith input.now (i.DataDrop segment) self.old vs stop self.new vs) }
        ensures stays { Stays self.old self.new }
    {
        let Some(dropped) = self.dropped.get(segment as usize) else {
            return Ok(Some(Stop::Trap));
        };
        if *dropped {
            return Ok(None);
        }
        self.undo.dropped.keep(segment)?;
        write_flag(&mut self.dropped, segment as usize, true);
        Ok(None)
    }
}

// The operands of a bulk memory instruction.
#[derive(Drop)]
struct Range {
    to: u32,
    from: u32,
    count: u32,
}

// Pops three i32s, of which the length is on top.
fn pop_range(operands: &mut Operands) -> Option<Range>
    ensures some { IfSome result (λ r. pop_three operands.old ≡ Gives ((r.to, r.from, r.count), operands.new)) }
    ensures none { IsNone result → pop_three operands.old ≡ IllTyped }
{
    let count = operands.pop_narrow()?;
    let from = operands.pop_narrow()?;
    let to = operands.pop_narrow()?;
    Some(Range { to, from, count })
}

// Returns the bytes of a data segment; a dropped one has none.
#[tactic(auto, using(crate::proofs::MemoryInitSteps::no_segment, crate::proofs::MemoryInitSteps::no_flag, crate::proofs::MemoryInitSteps::no_bytes_left, crate::proofs::MemoryInitSteps::bytes_there))]
fn bytes_of<'a>(dropped: &Items<bool>, input: &'a Module, segment: u32) -> Option<&'a [u8]>
    ensures some { IfSome result (λ bytes. bytes_in (datas_in input.now.datas dropped.now) segment ≡ Some bytes.now) }
    ensures none { IsNone result → bytes_in (datas_in input.now.datas dropped.now) segment ≡ None }
{
    let data = input.datas.get(segment as usize)?;
    if *dropped.get(segment as usize)? {
        return Some(&[]);
    }
    Some(data.bytes.as_slice())
}
