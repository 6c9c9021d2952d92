ghost use Rattle.std.specs.Prelude.{◌≡◌, ◌<◌, ◌≤◌, ℕ, IfOk, IsNone, Some, false, length, replicate, slice_get};
ghost use Rattle.wasm_tree.specs.Spaces.{imported_memories, memories_of};
ghost use Rattle.eval_machine.specs.InstantiationParts.{InstantiatesTo, PoursByMode, PoursData, PoursDatas};
ghost use Rattle.eval_machine.specs.Kept.{IsUnmarked, MemoryFits};

use crate::initial::{blank_memory, first_globals, import_counts};
use crate::kept::Kept;
use crate::slots::{Slots, unsigned};
use crate::undo::{UndoLog, blank_flags, write_flag};
use block_pool::Paged;
use eval_spec::{MOST_TURNS, Stop};
use std::alloc::Global;
use wasm_bytes::{Items, NoMemory};
use wasm_tree::{ConstExpr, DataMode, DataSeg, Module};
use wasm_valid::{Valid, valid_where_items_hold};

// Writes the bytes of a data segment that is active for memory `index` at `offset`.
#[tactic(auto, using(crate::proofs::ActiveData::memory_unknown, crate::proofs::ActiveData::another_memory, crate::proofs::ActiveData::no_memory, crate::proofs::ActiveData::no_place))]
fn pour(
    memory: &mut Option<Paged>,
    input: &Module,
    imported: usize,
    index: u32,
    offset: ConstExpr,
    bytes: &[u8],
) -> Option<Stop>
    requires counted { imported ≡ length (imported_memories input.now.imports) }
    requires fits { MemoryFits input.now.mems memory.old }
    requires unmarked { IsUnmarked memory.old }
    ensures pours { PoursData input.now index offset bytes.now memory.old result memory.new }
    ensures fits { MemoryFits input.now.mems memory.new }
    ensures unmarked { IsUnmarked memory.new }
{
    if (index as usize) < imported {
        return Some(Stop::Unknown);
    }
    let place = match offset {
        ConstExpr::I32(place) => unsigned(place),
        ConstExpr::Global(_) => return Some(Stop::Unknown),
        ConstExpr::I64(_) | ConstExpr::Null(_) | ConstExpr::Func(_) => return Some(Stop::Trap),
    };
    if index as usize != imported {
        return Some(Stop::Trap);
    }
    let Some(paged) = memory else {
        return Some(Stop::Trap);
    };
    if u64::from(place) + bytes.len() as u64 > paged.size() {
        return Some(Stop::Trap);
    }
    match paged.write(u64::from(place), bytes) {
        Ok(()) => None,
        Err(_) => Some(Stop::Memory),
    }
}

// Writes a data segment and drops it, if it is active.
fn pour_if_active(
    memory: &mut Option<Paged>,
    dropped: &mut Items<bool>,
    input: &Module,
    imported: usize,
    at: usize,
    segment: &DataSeg,
) -> Option<Stop>
    requires counted { imported ≡ length (imported_memories input.now.imports) }
    requires fits { MemoryFits input.now.mems memory.old }
    requires unmarked { IsUnmarked memory.old }
    requires there { at < length dropped.old }
    ensures pours { PoursByMode input.now at segment.now segment.now.mode memory.old dropped.old result memory.new dropped.new }
    ensures fits { MemoryFits input.now.mems memory.new }
    ensures unmarked { IsUnmarked memory.new }
{
    match segment.mode {
        DataMode::Active {
            memory: index,
            offset,
        } => match pour(
            memory,
            input,
            imported,
            index,
            offset,
            segment.bytes.as_slice(),
        ) {
            Some(stop) => Some(stop),
            None => {
                write_flag(dropped, at, true);
                None
            }
        },
        DataMode::Passive => None,
    }
}

// Writes the active data segments in order, until something stops one.
fn pour_all(
    memory: &mut Option<Paged>,
    dropped: &mut Items<bool>,
    input: &Module,
    imported: usize,
) -> Option<Stop>
    requires counted { imported ≡ length (imported_memories input.now.imports) }
    requires single { length (memories_of input.now) ≤ 1 }
    requires fits { MemoryFits input.now.mems memory.old }
    requires unmarked { IsUnmarked memory.old }
    requires none { dropped.old ≡ replicate (length input.now.datas) false }
    ensures pours { PoursDatas input.now memory.old dropped.old result memory.new dropped.new }
    ensures many { IsNone result → length dropped.new ≡ length input.now.datas }
    ensures fits { MemoryFits input.now.mems memory.new }
    ensures unmarked { IsUnmarked memory.new }
{
    let segments = input.datas.as_slice();
    for i in 0..segments.len() {
        match pour_if_active(memory, dropped, input, imported, i, &segments[i]) {
            Some(stop) => return Some(stop),
            None => {}
        }
    }
    None
}

/// Instantiates a valid module without running its start (WebAssembly Core 2.0, section 4.5.4), and
/// returns what the machine keeps then, or the stop.
pub(crate) fn instantiate(alloc: Global, input: &Valid) -> Result<Result<Kept, Stop>, NoMemory>
    ensures { IfOk result (InstantiatesTo input.now) }
{
    valid_where_items_hold();
    let input = input.module();
    if input.memory_space() > 1 {
        return Ok(Err(Stop::Memory));
    }
    let imports = import_counts(input);
    let globals = first_globals(alloc, input)?;
    let mut slots = Slots::new(alloc);
    match slots.fill(input, imports.tables)? {
        Some(stop) => return Ok(Err(stop)),
        None => {}
    }
    let mut memory = blank_memory(alloc, input)?;
    let mut dropped = blank_flags(alloc, input.datas.len())?;
    match pour_all(&mut memory, &mut dropped, input, imports.memories) {
        Some(stop) => return Ok(Err(stop)),
        None => {}
    }
    let undo = UndoLog::none(alloc, globals.len())?;
    Ok(Ok(Kept {
        globals,
        memory,
        dropped,
        slots,
        imports,
        turns: MOST_TURNS,
        undo,
    }))
}
