ghost use Rattle.std.specs.Prelude.{◌≡◌, ◌<◌, ◌+◌, ◌&&◌, ℕ, None, Some, cond, length, nat_eq, IfOk, OnOk};
ghost use Rattle.wasm_num.specs.Operations.{wrapped};
ghost use Rattle.wasm_tree.specs.Spaces.{imported_tables};
ghost use Rattle.eval_machine.specs.Kept.{MachineFits, base_of};
ghost use Rattle.eval_machine.specs.InstantiationParts.{CopiesItems, FillsByMode, FillsSlots, FillsTables, elems_end, item_slot};
ghost use Rattle.eval_machine.specs.Slots.{IsSlot, defined_table, filled_at, null_in, null_of, slot_count, slot_key};

use crate::kept::Kept;
use crate::value::Value;
use eval_spec::Stop;
use std::alloc::Global;
use std::collections::HashMap;
use std::marker::Model;
use wasm_bytes::NoMemory;
use wasm_tree::{ConstExpr, ElemMode, ElemSeg, Module, RefType, TableType};

/// What is in a slot of a table.
#[derive(Clone, Copy, Debug, PartialEq, Eq)]
pub enum Slot {
    /// Nothing is known of it, because it was filled from an imported global.
    Unknown,
    /// It holds a reference.
    Known(Value),
    /// It does not exist.
    OutOfBounds,
}

/// The slots to which active element segments were copied, by table and place. Every other slot is
/// null and takes no memory.
#[derive(Drop)]
pub struct Slots {
    filled: HashMap<u64, Slot>,
}

impl Model for Slots {
    ghost use Rattle.std.specs.Prelude.{ℕ, List};
    ghost use Rattle.eval_machine.specs.declared.slots.Slot.{Slot};

    ghost Value = { List (ℕ × Slot) };

    ghost view = { λ s. s.filled.entries };
}

fn key(table: u32, place: u32) -> u64
    ensures { result ≡ slot_key table place }
{
    0x1_0000_0000 * u64::from(table) + u64::from(place)
}

impl Slots {
    /// Returns an empty set of slots. It takes no memory.
    pub fn new(alloc: Global) -> Slots
        ensures { (table place : ℕ) → filled_at result table place ≡ None }
    {
        Slots {
            filled: HashMap::new(alloc),
        }
    }

    /// Returns what was copied to a slot, if something was.
    pub fn get(&self, table: u32, place: u32) -> Option<Slot>
        ensures { result ≡ filled_at self.now table place }
    {
        self.filled.get(&key(table, place)).copied()
    }

    /// Replaces what is in a slot by `slot`.
    pub fn set(&mut self, table: u32, place: u32, slot: Slot) -> Result<(), NoMemory>
        ensures { OnOk result ((t p : ℕ) → p < 4294967296 → filled_at self.new t p ≡ cond (nat_eq table t && nat_eq place p) (Some slot) (filled_at self.old t p)) }
    {
        self.filled.insert(key(table, place), slot)?;
        Ok(())
    }
}

pub(crate) fn null(ty: RefType) -> Value
    ensures { result ≡ null_of ty }
{
    match ty {
        RefType::Func => Value::Func(None),
        RefType::Extern => Value::Extern,
    }
}

// Returns what is in a slot of a table of this type to which no segment was copied.
fn null_slot(table: Option<TableType>, place: u32) -> Slot
    ensures { result ≡ null_in table place }
{
    match table {
        Some(table) if place < table.limits.min => Slot::Known(null(table.ty)),
        _ => Slot::OutOfBounds,
    }
}

// Returns the type of a table that the module defines; `imported` counts the imported tables.
fn defined_table(input: &Module, imported: usize, table: u32) -> Option<TableType>
    requires { imported ≡ length (imported_tables input.now.imports) }
    ensures { result ≡ defined_table input.now table }
{
    let table = table as usize;
    if table < imported {
        return None;
    }
    input.tables.get(table - imported).copied()
}

impl Kept {
    /// Returns what is in a slot of a table; an imported table has no slots.
    pub fn slot(&self, input: &Module, table: u32, place: u32) -> Slot
        requires { MachineFits input.now self.now }
        ensures { IsSlot (base_of input.now) table place result }
    {
        match self.slots.get(table, place) {
            Some(slot) => slot,
            None => null_slot(defined_table(input, self.imports.tables, table), place),
        }
    }

    /// Returns the number of slots of a table: 0 for an imported one, `None` if there is no such
    /// table.
    pub fn slot_count(&self, input: &Module, table: u32) -> Option<u32>
        requires { MachineFits input.now self.now }
        ensures { result ≡ slot_count (base_of input.now) table }
    {
        if (table as usize) < self.imports.tables {
            return Some(0);
        }
        match defined_table(input, self.imports.tables, table) {
            Some(table) => Some(table.limits.min),
            None => None,
        }
    }
}

// ---- active element segments (WebAssembly Core 2.0, section 4.5.4) ----

/// Returns the place that an i32 offset denotes.
#[tactic(auto, unfolding(wasm_num::specs::Operations::wrapped))]
pub(crate) fn unsigned(value: i32) -> u32
    ensures { result ≡ wrapped 32 value }
{
    value.cast_unsigned()
}

fn item_slot(item: ConstExpr) -> Slot
    ensures { result ≡ item_slot item }
{
    match item {
        ConstExpr::Null(ty) => Slot::Known(null(ty)),
        ConstExpr::Func(func) => Slot::Known(Value::Func(Some(func))),
        ConstExpr::I32(_) | ConstExpr::I64(_) | ConstExpr::Global(_) => Slot::Unknown,
    }
}

impl Slots {
    fn copy_items(&mut self, table: u32, place: u32, items: &[ConstExpr]) -> Result<(), NoMemory>
        requires { place + length items.now < 4294967296 }
        ensures { OnOk result (CopiesItems self.old self.new table place items.now) }
    {
        for i in 0..items.len() {
            let item = items[i];
            self.set(table, place + i as u32, item_slot(item))?;
        }
        Ok(())
    }

    /// Copies the items of an element segment that is active for this table and offset.
    #[tactic(auto, using(crate::proofs::ElementStops::imported_unknown, crate::proofs::ElementStops::goes_past, crate::proofs::ElementStops::goes_in))]
    pub(crate) fn copy_segment(
        &mut self,
        input: &Module,
        imported: usize,
        table: u32,
        offset: ConstExpr,
        items: &[ConstExpr],
    ) -> Result<Option<Stop>, NoMemory>
        requires { imported ≡ length (imported_tables input.now.imports) }
        ensures { IfOk result (λ stop. FillsSlots input.now table offset items.now self.old stop self.new) }
    {
        if (table as usize) < imported {
            return Ok(Some(Stop::Unknown));
        }
        let place = match offset {
            ConstExpr::I32(place) => unsigned(place),
            ConstExpr::Global(_) => return Ok(Some(Stop::Unknown)),
            ConstExpr::I64(_) | ConstExpr::Null(_) | ConstExpr::Func(_) => {
                return Ok(Some(Stop::Trap));
            }
        };
        let Some(ty) = defined_table(input, imported, table) else {
            return Ok(Some(Stop::Trap));
        };
        if u64::from(place) + items.len() as u64 > u64::from(ty.limits.min) {
            return Ok(Some(Stop::Trap));
        }
        self.copy_items(table, place, items)?;
        Ok(None)
    }

    // Copies an element segment, if it is active.
    fn copy_if_active(
        &mut self,
        input: &Module,
        imported: usize,
        segment: &ElemSeg,
    ) -> Result<Option<Stop>, NoMemory>
        requires { imported ≡ length (imported_tables input.now.imports) }
        ensures { IfOk result (λ stop. FillsByMode input.now segment.now segment.now.mode self.old stop self.new) }
    {
        match segment.mode {
            ElemMode::Active { table, offset } => {
                Ok(self.copy_segment(input, imported, table, offset, segment.items.as_slice())?)
            }
            ElemMode::Passive | ElemMode::Declarative => Ok(None),
        }
    }

    /// Copies the active element segments of a module in order, until something stops one.
    pub(crate) fn fill(&mut self, input: &Module, imported: usize) -> Result<Option<Stop>, NoMemory>
        requires counted { imported ≡ length (imported_tables input.now.imports) }
        requires empty { (t p : ℕ) → filled_at self.old t p ≡ None }
        ensures { IfOk result (λ stop. FillsTables input.now (elems_end input.now) stop self.new) }
    {
        let segments = input.elems.as_slice();
        for i in 0..segments.len() {
            match self.copy_if_active(input, imported, &segments[i])? {
                Some(stop) => return Ok(Some(stop)),
                None => {}
            }
        }
        Ok(None)
    }
}
