use crate::globals::Globals;
use crate::slots::Slots;
use crate::undo::UndoLog;
use block_pool::Paged;
use wasm_bytes::Items;

/// The numbers of functions, tables and memories that a module imports; imports come first in their
/// index spaces.
#[derive(Clone, Copy, Debug, PartialEq, Eq)]
pub struct ImportCounts {
    pub funcs: usize,
    pub tables: usize,
    pub memories: usize,
}

/// What a machine keeps from call to call: what an evaluation changes, with what undoes it, and
/// beside it, for fast look-up, the filled slots and the import counts of the module.
#[derive(Drop)]
pub struct Kept {
    pub globals: Globals,
    /// The memory that the module defines.
    pub memory: Option<Paged>,
    /// Whether each data segment is dropped.
    pub dropped: Items<bool>,
    pub slots: Slots,
    pub imports: ImportCounts,
    /// The turns that are left.
    pub turns: u32,
    /// What undoes the changes of globals and data segments.
    pub undo: UndoLog,
}
