// Where imports end, which limits the staying ones keep, and what constant expressions read.

use wasm_bytes::Items;
use wasm_tree::{ConstExpr, Limits};

/// Where following an import ends, as `Links` has it: an entity that a part defines, with its index
/// in the index space of the import's kind, or a staying import, which may be the import itself.
#[derive(Clone, Copy, Drop)]
pub enum End {
    Defined { part: u32, index: u32 },
    Outside { part: u32, import: u32 },
}

/// A constant expression, and the part in whose index spaces its index is.
#[derive(Clone, Copy, Drop)]
pub struct Read {
    pub part: u32,
    pub expr: ConstExpr,
}

/// For each part a list with one entry for each of its imports: its end; the limits that it keeps,
/// for a table or memory that stays; and what is read through it, for an immutable global.
#[derive(Drop)]
pub struct Links {
    pub ends: Items<Items<End>>,
    pub limits: Items<Items<Option<Limits>>>,
    pub reads: Items<Items<Option<Read>>>,
}
