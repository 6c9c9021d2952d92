ghost use Rattle.std.specs.Prelude.{◌≡◌, ◌<◌, ◌≤◌, ℕ, List, Result, length, OnOk, IfOk};
ghost use Rattle.wasm_read_spec.specs.declared.fault.Fault.{Fault as AFault};
ghost use Rattle.wasm_read_spec.specs.Reading.{Gives, GivesAll, each_at, list_at, vector_at, whole_at};
ghost use Rattle.wasm_tree.specs.Limits.{limit};

use crate::types::read_u32;
use std::alloc::Global;
use wasm_bytes::{Cursor, Items};
use wasm_read_spec::Fault;
use wasm_tree::Which;

/// A value that bytes encode, so that it can be an item of a vector.
pub trait Spelled: Drop {
    ghost reading: { List ℕ → Result (Self × List ℕ) AFault };

    /// Reads a value from the left. The error is the first fault, or `NoMemory`.
    fn read(alloc: Global, cursor: &mut Cursor<'_>) -> Result<Self, Fault>
        ensures gives { Gives result cursor.new (reading cursor.old) }
        ensures shorter { OnOk result (length cursor.new < length cursor.old) };
}

/// Reads `count` items, one after another. Memory is allocated only for items that are read.
#[tactic(auto, unfolding(wasm_read_spec::specs::Reading::each_from))]
fn read_each<T: Spelled>(
    alloc: Global,
    cursor: &mut Cursor<'_>,
    count: u32,
) -> Result<Items<T>, Fault>
    ensures gives { Gives result cursor.new (each_at T.reading count cursor.old) }
    ensures count { IfOk result (λ xs. length xs ≡ count) }
    ensures shorter { OnOk result (length cursor.new ≤ length cursor.old) }
{
    let mut items = Items::new(alloc);
    for _i in 0..count {
        items.keep(T::read(alloc, cursor)?)?;
    }
    Ok(items)
}

/// Reads a vector (WebAssembly Core 2.0, section 5.1.3).
#[tactic(auto, unfolding(wasm_read_spec::specs::Reading::list_at))]
pub fn read_list<T: Spelled>(alloc: Global, cursor: &mut Cursor<'_>) -> Result<Items<T>, Fault>
    ensures gives { Gives result cursor.new (list_at T.reading cursor.old) }
    ensures shorter { OnOk result (length cursor.new < length cursor.old) }
{
    let count = read_u32(cursor)?;
    read_each(alloc, cursor, count)
}

/// Reads a vector of a limited quantity. The count is compared with the limit before any item is
/// read.
#[tactic(auto, unfolding(wasm_read_spec::specs::Reading::vector_at))]
pub fn read_vector<T: Spelled>(
    alloc: Global,
    cursor: &mut Cursor<'_>,
    which: Which,
) -> Result<Items<T>, Fault>
    ensures gives { Gives result cursor.new (vector_at which T.reading cursor.old) }
    ensures few { IfOk result (λ xs. length xs ≤ limit which) }
    ensures shorter { OnOk result (length cursor.new < length cursor.old) }
{
    let count = read_u32(cursor)?;
    if count > which.limit() {
        return Err(Fault::Limit { which });
    }
    read_each(alloc, cursor, count)
}

/// Reads a vector that is all of the bytes. The error is the first fault, or `NoMemory`.
#[tactic(auto, unfolding(wasm_read_spec::specs::Reading::whole_at))]
pub fn read_whole<T: Spelled>(alloc: Global, bytes: &[u8], which: Which) -> Result<Items<T>, Fault>
    ensures gives { GivesAll result (whole_at (vector_at which T.reading) bytes.now) }
    ensures few { IfOk result (λ xs. length xs ≤ limit which) }
{
    let mut cursor = Cursor::new(bytes);
    let items = read_vector(alloc, &mut cursor, which)?;
    if cursor.left() != 0 {
        return Err(Fault::Malformed);
    }
    Ok(items)
}
