ghost use Rattle.std.specs.Prelude.{◌≡◌, ◌<◌, ◌≤◌, ◌+◌, length, OnOk, IfOk};
ghost use Rattle.wasm_read_spec.specs.Reading.{Gives, GivesAll, each_from, whole_at};
ghost use Rattle.wasm_names.specs.Reading.{func_name_at, func_names_at, least_after};

use crate::func_name::FuncName;
use std::alloc::Global;
use wasm_bytes::{Cursor, Items};
use wasm_read_items::read_name;
use wasm_read_spec::Fault;

/// Reads the index of a function, which has to be at least `least`, and its name.
#[tactic(auto, unfolding(crate::specs::Reading::func_name_at))]
fn read_func_name(alloc: Global, cursor: &mut Cursor<'_>, least: u64) -> Result<FuncName, Fault>
    ensures gives { Gives result cursor.new (func_name_at least cursor.old) }
    ensures shorter { OnOk result (length cursor.new < length cursor.old) }
{
    let index = cursor.u32()?;
    if u64::from(index) < least {
        return Err(Fault::Malformed);
    }
    let name = read_name(alloc, cursor)?;
    Ok(FuncName { index, name })
}

/// Reads `count` entries, each with an index greater than the one before.
#[tactic(auto, unfolding(wasm_read_spec::specs::Reading::each_from))]
fn read_each_func_name(
    alloc: Global,
    cursor: &mut Cursor<'_>,
    count: u32,
) -> Result<Items<FuncName>, Fault>
    ensures gives { Gives result cursor.new (each_from func_name_at least_after count 0 cursor.old) }
{
    let mut names = Items::new(alloc);
    let mut least = 0u64;
    for _i in 0..count {
        let name = read_func_name(alloc, cursor, least)?;
        least = u64::from(name.index) + 1;
        names.keep(name)?;
    }
    Ok(names)
}

/// Reads a name map (WebAssembly Core 2.0, section 7.4.1): a vector of indices and names, with
/// strictly ascending indices.
#[tactic(auto, unfolding(crate::specs::Reading::func_names_at))]
fn read_func_names(alloc: Global, cursor: &mut Cursor<'_>) -> Result<Items<FuncName>, Fault>
    ensures gives { Gives result cursor.new (func_names_at cursor.old) }
{
    let count = cursor.u32()?;
    read_each_func_name(alloc, cursor, count)
}

/// Reads a name map that takes up all of the bytes.
#[tactic(auto, unfolding(wasm_read_spec::specs::Reading::whole_at))]
pub fn read_name_map(alloc: Global, bytes: &[u8]) -> Result<Items<FuncName>, Fault>
    ensures gives { GivesAll result (whole_at func_names_at bytes.now) }
{
    let mut cursor = Cursor::new(bytes);
    let names = read_func_names(alloc, &mut cursor)?;
    if cursor.left() != 0 {
        return Err(Fault::Malformed);
    }
    Ok(names)
}
