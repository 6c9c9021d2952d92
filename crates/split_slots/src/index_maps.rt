// The remaps of both modules.

ghost use Rattle.std.specs.Prelude.{◌≡◌, ◌+◌, ◌++◌, ◌<◌, ◌≤◌, ◌^◌, length, IfOk};
ghost use Rattle.base_lists.specs.Places as spec;
ghost use Rattle.base_kept.specs.Kept as kept;
ghost use Rattle.wasm_tree.specs.Bounds.{IsBounded};
ghost use Rattle.wasm_tree.specs.Spaces.{imported_funcs};
ghost use Rattle.split_slots.specs.RemapsFromMarks.{primary_map_by, secondary_map_by};

use crate::named_entities::Marks;
use crate::primary_function_indices::primary_funcs_map;
use base_kept::{add_numbers, new_places};
use index_remap::Remap;
use std::alloc::Global;
use wasm_bytes::{Items, NoMemory};
use wasm_tree::{FuncType, Module};

// Returns the first `count` numbers, from 0 on.
fn numbers(alloc: Global, count: usize) -> Result<Items<u32>, NoMemory>
    requires { count ≤ 2 ^ 32 }
    ensures { IfOk result (λ all. all ≡ spec.numbers 0 count) }
{
    let mut all = Items::new(alloc);
    add_numbers(&mut all, 0, count)?;
    Ok(all)
}

/// Returns the remap of the primary module: functions go where `primary_funcs_map` says, and all
/// else keeps its index (WebAssembly Core 2.0, section 2.5.1). The slot table comes after the other
/// tables. The only error is `NoMemory`.
pub(crate) fn primary_map(
    alloc: Global,
    module: &Module,
    left: &[bool],
    count: u32,
) -> Result<Remap, NoMemory>
    requires bounded { IsBounded «module».now }
    requires there { length (imported_funcs «module».now.imports) ≤ length left.now }
    requires few { length left.now + count < 2 ^ 32 }
    ensures { IfOk result (λ map. map ≡ primary_map_by «module».now left.now count) }
{
    let imported = module.imported_funcs() as u32;
    Ok(Remap {
        types: numbers(alloc, module.types.len())?,
        funcs: primary_funcs_map(alloc, imported, left, count)?,
        tables: numbers(alloc, module.table_space() + 1)?,
        mems: numbers(alloc, module.memory_space())?,
        globals: numbers(alloc, module.global_space())?,
        elems: numbers(alloc, module.elems.len())?,
        datas: numbers(alloc, module.datas.len())?,
    })
}

fn marked_count(marks: &[bool]) -> u32
    requires { length marks.now < 2 ^ 32 }
    ensures count { result ≡ length (spec.places (λ named. named) marks.now 0) }
    ensures most { result ≤ length marks.now }
{
    let mut count = 0;
    for is_marked in marks {
        if *is_marked {
            count += 1;
        }
    }
    count
}

// Returns the new place of each entity among the marked ones, and the places of `more` others after
// these.
fn marked_and_more(alloc: Global, marks: &[bool], more: u32) -> Result<Items<u32>, NoMemory>
    requires marks { length marks.now < 2 ^ 32 }
    requires few { length marks.now + more ≤ 2 ^ 32 }
    ensures { IfOk result (λ all. all ≡ kept.new_places marks.now ++ spec.numbers (length (spec.places (λ named. named) marks.now 0)) more) }
{
    let mut all = new_places(alloc, marks)?;
    add_numbers(&mut all, marked_count(marks), more as usize)?;
    Ok(all)
}

/// Returns the remap of the secondary module (WebAssembly Core 2.0, section 2.5.1): a marked entity
/// goes to its place among the marked ones, `own` functions come after the imported functions, and
/// the slot table comes after the imported tables. The only error is `NoMemory`.
pub(crate) fn secondary_map(
    alloc: Global,
    types: &[FuncType],
    marks: &Marks,
    own: u32,
) -> Result<Remap, NoMemory>
    requires types { length types.now ≤ 2 ^ 32 }
    requires funcs { length marks.now.funcs.items + own < 2 ^ 32 }
    requires tables { length marks.now.tables.items < 2 ^ 32 }
    requires mems { length marks.now.mems.items < 2 ^ 32 }
    requires globals { length marks.now.globals.items < 2 ^ 32 }
    ensures { IfOk result (λ map. map ≡ secondary_map_by types.now marks.now own) }
{
    Ok(Remap {
        types: numbers(alloc, types.len())?,
        funcs: marked_and_more(alloc, &marks.funcs, own)?,
        tables: marked_and_more(alloc, &marks.tables, 1)?,
        mems: new_places(alloc, &marks.mems)?,
        globals: new_places(alloc, &marks.globals)?,
        elems: Items::new(alloc),
        datas: Items::new(alloc),
    })
}
