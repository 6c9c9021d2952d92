// The map of a sweep.

ghost use Rattle.std.specs.Prelude.{◌≡◌, ◌≤◌, ◌<◌, ◌^◌, length, IfOk};
ghost use Rattle.base_lists.specs.Places as places;
ghost use Rattle.wasm_tree.specs.Bounds.{IsBounded};
ghost use Rattle.dce_spec.specs.Swept as swept;
ghost use Rattle.dce_spec.specs.Reached.{marks_of};

use base_kept::{add_numbers, new_places};
use dce_graph::Reached;
use index_remap::Remap;
use std::alloc::Global;
use wasm_bytes::{Items, NoMemory};
use wasm_tree::Module;

// Returns `count` consecutive numbers from 0 on.
fn numbers(alloc: Global, count: usize) -> Result<Items<u32>, NoMemory>
    requires { count ≤ 2 ^ 32 }
    ensures { IfOk result (λ all. all ≡ places.numbers 0 count) }
{
    let mut all = Items::new(alloc);
    add_numbers(&mut all, 0, count)?;
    Ok(all)
}

/// Returns the map of a sweep: functions and globals go to their places among those that are kept,
/// and all other indices stay the same.
pub(crate) fn sweep_map(alloc: Global, module: &Module, marks: &Reached) -> Result<Remap, NoMemory>
    requires bounded { IsBounded «module».now }
    requires funcs { length marks.now.funcs < 2 ^ 32 }
    requires globals { length marks.now.globals < 2 ^ 32 }
    ensures { IfOk result (λ map. map ≡ swept.sweep_map (marks_of marks.now) «module».now) }
{
    Ok(Remap {
        types: numbers(alloc, module.types.len())?,
        funcs: new_places(alloc, marks.funcs.as_slice())?,
        tables: numbers(alloc, module.table_space())?,
        mems: numbers(alloc, module.memory_space())?,
        globals: new_places(alloc, marks.globals.as_slice())?,
        elems: numbers(alloc, module.elems.len())?,
        datas: numbers(alloc, module.datas.len())?,
    })
}
