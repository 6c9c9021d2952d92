// The maps from the indices of each part to those of the merged module.

ghost use Rattle.std.specs.Prelude.{◌≡◌, ◌+◌, ◌<◌, ◌≤◌, ◌^◌, length, map as each, Some, IfOk, unwrap_or};
ghost use Rattle.wasm_tree.specs.declared.space.Space.TheVariants.{DataSegments, ElementSegments};
ghost use Rattle.wasm_tree.specs.declared.module.Module.{Module as Tree};
ghost use Rattle.wasm_meaning.specs.Linking.{module_at, imports_of, first_place};
ghost use Rattle.wasm_tree.specs.SameTypes.{same_func_type};
ghost use Rattle.wasm_meaning.specs.World as world;
ghost use Rattle.wasm_meaning.specs.World.{defined_before};
ghost use Rattle.merge_spec.specs.Parts.{named_modules};
ghost use Rattle.merge_spec.specs.Merged as merged;
ghost use Rattle.merge_spec.specs.Merged.{new_index, merged_types};
ghost use Rattle.merge_join.specs.LinkedParts.{space_size, PartsAreLinked, AreMaps};
ghost use Rattle.merge_join.specs.AllSpaces.{AreSpaces};

use crate::all_spaces::Spaces;
use crate::defined::defined_count;
use crate::linked::{end_of, module_of};
use crate::numbers::{add_numbers, number_at};
use crate::spaces::MergedSpace;
use crate::types::Types;
use index_remap::Remap;
use merge_spec::{Links, Part};
use std::alloc::Global;
use wasm_bytes::{Items, NoMemory};
use wasm_meaning::definitions_are_counted_by_part;
use wasm_tree::FuncType;

// Returns `count` consecutive numbers from `first` on.
fn numbers(alloc: Global, first: u32, count: usize) -> Result<Items<u32>, NoMemory>
    requires { first + count ≤ 2 ^ 32 }
    ensures { IfOk result (λ all. all ≡ world.numbers first count) }
{
    let mut all = Items::new(alloc);
    add_numbers(&mut all, first, count)?;
    Ok(all)
}

// Returns the place of each type in `all`, or 0 if it is not there.
fn type_map(alloc: Global, types: &[FuncType], all: &Types) -> Result<Items<u32>, NoMemory>
    ensures { IfOk result (λ places. places ≡ each (λ t. unwrap_or (first_place (same_func_type t) all.now.list 0) 0) types.now) }
{
    let mut map = Items::new(alloc);
    for ty in types {
        map.keep(all.type_place(alloc, ty)?)?;
    }
    Ok(map)
}

// Returns the new indices of what a part imports into an index space. Each is the place of the
// import's end.
fn imported_map(
    alloc: Global,
    links: &Links,
    part: usize,
    into: &MergedSpace<'_>,
) -> Result<Items<u32>, NoMemory>
    requires linked { PartsAreLinked into.now.parts.now links.now }
    requires there { part < length into.now.parts.now }
    ensures { IfOk result (λ new. (m : Tree) → module_at (named_modules into.now.parts.now) part ≡ Some m → new ≡
        each (new_index (named_modules into.now.parts.now) part into.now.space) (world.numbers 0 (length (imports_of into.now.space m)))) }
{
    let mut map = Items::new(alloc);
    let imports = module_of(into.parts, part).imports.as_slice();
    for place in 0..imports.len() {
        if !imports[place].desc.is_in(into.space) {
            continue;
        }
        map.keep(into.place_of_end(end_of(into.parts, links, part, place)))?;
    }
    Ok(map)
}

// Returns the new indices of all entries of a part's index space.
fn space_map(
    alloc: Global,
    links: &Links,
    part: usize,
    into: &MergedSpace<'_>,
) -> Result<Items<u32>, NoMemory>
    requires linked { PartsAreLinked into.now.parts.now links.now }
    requires there { part < length into.now.parts.now }
    ensures { IfOk result (λ new. (m : Tree) → module_at (named_modules into.now.parts.now) part ≡ Some m → new ≡
        each (new_index (named_modules into.now.parts.now) part into.now.space) (world.numbers 0 (space_size into.now.space m))) }
{
    definitions_are_counted_by_part();
    let mut map = imported_map(alloc, links, part, into)?;
    let first = number_at(&into.firsts, part);
    let defined = defined_count(into.space, module_of(into.parts, part));
    add_numbers(&mut map, first, defined)?;
    Ok(map)
}

// The new indices of the first element segment and the first data segment of a part.
#[derive(Clone, Copy)]
struct Segments {
    elem: u32,
    data: u32,
}

// Returns the map of a part's indices.
fn map_of(
    alloc: Global,
    parts: &[Part],
    links: &Links,
    part: usize,
    spaces: &Spaces<'_>,
    types: &Types,
    first: Segments,
) -> Result<Remap, NoMemory>
    requires linked { PartsAreLinked parts.now links.now }
    requires there { part < length parts.now }
    requires spaces { AreSpaces parts.now spaces.now }
    requires types { types.now.list ≡ merged_types (named_modules parts.now) }
    requires elem { first.elem ≡ defined_before ElementSegments (named_modules parts.now) part }
    requires data { first.data ≡ defined_before DataSegments (named_modules parts.now) part }
    ensures { IfOk result (λ map. (m : Tree) → module_at (named_modules parts.now) part ≡ Some m → map ≡ merged.map_of (named_modules parts.now) part m) }
{
    definitions_are_counted_by_part();
    let module = module_of(parts, part);
    Ok(Remap {
        types: type_map(alloc, module.types.as_slice(), types)?,
        funcs: space_map(alloc, links, part, &spaces.funcs)?,
        tables: space_map(alloc, links, part, &spaces.tables)?,
        mems: space_map(alloc, links, part, &spaces.mems)?,
        globals: space_map(alloc, links, part, &spaces.globals)?,
        elems: numbers(alloc, first.elem, module.elems.len())?,
        datas: numbers(alloc, first.data, module.datas.len())?,
    })
}

/// Returns the map of the indices of each part.
pub(crate) fn all_maps(
    alloc: Global,
    parts: &[Part],
    links: &Links,
    spaces: &Spaces<'_>,
    types: &Types,
) -> Result<Items<Remap>, NoMemory>
    requires linked { PartsAreLinked parts.now links.now }
    requires spaces { AreSpaces parts.now spaces.now }
    requires types { types.now.list ≡ merged_types (named_modules parts.now) }
    ensures { IfOk result (λ maps. AreMaps (named_modules parts.now) maps) }
{
    definitions_are_counted_by_part();
    let mut maps = Items::new(alloc);
    let mut first = Segments { elem: 0, data: 0 };
    for part in 0..parts.len() {
        let module = module_of(parts, part);
        maps.keep(map_of(alloc, parts, links, part, spaces, types, first)?)?;
        first.elem += module.elems.len() as u32;
        first.data += module.datas.len() as u32;
    }
    Ok(maps)
}
