ghost use Rattle.std.specs.Prelude.{◌≡◌, [], ◌⊎◌, ◌<◌, ◌≤◌, ◌^◌, ◌++◌, Ok, Err, length, IfOk, IfErr, OnOk};
ghost use Rattle.std.specs.List.{filter_map};
ghost use Rattle.wasm_tree.specs.Spaces.{funcs_of};
ghost use Rattle.index_remap.specs.References.{declared};
ghost use Rattle.merge_spec.specs.Parts.{named_modules};
ghost use Rattle.merge_spec.specs.Merged as terms;
ghost use Rattle.merge_spec.specs.Joined as joined;
ghost use Rattle.merge_spec.specs.declared.faults.JoinFault.TheVariants.{NoMemory as OutOfMemory};
ghost use Rattle.merge_join.specs.LinkedParts.{HaveTheirMaps, PartsAreLinked, funcs_before_calls};
ghost use Rattle.merge_join.specs.AllSpaces.{AreSpaces};
ghost use Rattle.merge_join.specs.Planned.{IsMergedFrame, IsMergePlan};

use crate::all_spaces::{Spaces, spaces_of};
use crate::consts::all_values;
use crate::exports::{merged_exports, new_names};
use crate::imports::merged_imports;
use crate::mapped_parts::MappedParts;
use crate::maps::all_maps;
use crate::moving::moved_parts;
use crate::starts::{add_calling, all_starts, start_among};
use crate::types::{Types, all_types};
use index_remap::{Remap, declare_refs};
use index_remap_proof::declared_trees_are_valid;
use merge_names::Mode;
use merge_proof::maps_have_entries;
use merge_spec::{JoinFault, Links, Part};
use module_limits::over_limit;
use std::alloc::Global;
use wasm_bytes::{Items, Name, NoMemory};
use wasm_tree::{ConstExpr, Module, operands_are_mapped, operands_pass_layer_by_layer};

/// What the merged module is made from. `frame` has its types, imports, exports and start, with the
/// function that calls several starts; `maps` and `values` have for each part the map of its
/// indices and what replaces each global that it imports.
#[derive(Drop)]
pub(crate) struct Plan {
    pub frame: Module,
    pub maps: Items<Remap>,
    pub values: Items<Items<ConstExpr>>,
}

// Sets the start, and adds the function that calls several starts.
fn put_starts(
    alloc: Global,
    joining: &MappedParts<'_>,
    types: &Types,
    count: u32,
    tree: &mut Module,
) -> Result<(), NoMemory>
    requires joined { HaveTheirMaps joining.now }
    requires types { types.now.list ≡ terms.merged_types (named_modules joining.now.parts.now) }
    ensures { OnOk result (tree.new ≡ record tree.old {
      funcs = tree.old.funcs ++ terms.start_calls (named_modules joining.now.parts.now) (terms.starts (named_modules joining.now.parts.now));
      start = terms.start_among count (terms.starts (named_modules joining.now.parts.now));
    }) }
{
    let starts = all_starts(alloc, joining)?;
    add_calling(alloc, &mut tree.funcs, starts.as_slice(), types)?;
    tree.start = start_among(starts.as_slice(), count);
    Ok(())
}

// Sets the imports to the staying imports, and the exports to those that have a name in `names`.
fn put_names(
    alloc: Global,
    joining: &MappedParts<'_>,
    names: &[Option<Name>],
    tree: &mut Module,
) -> Result<(), NoMemory>
    requires joined { HaveTheirMaps joining.now }
    requires named { length names.now ≡ length (terms.all_exports (named_modules joining.now.parts.now)) }
    ensures { OnOk result (tree.new ≡ record tree.old {
      imports = filter_map (terms.merged_import (named_modules joining.now.parts.now)) (terms.staying (named_modules joining.now.parts.now));
      exports = terms.named_exports (terms.all_exports (named_modules joining.now.parts.now)) names.now;
    }) }
{
    tree.imports = merged_imports(alloc, joining)?;
    tree.exports = merged_exports(alloc, joining, names)?;
    Ok(())
}

// Puts the start, the function that calls several starts, the imports and the exports of a frame
// into an empty module. `count` is the number of functions without the one that calls the starts.
fn put_named(
    alloc: Global,
    joining: &MappedParts<'_>,
    names: &[Option<Name>],
    types: &Types,
    count: u32,
    tree: &mut Module,
) -> Result<(), NoMemory>
    requires joined { HaveTheirMaps joining.now }
    requires named { length names.now ≡ length (terms.all_exports (named_modules joining.now.parts.now)) }
    requires types { types.now.list ≡ terms.merged_types (named_modules joining.now.parts.now) }
    requires count { count ≡ funcs_before_calls (named_modules joining.now.parts.now) }
    requires empty { tree.old.funcs ≡ [] }
    ensures { OnOk result (IsMergedFrame (named_modules joining.now.parts.now) names.now (record tree.new { types = types.now.list })) }
{
    put_starts(alloc, joining, types, count, tree)?;
    put_names(alloc, joining, names, tree)?;
    Ok(())
}

// Returns the frame of a plan. `count` is the number of functions without the one that calls
// several starts.
fn frame_of(
    alloc: Global,
    joining: &MappedParts<'_>,
    names: &[Option<Name>],
    types: Types,
    count: u32,
) -> Result<Module, NoMemory>
    requires joined { HaveTheirMaps joining.now }
    requires named { length names.now ≡ length (terms.all_exports (named_modules joining.now.parts.now)) }
    requires types { types.list ≡ terms.merged_types (named_modules joining.now.parts.now) }
    requires count { count ≡ funcs_before_calls (named_modules joining.now.parts.now) }
    ensures { IfOk result (IsMergedFrame (named_modules joining.now.parts.now) names.now) }
{
    let mut tree = Module::empty(alloc);
    put_named(alloc, joining, names, &types, count, &mut tree)?;
    tree.types = types.into_list();
    Ok(tree)
}

// Returns the plan, given the merged index spaces.
fn plan_over(
    alloc: Global,
    parts: &[Part],
    links: &Links,
    names: &[Option<Name>],
    spaces: &Spaces<'_>,
) -> Result<Plan, NoMemory>
    requires linked { PartsAreLinked parts.now links.now }
    requires named { length names.now ≡ length (terms.all_exports (named_modules parts.now)) }
    requires spaces { AreSpaces parts.now spaces.now }
    ensures { IfOk result (IsMergePlan (named_modules parts.now) names.now) }
{
    let types = all_types(alloc, parts)?;
    let maps = all_maps(alloc, parts, links, spaces, &types)?;
    let joining = MappedParts {
        parts,
        links,
        maps: maps.as_slice(),
    };
    let values = all_values(alloc, &joining)?;
    let frame = frame_of(alloc, &joining, names, types, spaces.funcs.count)?;
    Ok(Plan {
        frame,
        maps,
        values,
    })
}

// Returns the plan, given the new names of the exports.
fn plan_of(
    alloc: Global,
    parts: &[Part],
    links: &Links,
    names: &[Option<Name>],
) -> Result<Plan, NoMemory>
    requires linked { PartsAreLinked parts.now links.now }
    requires named { length names.now ≡ length (terms.all_exports (named_modules parts.now)) }
    ensures { IfOk result (IsMergePlan (named_modules parts.now) names.now) }
{
    let spaces = spaces_of(alloc, parts, links)?;
    plan_over(alloc, parts, links, names, &spaces)
}

// Adds the frame of a plan to the tree that has what the parts define.
fn put_frame(frame: Module, tree: &mut Module) -> Result<(), NoMemory>
    ensures { OnOk result (tree.new ≡ record tree.old {
      types = frame.types;
      imports = frame.imports;
      funcs = tree.old.funcs ++ frame.funcs;
      exports = frame.exports;
      start = frame.start;
    }) }
{
    let mut calls = frame.funcs;
    tree.funcs.append(&mut calls)?;
    tree.types = frame.types;
    tree.imports = frame.imports;
    tree.exports = frame.exports;
    tree.start = frame.start;
    Ok(())
}

// Returns the merged module, given the new names of the exports.
fn merged(
    alloc: Global,
    parts: Items<Part>,
    links: &Links,
    names: &[Option<Name>],
) -> Result<Module, NoMemory>
    requires linked { PartsAreLinked parts links.now }
    requires named { length names.now ≡ length (terms.all_exports (named_modules parts)) }
    ensures is { IfOk result (λ tree. tree ≡ terms.merged (named_modules parts) names.now) }
    ensures few { IfOk result (λ tree. length (funcs_of tree) < 2 ^ 32) }
{
    let plan = plan_of(alloc, parts.as_slice(), links, names)?;
    let Plan {
        frame,
        maps,
        values,
    } = plan;
    let moved = moved_parts(alloc, parts, maps.as_slice(), values.as_slice());
    drop(maps);
    drop(values);
    let mut tree = moved?;
    put_frame(frame, &mut tree)?;
    Ok(tree)
}

// Declares the functions that `ref.func` names in bodies and that the module names nowhere else.
// There are none if the module has all exports of the parts, whose number is `exports`.
fn declare_references(alloc: Global, module: &mut Module, exports: usize) -> Result<(), NoMemory>
    requires few { length (funcs_of «module».old) < 2 ^ 32 }
    requires kept { exports ≤ length «module».old.exports → declared «module».old ≡ «module».old }
    ensures { OnOk result («module».new ≡ declared «module».old) }
{
    if module.exports.len() < exports {
        declare_refs(alloc, module)
    } else {
        Ok(())
    }
}

/// Returns the merged module with its references declared, or why there is none.
pub(crate) fn joined_tree(
    alloc: Global,
    parts: Items<Part>,
    links: &Links,
    mode: Mode,
) -> Result<Module, JoinFault>
    requires linked { PartsAreLinked parts links.now }
    ensures joined { IfOk result (λ tree. joined.Joins (named_modules parts) mode (Ok tree)) }
    ensures fault { IfErr result (λ f. (f ≡ OutOfMemory) ⊎ joined.Joins (named_modules parts) mode (Err f)) }
{
    declared_trees_are_valid();
    maps_have_entries();
    operands_are_mapped();
    operands_pass_layer_by_layer();
    let names = new_names(alloc, parts.as_slice(), mode)?;
    let mut module = merged(alloc, parts, links, names.as_slice())?;
    declare_references(alloc, &mut module, names.len())?;
    match over_limit(&module) {
        Some(which) => Err(JoinFault::TooMany { which }),
        None => Ok(module),
    }
}
