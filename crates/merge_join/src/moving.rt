// Moves what the parts define into the merged module.

ghost use Rattle.std.specs.Prelude.{◌≡◌, IfOk, OnOk, IsTrue};
ghost use Rattle.index_remap.specs.Renumbered.{fits_tree};
ghost use Rattle.merge_spec.specs.Parts.{named_modules};
ghost use Rattle.wasm_tree.specs.Bounds.{IsBounded};
ghost use Rattle.wasm_valid.specs.Validity.{IsValid};
ghost use Rattle.merge_join.specs.Moved.{AreAllValues, rewritten, with_defined, with_moved};
ghost use Rattle.merge_join.specs.Planned.{IsMoved};
ghost use Rattle.merge_join.specs.LinkedParts.{AreMaps, PartsHold};

use crate::moved::rewrite_each;
use index_remap::{Remap, renumber_funcs_in_place};
use merge_proof::maps_have_entries;
use merge_spec::Part;
use std::alloc::Global;
use std::mem;
use wasm_bytes::{Items, NoMemory};
use wasm_tree::{ConstExpr, Module};
use wasm_valid::{Valid, valid_where_items_hold};

// Takes the module out of a part and leaves an empty one in its place.
fn take_module(alloc: Global, part: &mut Part) -> Module
    ensures { result ≡ part.old.«module» }
{
    mem::replace(&mut part.module, Valid::known(Module::empty(alloc))).into_module()
}

// Gives what a module defines its new indices.
fn renumber_module(module: &mut Module, map: &Remap, values: &[ConstExpr])
    requires fits { IsTrue (fits_tree map.now «module».old) }
    ensures { «module».new ≡ rewritten map.now values.now «module».old }
{
    renumber_funcs_in_place(&mut module.funcs, map);
    rewrite_each(&mut module.globals, map, values);
    rewrite_each(&mut module.elems, map, values);
    rewrite_each(&mut module.datas, map, values);
}

// Moves what a module defines to the end of the lists of `tree`.
fn move_module(from: &mut Module, tree: &mut Module) -> Result<(), NoMemory>
    ensures { OnOk result (tree.new ≡ with_defined from.old tree.old) }
{
    tree.funcs.append(&mut from.funcs)?;
    tree.tables.append(&mut from.tables)?;
    tree.mems.append(&mut from.mems)?;
    tree.globals.append(&mut from.globals)?;
    tree.elems.append(&mut from.elems)?;
    tree.datas.append(&mut from.datas)
}

// Moves what a part defines, with its new indices, to the end of the lists of `tree`, and leaves an
// empty module in the part.
fn move_part(
    alloc: Global,
    part: &mut Part,
    map: &Remap,
    values: &[ConstExpr],
    tree: &mut Module,
) -> Result<(), NoMemory>
    requires fits { IsTrue (fits_tree map.now part.old.«module») }
    ensures { OnOk result (tree.new ≡ with_moved map.now values.now part.old.«module» tree.old) }
{
    let mut from = take_module(alloc, part);
    renumber_module(&mut from, map, values);
    move_module(&mut from, tree)
}

/// Returns an otherwise empty module with what the parts define, part by part. The call consumes
/// the parts.
pub(crate) fn moved_parts(
    alloc: Global,
    parts: Items<Part>,
    maps: &[Remap],
    values: &[Items<ConstExpr>],
) -> Result<Module, NoMemory>
    requires hold { PartsHold (named_modules parts) }
    requires maps { AreMaps (named_modules parts) maps.now }
    requires values { AreAllValues (named_modules parts) values.now }
    ensures { IfOk result (IsMoved (named_modules parts)) }
{
    maps_have_entries();
    valid_where_items_hold();
    let mut parts = parts;
    let mut tree = Module::empty(alloc);
    for at in 0..parts.len() {
        if let Some(part) = parts.get_mut(at) {
            move_part(alloc, part, &maps[at], values[at].as_slice(), &mut tree)?;
        }
    }
    Ok(tree)
}
