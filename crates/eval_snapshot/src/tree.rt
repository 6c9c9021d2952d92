// The snapshot of a module, before references are declared.

ghost use Rattle.std.specs.Prelude.{◌≡◌, ◌++◌, ◌<◌, ◌^◌, List, IfOk, OnOk, length, unwrap_or};
ghost use Rattle.std.specs.List.{filter_map};
ghost use Rattle.base_lists.specs.Places.{first_place};
ghost use Rattle.wasm_tree.specs.Bounds.{IsBounded};
ghost use Rattle.wasm_valid.specs.Validity.{IsValid};
ghost use Rattle.wasm_meaning.specs.State.{Text};
ghost use Rattle.eval_spec.specs.Stops.{takes_and_gives_nothing};
ghost use Rattle.eval_machine.specs.Kept.{MachineFits, state_in};
ghost use Rattle.eval_snapshot_spec.specs.Snapshot.{added_funcs, export_left, memory_segments, old_segments, snapshot_tree};
ghost use Rattle.eval_snapshot.specs.Names.{HasEvaluated};

use crate::contents::add_contents;
use crate::data_use::any_uses_data;
use crate::exports::{any_kept, exports_left};
use crate::left::{empty_segments, initialise_globals};
use crate::names::evaluated_names;
use eval_machine::Machine;
use std::alloc::Global;
use std::collections::BTreeMap;
use std::mem;
use wasm_bytes::{Items, Name, NoMemory};
use wasm_tree::{Export, Func, FuncType, Module};
use wasm_valid::valid_where_items_hold;

// Returns the index of the first type without parameters and results, or 0 if there is none.
fn empty_type(types: &[FuncType]) -> u32
    requires { length types.now < 2 ^ 32 }
    ensures { result ≡ unwrap_or (first_place takes_and_gives_nothing types.now 0) 0 }
{
    for (at, ty) in types.iter().enumerate() {
        if ty.params.len() == 0 && ty.results.len() == 0 {
            return at as u32;
        }
    }
    0
}

// Keeps the old segments, emptied as in `empty_segments`, if a body names a data segment.
fn leave_segments(alloc: Global, tree: &mut Module, machine: &Machine)
    requires fits { MachineFits tree.old machine.now }
    requires few { length tree.old.datas < 2 ^ 32 }
    ensures { tree.new ≡ record tree.old { datas = old_segments tree.old (state_in tree.old machine.now) } }
{
    if any_uses_data(tree.funcs.as_slice()) {
        empty_segments(alloc, &mut tree.datas, machine);
    } else {
        tree.datas = Items::new(alloc);
    }
}

// Does the same as `leave_segments`, and then appends the contents of the memory that the module
// defines.
fn put_segments(alloc: Global, tree: &mut Module, machine: &Machine) -> Result<(), NoMemory>
    requires fits { MachineFits tree.old machine.now }
    requires valid { IsValid tree.old }
    requires bounded { IsBounded tree.old }
    ensures { OnOk result (tree.new ≡ record tree.old { datas = old_segments tree.old (state_in tree.old machine.now) ++ memory_segments tree.old (state_in tree.old machine.now) }) }
{
    valid_where_items_hold();
    let imported = tree.imported_memories() as u32;
    leave_segments(alloc, tree, machine);
    if let Some(paged) = machine.memory() {
        add_contents(alloc, &mut tree.datas, paged, imported)?;
    }
    Ok(())
}

// Adds the empty function if an export stays for it.
fn add_empty(alloc: Global, tree: &mut Module, names: &BTreeMap<&str, bool>) -> Result<(), NoMemory>
    requires few { length tree.old.types < 2 ^ 32 }
    ensures { (evaluated kept : List Text) → HasEvaluated evaluated kept names.now → OnOk result (tree.new ≡ record tree.old { funcs = tree.old.funcs ++ added_funcs tree.old evaluated kept }) }
{
    let ty = empty_type(tree.types.as_slice());
    if any_kept(tree.exports.as_slice(), names) {
        tree.funcs.keep(Func {
            ty,
            locals: Items::new(alloc),
            body: Items::new(alloc),
        })?;
    }
    Ok(())
}

// Removes and redirects exports; `empty` is the index of the empty function.
fn leave_exports(
    alloc: Global,
    exports: &mut Items<Export>,
    names: &BTreeMap<&str, bool>,
    empty: u32,
) -> Result<(), NoMemory>
    ensures { (evaluated kept : List Text) → HasEvaluated evaluated kept names.now → OnOk result (exports.new ≡ filter_map (export_left evaluated kept empty) exports.old) }
{
    let all = mem::replace(exports, Items::new(alloc));
    *exports = exports_left(alloc, all, names, empty)?;
    Ok(())
}

// Puts the state that the evaluated constructors left into the module.
fn put_state(
    alloc: Global,
    tree: &mut Module,
    machine: &Machine,
    names: &BTreeMap<&str, bool>,
) -> Result<(), NoMemory>
    requires fits { MachineFits tree.old machine.now }
    requires valid { IsValid tree.old }
    requires bounded { IsBounded tree.old }
    ensures { (evaluated kept : List Text) → HasEvaluated evaluated kept names.now → OnOk result (tree.new ≡ snapshot_tree tree.old (state_in tree.old machine.now) evaluated kept) }
{
    let empty = tree.func_space() as u32;
    let imported = tree.imported_globals() as u32;
    put_segments(alloc, tree, machine)?;
    initialise_globals(&mut tree.globals, machine, imported);
    add_empty(alloc, tree, names)?;
    leave_exports(alloc, &mut tree.exports, names, empty)?;
    tree.start = None;
    Ok(())
}

/// Returns the module with the state that these constructors left, before references are declared.
pub(crate) fn tree(
    alloc: Global,
    from: Module,
    machine: &Machine,
    evaluated: &[Name],
    kept: &[Name],
) -> Result<Module, NoMemory>
    requires fits { MachineFits from machine.now }
    requires valid { IsValid from }
    requires bounded { IsBounded from }
    ensures { IfOk result (λ tree. tree ≡ snapshot_tree from (state_in from machine.now) evaluated.now kept.now) }
{
    let names = evaluated_names(alloc, evaluated, kept)?;
    let mut tree = from;
    put_state(alloc, &mut tree, machine, &names)?;
    Ok(tree)
}
