// What is kept of a module.

ghost use Rattle.std.specs.Prelude.{◌≡◌, ◌-◌, ◌≤◌, length, map as each, drop, filter, IfOk, OnOk};
ghost use Rattle.wasm_tree.specs.Spaces.{funcs_of, globals_of};
ghost use Rattle.base_kept.specs.Kept.{kept};
ghost use Rattle.dce_spec.specs.Swept.{is_kept_ref, kept_elem, kept_tree};
ghost use Rattle.dce_spec.specs.Reached.{marks_of};

use base_kept::keep_marked;
use dce_graph::Reached;
use std::alloc::Global;
use wasm_bytes::{Items, NoMemory};
use wasm_tree::{ConstExpr, ElemMode, ElemSeg, Module};

// Keeps what is marked of what a module defines. Its marks come after those of its imports.
fn keep_defined<T: Drop>(
    alloc: Global,
    defined: Items<T>,
    marks: &[bool],
) -> Result<Items<T>, NoMemory>
    requires { length defined ≤ length marks.now }
    ensures { IfOk result (λ all. all ≡ kept (drop (length marks.now - length defined) marks.now) defined) }
{
    let imported = marks.len() - defined.len();
    keep_marked(alloc, defined, &marks[imported..])
}

fn is_kept(item: ConstExpr, marks: &Reached) -> bool
    ensures { result ≡ is_kept_ref (marks_of marks.now) item }
{
    match item {
        ConstExpr::Func(func) => marks
            .funcs
            .as_slice()
            .get(func as usize)
            .copied()
            .unwrap_or(false),
        ConstExpr::I32(_) | ConstExpr::I64(_) | ConstExpr::Null(_) | ConstExpr::Global(_) => false,
    }
}

// Returns the items that are `ref.func` of a kept function.
fn kept_refs(
    alloc: Global,
    items: &[ConstExpr],
    marks: &Reached,
) -> Result<Items<ConstExpr>, NoMemory>
    ensures { IfOk result (λ all. all ≡ filter (is_kept_ref (marks_of marks.now)) items.now) }
{
    let mut all = Items::new(alloc);
    for item in items {
        if is_kept(*item, marks) {
            all.keep(*item)?;
        }
    }
    Ok(all)
}

// Keeps of the items of a declarative segment only those that declare kept functions.
fn keep_items(alloc: Global, elem: &mut ElemSeg, marks: &Reached) -> Result<(), NoMemory>
    ensures { OnOk result (elem.new ≡ kept_elem (marks_of marks.now) elem.old) }
{
    match elem.mode {
        ElemMode::Declarative => {
            elem.items = kept_refs(alloc, elem.items.as_slice(), marks)?;
            Ok(())
        }
        ElemMode::Active { .. } | ElemMode::Passive => Ok(()),
    }
}

fn keep_declared(alloc: Global, elems: &mut Items<ElemSeg>, marks: &Reached) -> Result<(), NoMemory>
    ensures { OnOk result (elems.new ≡ each (kept_elem (marks_of marks.now)) elems.old) }
{
    for at in 0..elems.len() {
        if let Some(elem) = elems.get_mut(at) {
            keep_items(alloc, elem, marks)?;
        }
    }
    Ok(())
}

/// Returns the module without what is not marked. What is left still has the indices of the whole
/// module.
pub(crate) fn kept_module(alloc: Global, from: Module, marks: &Reached) -> Result<Module, NoMemory>
    requires exports { length marks.now.exports ≡ length from.exports }
    requires imports { length marks.now.imports ≡ length from.imports }
    requires funcs { length marks.now.funcs ≡ length (funcs_of from) }
    requires globals { length marks.now.globals ≡ length (globals_of from) }
    ensures { IfOk result (λ tree. tree ≡ kept_tree (marks_of marks.now) from) }
{
    let mut elems = from.elems;
    keep_declared(alloc, &mut elems, marks)?;
    Ok(Module {
        types: from.types,
        imports: keep_marked(alloc, from.imports, marks.imports.as_slice())?,
        funcs: keep_defined(alloc, from.funcs, marks.funcs.as_slice())?,
        tables: from.tables,
        mems: from.mems,
        globals: keep_defined(alloc, from.globals, marks.globals.as_slice())?,
        exports: keep_marked(alloc, from.exports, marks.exports.as_slice())?,
        start: from.start,
        elems,
        datas: from.datas,
    })
}
