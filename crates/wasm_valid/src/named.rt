// The functions that `ref.func` may name in a body (WebAssembly Core 2.0, section 3.4.10).

ghost use Rattle.std.specs.Prelude.{◌≡◌, length, slice_set, replicate, true, false, IfOk};
ghost use Rattle.std.specs.List.{filter_map};
ghost use Rattle.base_kept.specs.Marks.{marked_all};
ghost use Rattle.wasm_tree.specs.Spaces.{funcs_of};
ghost use Rattle.wasm_valid.specs.Named.{const_func, export_func, elem_refs, global_refs, export_refs, marked_at, named_of};

use std::alloc::{AllocError, Global};
use wasm_tree::{ConstExpr, ElemSeg, Export, ExportDesc, GlobalDef, Module};

/// Sets the mark of the function `func` to true. If `marks` has no entry for it, nothing changes.
pub fn mark(marks: &mut Vec<bool>, func: u32)
    ensures { marks.new.items ≡ slice_set marks.old.items func true }
{
    if let Some(mark) = marks.get_mut(func as usize) {
        *mark = true;
    }
}

/// Marks the function that the constant expression names (`ref.func`), if it names one, as `mark`
/// does.
pub fn mark_const(marks: &mut Vec<bool>, expr: &ConstExpr)
    ensures { marks.new.items ≡ marked_at marks.old.items (const_func expr.now) }
{
    if let ConstExpr::Func(func) = expr {
        mark(marks, *func);
    }
}

fn mark_export(marks: &mut Vec<bool>, desc: &ExportDesc)
    ensures { marks.new.items ≡ marked_at marks.old.items (export_func desc.now) }
{
    if let ExportDesc::Func(func) = desc {
        mark(marks, *func);
    }
}

fn mark_items(marks: &mut Vec<bool>, items: &[ConstExpr])
    ensures { marks.new.items ≡ marked_all marks.old.items (filter_map const_func items.now) }
{
    for item in items {
        mark_const(marks, item);
    }
}

fn mark_elems(marks: &mut Vec<bool>, elems: &[ElemSeg])
    ensures { marks.new.items ≡ marked_all marks.old.items (elem_refs elems.now) }
{
    for segment in elems {
        mark_items(marks, segment.items.as_slice());
    }
}

fn mark_globals(marks: &mut Vec<bool>, globals: &[GlobalDef])
    ensures { marks.new.items ≡ marked_all marks.old.items (global_refs globals.now) }
{
    for global in globals {
        mark_const(marks, &global.init);
    }
}

fn mark_exports(marks: &mut Vec<bool>, exports: &[Export])
    ensures { marks.new.items ≡ marked_all marks.old.items (export_refs exports.now) }
{
    for export in exports {
        mark_export(marks, &export.desc);
    }
}

fn no_marks(alloc: Global, count: usize) -> Result<Vec<bool>, AllocError>
    ensures { IfOk result (λ marks. marks.items ≡ replicate count false) }
{
    vec![in alloc; false; count]
}

/// Returns for each function whether an item of an element segment, an initialiser of a global or
/// an export names it. `count` must be the number of functions of the module, with the imported
/// ones. The only error is that memory runs out.
///
/// These are the functions that `ref.func` may name in a body (WebAssembly Core 2.0, section
/// 3.4.10). Offsets of segments are not looked at: in a valid module no offset names a function.
pub fn named_funcs(alloc: Global, module: &Module, count: usize) -> Result<Vec<bool>, AllocError>
    requires { count ≡ length (funcs_of «module».now) }
    ensures { IfOk result (λ marks. marks.items ≡ named_of «module».now) }
{
    let mut marks = no_marks(alloc, count)?;
    mark_elems(&mut marks, module.elems.as_slice());
    mark_globals(&mut marks, module.globals.as_slice());
    mark_exports(&mut marks, module.exports.as_slice());
    Ok(marks)
}
