// The exports of a snapshot.

ghost use Rattle.std.specs.Prelude.{◌≡◌, ◌≤◌, List, length, map as each, IfOk, OnOk};
ghost use Rattle.std.specs.List.{list_any, filter_map};
ghost use Rattle.wasm_meaning.specs.State.{Text};
ghost use Rattle.eval_snapshot_spec.specs.Snapshot.{export_left, is_kept};
ghost use Rattle.eval_snapshot.specs.Names.{HasEvaluated, redirected, stays};

use crate::names::found;
use base_kept::keep_marked;
use std::alloc::Global;
use std::collections::BTreeMap;
use wasm_bytes::{Items, NoMemory};
use wasm_tree::{Export, ExportDesc};

// Returns whether the export with this name stays and denotes the empty function.
fn keeps_export(names: &BTreeMap<&str, bool>, name: &str) -> bool
    ensures { (evaluated kept : List Text) → HasEvaluated evaluated kept names.now → result ≡ is_kept evaluated kept name.now }
{
    match found(names, name) {
        Some(kept) => kept,
        None => false,
    }
}

/// Returns whether an export stays and denotes the empty function.
pub(crate) fn any_kept(exports: &[Export], names: &BTreeMap<&str, bool>) -> bool
    ensures { (evaluated kept : List Text) → HasEvaluated evaluated kept names.now → result ≡ list_any (λ e. is_kept evaluated kept e.name) exports.now }
{
    for export in exports {
        if keeps_export(names, export.name.as_str()) {
            return true;
        }
    }
    false
}

// Makes the export of an evaluated constructor denote the empty function; returns whether the
// export stays.
fn redirect(export: &mut Export, names: &BTreeMap<&str, bool>, empty: u32) -> bool
    ensures redirected { (evaluated kept : List Text) → HasEvaluated evaluated kept names.now → export.new ≡ redirected evaluated empty export.old }
    ensures stays { (evaluated kept : List Text) → HasEvaluated evaluated kept names.now → result ≡ stays evaluated kept export.old }
{
    match found(names, export.name.as_str()) {
        None => true,
        Some(kept) => {
            export.desc = ExportDesc::Func(empty);
            kept
        }
    }
}

// Does the same as `redirect` for all exports.
fn redirect_all(
    alloc: Global,
    exports: &mut Items<Export>,
    names: &BTreeMap<&str, bool>,
    empty: u32,
) -> Result<Items<bool>, NoMemory>
    ensures redirected { (evaluated kept : List Text) → HasEvaluated evaluated kept names.now → OnOk result (exports.new ≡ each (redirected evaluated empty) exports.old) }
    ensures stay { (evaluated kept : List Text) → HasEvaluated evaluated kept names.now → IfOk result (λ marks. marks ≡ each (stays evaluated kept) exports.old) }
    ensures many { IfOk result (λ marks. length exports.new ≤ length marks) }
{
    let mut marks = Items::new(alloc);
    for at in 0..exports.len() {
        if let Some(export) = exports.get_mut(at) {
            marks.keep(redirect(export, names, empty))?;
        }
    }
    Ok(marks)
}

/// Returns the exports that stay; `empty` is the index of the empty function.
pub(crate) fn exports_left(
    alloc: Global,
    exports: Items<Export>,
    names: &BTreeMap<&str, bool>,
    empty: u32,
) -> Result<Items<Export>, NoMemory>
    ensures { (evaluated kept : List Text) → HasEvaluated evaluated kept names.now → IfOk result (λ left. left ≡ filter_map (export_left evaluated kept empty) exports) }
{
    let mut exports = exports;
    let marks = redirect_all(alloc, &mut exports, names, empty)?;
    keep_marked(alloc, exports, marks.as_slice())
}
