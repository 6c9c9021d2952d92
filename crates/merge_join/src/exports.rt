// The exports of all parts, under the names that the mode gives them.

ghost use Rattle.std.specs.Prelude.{◌≡◌, ◌≤◌, ◌+◌, ◌++◌, ◌∷◌, [], List, map, length, None, IfOk, IfErr, OnOk, IsOk, IsTrue};
ghost use Rattle.wasm_tree.specs.declared.module.Export as tree;
ghost use Rattle.std.specs.List.{list_all};
ghost use Rattle.index_remap.specs.Renumbered.{fits_export, new_export};
ghost use Rattle.merge_names.specs.Given.{texts};
ghost use Rattle.merge_names.specs.Names as chosen;
ghost use Rattle.merge_spec.specs.Parts.{named_modules};
ghost use Rattle.merge_spec.specs.Merged.{all_exports, export_names, named_exports};
ghost use Rattle.merge_spec.specs.Joined.{repeated_name};
ghost use Rattle.merge_join.specs.Repeats.{IsRepeatOf};
ghost use Rattle.merge_join.specs.LinkedParts.{HaveTheirMaps};

use crate::linked::module_of;
use crate::mapped_parts::MappedParts;
use index_remap::{Remap, renumber_export_desc};
use merge_names::{Mode, NameFault, choose_names};
use merge_spec::{JoinFault, Part};
use std::alloc::Global;
use wasm_bytes::{Items, Name, NoMemory};
use wasm_tree::Export;

fn add_names<'a>(names: &mut Vec<&'a str>, exports: &'a [Export]) -> Result<(), NoMemory>
    ensures { OnOk result (texts names.new.items ≡ texts names.old.items ++ map (λ e. e.name) exports.now) }
{
    for export in exports {
        names.push(export.name.as_str())?;
    }
    Ok(())
}

// Returns the names of all exports, part by part, in order.
fn all_names<'a>(alloc: Global, parts: &'a [Part]) -> Result<Vec<&'a str>, NoMemory>
    ensures { IfOk result (λ names. texts names.items ≡ export_names (named_modules parts.now)) }
{
    let mut names = Vec::new(alloc);
    for part in 0..parts.len() {
        add_names(&mut names, module_of(parts, part).exports.as_slice())?;
    }
    Ok(names)
}

/// Returns the new name of each export, or `None` for one that is dropped. Fails with
/// `ExportConflict` if the mode allows no repeated name and there is one; the fault has the first
/// name that repeats an earlier one.
pub(crate) fn new_names(
    alloc: Global,
    parts: &[Part],
    mode: Mode,
) -> Result<Items<Option<Name>>, JoinFault>
    ensures names { IfOk result (λ names. names ≡ chosen.new_names mode (export_names (named_modules parts.now))) }
    ensures many { IfOk result (λ names. length names ≡ length (all_exports (named_modules parts.now))) }
    ensures none { IsOk result → repeated_name (named_modules parts.now) mode ≡ None }
    ensures repeated { IfErr result (λ e. IsRepeatOf e (repeated_name (named_modules parts.now) mode)) }
{
    let names = all_names(alloc, parts)?;
    match choose_names(alloc, names.as_slice(), mode) {
        Ok(news) => Ok(news),
        Err(NameFault::Conflict { place }) => {
            let name = Name::from_text(alloc, names[place])?;
            Err(JoinFault::ExportConflict { name })
        }
        Err(NameFault::NoMemory) => Err(JoinFault::NoMemory),
    }
}

// Appends an export under its new name, if it has one.
fn add_export(
    alloc: Global,
    all: &mut Items<Export>,
    export: &Export,
    name: &Option<Name>,
    map: &Remap,
) -> Result<(), NoMemory>
    requires { IsTrue (fits_export map.now export.now) }
    ensures { OnOk result (all.new ≡ all.old ++ named_exports (new_export map.now export.now ∷ []) (name.now ∷ [])) }
{
    match name {
        Some(name) => all.keep(Export {
            name: name.copy(alloc)?,
            desc: renumber_export_desc(export.desc, map),
        }),
        None => Ok(()),
    }
}

// Appends those exports of one part that have a new name. Their names are in `names` from `first`
// on.
fn add_exports(
    alloc: Global,
    all: &mut Items<Export>,
    exports: &[Export],
    names: &[Option<Name>],
    first: usize,
    entries: &Remap,
) -> Result<(), NoMemory>
    requires named { first + length exports.now ≤ length names.now }
    requires fits { IsTrue (list_all (fits_export entries.now) exports.now) }
    ensures { OnOk result ((before : List tree.Export) → length before ≡ first → all.old ≡ named_exports before names.now → all.new ≡
        named_exports (before ++ map (new_export entries.now) exports.now) names.now) }
{
    for at in 0..exports.len() {
        add_export(alloc, all, &exports[at], &names[first + at], entries)?;
    }
    Ok(())
}

/// Returns the exports that have a new name, with their new indices, part by part, in order.
pub(crate) fn merged_exports(
    alloc: Global,
    joining: &MappedParts<'_>,
    names: &[Option<Name>],
) -> Result<Items<Export>, NoMemory>
    requires joined { HaveTheirMaps joining.now }
    requires named { length names.now ≡ length (all_exports (named_modules joining.now.parts.now)) }
    ensures { IfOk result (λ exports. exports ≡ named_exports (all_exports (named_modules joining.now.parts.now)) names.now) }
{
    let mut all = Items::new(alloc);
    let mut first = 0;
    for part in 0..joining.parts.len() {
        let exports = module_of(joining.parts, part).exports.as_slice();
        add_exports(alloc, &mut all, exports, names, first, joining.map(part))?;
        first += exports.len();
    }
    Ok(all)
}
