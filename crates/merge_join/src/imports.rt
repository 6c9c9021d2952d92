ghost use Rattle.std.specs.Prelude.{◌≡◌, ◌<◌, ◌++◌, length, true, IfOk, OnOk, IsTrue, Some};
ghost use Rattle.std.specs.List.{filter, filter_map};
ghost use Rattle.wasm_tree.specs.declared.module.Module.{Module};
ghost use Rattle.wasm_meaning.specs.Linking.{module_at, sites_in};
ghost use Rattle.index_remap.specs.Renumbered.{fits_import_desc};
ghost use Rattle.merge_spec.specs.Parts.{named_modules};
ghost use Rattle.merge_spec.specs.Faults as faults;
ghost use Rattle.merge_spec.specs.Merged as merged;
ghost use Rattle.merge_spec.specs.Merged.{staying};
ghost use Rattle.merge_join.specs.Kept.{kept_desc};
ghost use Rattle.merge_join.specs.LinkedParts.{HaveTheirMaps, IsSite, site};

use crate::linked::{limits_of, module_of, stays};
use crate::mapped_parts::MappedParts;
use index_remap::Remap;
use std::alloc::Global;
use wasm_bytes::{Items, NoMemory};
use wasm_tree::{Import, ImportDesc, Limits, TableType};

// Returns what a staying import asks for in the merged module: a function has the new index of its
// type, and a table or memory has the limits `kept`, if there are any.
fn merged_desc(desc: ImportDesc, map: &Remap, kept: Option<Limits>) -> ImportDesc
    requires fits { IsTrue (fits_import_desc map.now desc) }
    ensures { result ≡ kept_desc map.now kept desc }
{
    match desc {
        ImportDesc::Func(ty) => ImportDesc::Func(map.types.as_slice()[ty as usize]),
        ImportDesc::Table(ty) => ImportDesc::Table(TableType {
            ty: ty.ty,
            limits: kept.unwrap_or(ty.limits),
        }),
        ImportDesc::Memory(limits) => ImportDesc::Memory(kept.unwrap_or(limits)),
        ImportDesc::Global(ty) => ImportDesc::Global(ty),
    }
}

// Returns the staying import at a place, as the merged module has it.
fn merged_import(
    alloc: Global,
    joining: &MappedParts<'_>,
    part: usize,
    place: usize,
) -> Result<Import, NoMemory>
    requires joined { HaveTheirMaps joining.now }
    requires there { IsSite (named_modules joining.now.parts.now) part place }
    requires stays { faults.stays (named_modules joining.now.parts.now) (site part place) ≡ true }
    ensures { IfOk result (λ import. merged.merged_import (named_modules joining.now.parts.now) (site part place) ≡ Some import) }
{
    let import = &module_of(joining.parts, part).imports.as_slice()[place];
    let kept = limits_of(joining.parts, joining.links, part, place);
    Ok(Import {
        module: import.module.copy(alloc)?,
        field: import.field.copy(alloc)?,
        desc: merged_desc(import.desc, joining.map(part), kept),
    })
}

// Appends the staying imports of one part.
fn add_imports(
    alloc: Global,
    all: &mut Items<Import>,
    joining: &MappedParts<'_>,
    part: usize,
) -> Result<(), NoMemory>
    requires joined { HaveTheirMaps joining.now }
    requires there { part < length joining.now.parts.now }
    ensures { OnOk result ((m : Module) → module_at (named_modules joining.now.parts.now) part ≡ Some m → all.new ≡ all.old ++
        filter_map (merged.merged_import (named_modules joining.now.parts.now)) (filter (faults.stays (named_modules joining.now.parts.now)) (sites_in part (length m.imports) 0))) }
{
    for place in 0..module_of(joining.parts, part).imports.len() {
        if stays(joining.parts, joining.links, part, place) {
            all.keep(merged_import(alloc, joining, part, place)?)?;
        }
    }
    Ok(())
}

/// Returns the staying imports of all parts as the merged module has them, part by part, in order.
pub(crate) fn merged_imports(
    alloc: Global,
    joining: &MappedParts<'_>,
) -> Result<Items<Import>, NoMemory>
    requires joined { HaveTheirMaps joining.now }
    ensures { IfOk result (λ imports. imports ≡ filter_map (merged.merged_import (named_modules joining.now.parts.now)) (staying (named_modules joining.now.parts.now))) }
{
    let mut all = Items::new(alloc);
    for part in 0..joining.parts.len() {
        add_imports(alloc, &mut all, joining, part)?;
    }
    Ok(all)
}
