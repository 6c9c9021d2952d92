// Constant expressions, which may read joined globals.

ghost use Rattle.std.specs.Prelude.{◌≡◌, ◌<◌, length, false, IfOk};
ghost use Rattle.wasm_tree.specs.declared.module.ConstExpr.TheVariants as const;
ghost use Rattle.merge_spec.specs.Parts.{named_modules};
ghost use Rattle.merge_spec.specs.Merged as merged;
ghost use Rattle.merge_join.specs.Moved.{AreValues, AreAllValues};
ghost use Rattle.merge_join.specs.Reads.{AreReads, HasType};
ghost use Rattle.merge_join.specs.LinkedParts.{HaveTheirMaps};

use crate::linked::{module_of, read_of};
use crate::mapped_parts::MappedParts;
use index_remap::renumber_const;
use merge_proof::maps_have_entries;
use merge_spec::Read;
use std::alloc::Global;
use wasm_bytes::{Items, NoMemory};
use wasm_tree::{ConstExpr, ImportDesc, Space};

/// Returns what is read through each global that the part imports, in order; `None` for a mutable
/// one.
pub(crate) fn reads_of(
    alloc: Global,
    joining: &MappedParts<'_>,
    part: usize,
) -> Result<Items<Option<Read>>, NoMemory>
    requires joined { HaveTheirMaps joining.now }
    requires there { part < length joining.now.parts.now }
    ensures { IfOk result (AreReads (named_modules joining.now.parts.now) part) }
{
    let mut reads = Items::new(alloc);
    let imports = module_of(joining.parts, part).imports.as_slice();
    for place in 0..imports.len() {
        if !imports[place].desc.is_in(Space::Globals) {
            continue;
        }
        reads.keep(read_of(joining.parts, joining.links, part, place))?;
    }
    Ok(reads)
}

// Returns what the merged module has in place of a constant expression that reads an imported
// global.
fn merged_read(
    global: u32,
    joining: &MappedParts<'_>,
    part: usize,
    reads: &[Option<Read>],
) -> ConstExpr
    requires joined { HaveTheirMaps joining.now }
    requires reads { AreReads (named_modules joining.now.parts.now) part reads.now }
    requires typed { HasType (named_modules joining.now.parts.now) part (const.Global global) }
    ensures { result ≡ merged.merged_const (named_modules joining.now.parts.now) part (const.Global global) }
{
    maps_have_entries();
    match reads[global as usize] {
        Some(read) => renumber_const(read.expr, joining.map(read.part as usize)),
        None => ConstExpr::Global(global),
    }
}

// Returns what replaces a global that the part imports: what is read through it. A mutable global
// stays as it is, because no constant expression names it.
fn value_of(
    global: u32,
    mutable: bool,
    joining: &MappedParts<'_>,
    part: usize,
    reads: &[Option<Read>],
) -> ConstExpr
    requires joined { HaveTheirMaps joining.now }
    requires reads { AreReads (named_modules joining.now.parts.now) part reads.now }
    requires typed { mutable ≡ false → HasType (named_modules joining.now.parts.now) part (const.Global global) }
    ensures { mutable ≡ false → result ≡ merged.merged_const (named_modules joining.now.parts.now) part (const.Global global) }
{
    if mutable {
        return ConstExpr::Global(global);
    }
    merged_read(global, joining, part, reads)
}

// Returns what replaces each global that the part imports.
fn values_of(
    alloc: Global,
    joining: &MappedParts<'_>,
    part: usize,
) -> Result<Items<ConstExpr>, NoMemory>
    requires joined { HaveTheirMaps joining.now }
    requires there { part < length joining.now.parts.now }
    ensures { IfOk result (AreValues (named_modules joining.now.parts.now) part) }
{
    let reads = reads_of(alloc, joining, part)?;
    let mut values = Items::new(alloc);
    let mut global = 0;
    for import in module_of(joining.parts, part).imports.as_slice() {
        if let ImportDesc::Global(ty) = import.desc {
            values.keep(value_of(global, ty.mutable, joining, part, reads.as_slice()))?;
            global += 1;
        }
    }
    Ok(values)
}

/// Returns, for each part, what replaces each global that it imports.
pub(crate) fn all_values(
    alloc: Global,
    joining: &MappedParts<'_>,
) -> Result<Items<Items<ConstExpr>>, NoMemory>
    requires { HaveTheirMaps joining.now }
    ensures { IfOk result (AreAllValues (named_modules joining.now.parts.now)) }
{
    let mut all = Items::new(alloc);
    for part in 0..joining.parts.len() {
        all.keep(values_of(alloc, joining, part)?)?;
    }
    Ok(all)
}
