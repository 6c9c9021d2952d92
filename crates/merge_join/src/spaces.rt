// A merged index space: first the staying imports, then what the parts define, part by part.

ghost use Rattle.std.specs.Prelude.{◌≡◌, ◌+◌, ◌<◌, ◌^◌, ℕ, cond, length, map, Some, None, IfOk, OnOk};
ghost use Rattle.wasm_tree.specs.declared.module.Module.{Module as Tree};
ghost use Rattle.wasm_meaning.specs.Linking.{module_at, sites_in, places, has_kind};
ghost use Rattle.wasm_meaning.specs.World.{defined_before};
ghost use Rattle.merge_spec.specs.Parts.{named_modules};
ghost use Rattle.merge_spec.specs.declared.links.End.TheVariants.{Defined};
ghost use Rattle.merge_spec.specs.Linked.{AreLinks, by_import};
ghost use Rattle.merge_spec.specs.Merged as merged;
ghost use Rattle.merge_join.specs.LinkedParts.{site, place_at, each_part, IsSite, EndExists, PartsAreLinked};
ghost use Rattle.merge_join.specs.Spaces.{IsJoinedSpace, staying_place, imported_in, picked, count_before};

use crate::defined::defined_count;
use crate::linked::{module_of, stays};
use crate::numbers::number_at;
use merge_spec::{End, Links, Part};
use std::alloc::Global;
use wasm_bytes::{Items, NoMemory};
use wasm_meaning::definitions_are_counted_by_part;
use wasm_tree::{Import, Space};

/// A merged index space, with the places that the parts' imports and definitions have in it.
#[derive(Drop)]
pub(crate) struct MergedSpace<'a> {
    pub parts: &'a [Part],
    pub space: Space,
    /// For each import of each part its place, if it stays and belongs to this space.
    pub staying: Items<Items<Option<u32>>>,
    /// For each part the place of the first entry that it defines.
    pub firsts: Items<u32>,
    /// For each part how many entries it imports.
    pub imported: Items<u32>,
    /// The number of entries.
    pub count: u32,
    ghost few: { count < 2 ^ 32 },
    pub ghost is: { IsJoinedSpace (named_modules parts.now) space staying firsts imported count },
}

impl<'a> MergedSpace<'a> {
    // Returns the place of an import, if it stays and belongs to this space.
    fn staying_at(&self, part: usize, import: usize) -> Option<u32>
        requires { IsSite (named_modules self.now.parts.now) part import }
        ensures { result ≡ staying_place (named_modules self.now.parts.now) self.now.space (site part import) }
    {
        self.staying.as_slice()[part].as_slice()[import]
    }

    // Returns the place of an entry that a part defines, by its index in that part.
    fn defined_at(&self, part: usize, index: u32) -> u32
        requires { EndExists (named_modules self.now.parts.now) self.now.space (Defined part index) }
        ensures { result ≡ place_at (named_modules self.now.parts.now) self.now.space (Defined part index) }
    {
        definitions_are_counted_by_part();
        let imported = number_at(&self.imported, part);
        number_at(&self.firsts, part) + index.saturating_sub(imported)
    }

    /// Returns the place of an end.
    pub(crate) fn place_of_end(&self, end: End) -> u32
        requires { EndExists (named_modules self.now.parts.now) self.now.space end }
        ensures { result ≡ place_at (named_modules self.now.parts.now) self.now.space end }
    {
        match end {
            End::Outside { part, import } => self
                .staying_at(part as usize, import as usize)
                .unwrap_or(0),
            End::Defined { part, index } => self.defined_at(part as usize, index),
        }
    }
}

// Returns whether an import stays and belongs to `space`.
fn is_picked(parts: &[Part], links: &Links, part: usize, import: usize, space: Space) -> bool
    requires links { AreLinks (named_modules parts.now) links.now }
    requires there { IsSite (named_modules parts.now) part import }
    ensures { result ≡ picked (named_modules parts.now) space (site part import) }
{
    let imports = module_of(parts, part).imports.as_slice();
    stays(parts, links, part, import) && imports[import].desc.is_in(space)
}

// Returns the next place and counts it if `taken`; otherwise returns `None`.
fn next_place(count: &mut u32, taken: bool) -> Option<u32>
    requires { count.old + cond taken 1 0 < 2 ^ 32 }
    ensures place { result ≡ cond taken (Some count.old) None }
    ensures count { count.new ≡ count.old + cond taken 1 0 }
{
    if !taken {
        return None;
    }
    let place = *count;
    *count += 1;
    Some(place)
}

// Returns for each import of a part its place, if it stays and belongs to `space`. `count` is how
// many such imports come before; the call adds those of this part.
fn staying_in(
    alloc: Global,
    parts: &[Part],
    links: &Links,
    part: usize,
    space: Space,
    count: &mut u32,
) -> Result<Items<Option<u32>>, NoMemory>
    requires linked { PartsAreLinked parts.now links.now }
    requires there { part < length parts.now }
    requires count { count.old ≡ count_before (named_modules parts.now) space part 0 }
    ensures row { IfOk result (λ row. (m : Tree) → module_at (named_modules parts.now) part ≡ Some m → row ≡ map (staying_place (named_modules parts.now) space) (sites_in part (length m.imports) 0)) }
    ensures count { OnOk result (count.new ≡ count_before (named_modules parts.now) space (part + 1) 0) }
{
    let mut row = Items::new(alloc);
    for import in 0..module_of(parts, part).imports.len() {
        let taken = is_picked(parts, links, part, import, space);
        row.keep(next_place(count, taken))?;
    }
    Ok(row)
}

fn imported_count(imports: &[Import], space: Space) -> u32
    requires { length imports.now < 2 ^ 32 }
    ensures { result ≡ length (places (has_kind space) imports.now 0) }
{
    let mut count = 0;
    for import in imports {
        if import.desc.is_in(space) {
            count += 1;
        }
    }
    count
}

/// Computes the merged index space that `space` names.
pub(crate) fn space_of<'a>(
    alloc: Global,
    parts: &'a [Part],
    links: &Links,
    space: Space,
) -> Result<MergedSpace<'a>, NoMemory>
    requires { PartsAreLinked parts.now links.now }
    ensures parts { IfOk result (λ merged. merged.parts.now ≡ parts.now) }
    ensures space { IfOk result (λ merged. merged.space ≡ space) }
{
    let (staying, count) = all_staying(alloc, parts, links, space)?;
    let (firsts, count) = firsts_of(alloc, parts, space, count)?;
    let imported = imported_of(alloc, parts, space)?;
    Ok(MergedSpace {
        parts,
        space,
        staying,
        firsts,
        imported,
        count,
    })
}

// Returns for each import of each part its place, if it stays and belongs to `space`, and how many
// of them do.
fn all_staying(
    alloc: Global,
    parts: &[Part],
    links: &Links,
    space: Space,
) -> Result<(Items<Items<Option<u32>>>, u32), NoMemory>
    requires { PartsAreLinked parts.now links.now }
    ensures staying { IfOk result (λ r. r.0 ≡ by_import (staying_place (named_modules parts.now) space) (named_modules parts.now)) }
    ensures count { IfOk result (λ r. r.1 ≡ length (merged.staying_of (named_modules parts.now) space)) }
{
    let mut staying = Items::new(alloc);
    let mut count = 0;
    for part in 0..parts.len() {
        staying.keep(staying_in(alloc, parts, links, part, space, &mut count)?)?;
    }
    Ok((staying, count))
}

// Returns for each part the place of the first entry that it defines, if `staying` imports come
// before them all, and the number of all entries.
fn firsts_of(
    alloc: Global,
    parts: &[Part],
    space: Space,
    staying: u32,
) -> Result<(Items<u32>, u32), NoMemory>
    requires few { staying + defined_before space (named_modules parts.now) (length parts.now) < 2 ^ 32 }
    ensures firsts { IfOk result (λ r. r.0 ≡ each_part (λ p m. staying + defined_before space (named_modules parts.now) p) (named_modules parts.now)) }
    ensures count { IfOk result (λ r. r.1 ≡ staying + defined_before space (named_modules parts.now) (length parts.now)) }
{
    definitions_are_counted_by_part();
    let mut firsts = Items::new(alloc);
    let mut first = staying;
    for part in 0..parts.len() {
        firsts.keep(first)?;
        first += defined_count(space, module_of(parts, part)) as u32;
    }
    Ok((firsts, first))
}

fn imported_of(alloc: Global, parts: &[Part], space: Space) -> Result<Items<u32>, NoMemory>
    ensures { IfOk result (λ all. all ≡ each_part (imported_in (named_modules parts.now) space) (named_modules parts.now)) }
{
    let mut imported = Items::new(alloc);
    for part in 0..parts.len() {
        let imports = module_of(parts, part).imports.as_slice();
        imported.keep(imported_count(imports, space))?;
    }
    Ok(imported)
}
