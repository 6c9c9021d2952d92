// Lists with one entry for each import of all parts, cut into one list for each part.

ghost use Rattle.std.specs.Prelude.{IfOk, drop, length, map, take, ◌+◌, ◌≤◌, ◌≡◌};
ghost use Rattle.merge_spec.specs.Linked.{end_entry};
ghost use Rattle.merge_spec.specs.Parts.{named_modules};
ghost use Rattle.wasm_meaning.specs.Linking as linking;
ghost use Rattle.merge_link.specs.Cutting.{cut_by, import_counts};
ghost use Rattle.merge_link.specs.PartTables.{the_end};

use crate::part_tables::Ending;
use merge_spec::{End, Part};
use std::alloc::Global;
use wasm_bytes::{Items, NoMemory};

// Returns an end as the links record it.
fn end_entry(end: Ending) -> End
    ensures { result ≡ end_entry (the_end end) }
{
    match end {
        Ending::Defined(entity) => End::Defined {
            part: entity.part,
            index: entity.what.index(),
        },
        Ending::Outside(site) => End::Outside {
            part: site.part,
            import: site.import,
        },
    }
}

/// Returns ends as the links record them.
pub fn end_entries(alloc: Global, ends: &[Ending]) -> Result<Vec<End>, NoMemory>
    ensures { IfOk result (λ entries. entries.items ≡ map (λ e. end_entry (the_end e)) ends.now) }
{
    let mut entries = Vec::new(alloc);
    for end in ends {
        entries.push(end_entry(*end))?;
    }
    Ok(entries)
}

// Returns `count` entries from place `from` on.
fn piece<T: Copy>(
    alloc: Global,
    flat: &[T],
    from: usize,
    count: usize,
) -> Result<Items<T>, NoMemory>
    requires { from + count ≤ length flat.now }
    ensures { IfOk result (λ piece. piece ≡ take count (drop from flat.now)) }
{
    Items::from_slice(alloc, &flat[from..from + count])
}

/// Cuts `flat` into one list for each part, with one entry for each of its imports.
pub fn cut<T: Copy + Drop>(
    alloc: Global,
    parts: &[Part],
    flat: &[T],
) -> Result<Items<Items<T>>, NoMemory>
    requires { length flat.now ≡ length (linking.sites (named_modules parts.now)) }
    ensures { IfOk result (λ lists. lists ≡ cut_by (import_counts parts.now) flat.now) }
{
    let mut lists = Items::new(alloc);
    let mut from = 0;
    for part in parts {
        let count = part.module.module().imports.len();
        lists.keep(piece(alloc, flat, from, count)?)?;
        from += count;
    }
    Ok(lists)
}
