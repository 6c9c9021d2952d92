// Where functions go in the primary module.

ghost use Rattle.std.specs.Prelude.{◌≡◌, ◌+◌, ◌++◌, ◌<◌, ◌≤◌, ◌^◌, ◌||◌, ℕ, drop, false, is_some, length, map, not, slice_get, unwrap_or, Some, IfOk, OnOk};
ghost use Rattle.base_lists.specs.Places.{numbers};
ghost use Rattle.base_kept.specs.Kept.{new_places};
ghost use Rattle.split_slots.specs.SlotLookup.{slot_at};

use crate::needed_trampolines::is_marked;
use crate::slots::slot_at;
use base_kept::{add_numbers, new_places};
use std::alloc::Global;
use wasm_bytes::{Items, NoMemory};

fn is_left(slots: &[Option<u32>], needed: &[bool], func: u32) -> bool
    ensures { result ≡ (not (is_some (slot_at slots.now func)) || unwrap_or (slice_get needed.now func) false) }
{
    slot_at(slots, func).is_none() || is_marked(needed, func)
}

/// Returns for each function whether the primary module has it or a trampoline in its place: it has
/// neither for a moved function that is not marked in `needed`.
#[tactic(auto, using(crate::proofs::TrampolineBodies::counted_more))]
pub(crate) fn left_marks(
    alloc: Global,
    slots: &[Option<u32>],
    needed: &[bool],
) -> Result<Items<bool>, NoMemory>
    requires few { length slots.now ≤ 2 ^ 32 }
    ensures { IfOk result (λ all. all ≡ map (λ func. not (is_some (slot_at slots.now func)) || unwrap_or (slice_get needed.now func) false) (numbers 0 (length slots.now))) }
{
    let mut all = Items::new(alloc);
    for func in 0..slots.len() {
        all.keep(is_left(slots, needed, func as u32))?;
    }
    Ok(all)
}

// Appends the places, each greater by `count`.
fn add_behind(all: &mut Items<u32>, places: &[u32], count: u32) -> Result<(), NoMemory>
    requires few { (i place : ℕ) → slice_get places.now i ≡ Some place → count + place < 2 ^ 32 }
    ensures { OnOk result (all.new ≡ all.old ++ map (λ place. count + place) places.now) }
{
    for place in places {
        all.keep(count + *place)?;
    }
    Ok(())
}

// The same for the places from index `from` on.
#[tactic(auto, using(crate::proofs::ShiftedPlaces::rest_is))]
fn add_behind_from(
    all: &mut Items<u32>,
    places: &[u32],
    from: usize,
    count: u32,
) -> Result<(), NoMemory>
    requires there { from ≤ length places.now }
    requires few { (i place : ℕ) → slice_get (drop from places.now) i ≡ Some place → count + place < 2 ^ 32 }
    ensures { OnOk result (all.new ≡ all.old ++ map (λ place. count + place) (drop from places.now)) }
{
    add_behind(all, &places[from..], count)
}

/// Returns the new index of each function, and then of each of the `count` placeholders, which come
/// between the imported and the defined functions. A function without a mark is left out of the
/// primary module.
pub(crate) fn primary_funcs_map(
    alloc: Global,
    imported: u32,
    marks: &[bool],
    count: u32,
) -> Result<Items<u32>, NoMemory>
    requires there { imported ≤ length marks.now }
    requires few { length marks.now + count < 2 ^ 32 }
    ensures { IfOk result (λ all. all ≡ numbers 0 imported ++ (map (λ place. count + place) (drop imported (new_places marks.now)) ++ numbers imported count)) }
{
    let places = new_places(alloc, marks)?;
    let mut all = Items::new(alloc);
    add_numbers(&mut all, 0, imported as usize)?;
    add_behind_from(&mut all, places.as_slice(), imported as usize, count)?;
    add_numbers(&mut all, imported, count as usize)?;
    Ok(all)
}
