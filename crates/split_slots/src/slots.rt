// Which functions move, and the slot of each.

ghost use Rattle.std.specs.Prelude.{◌≡◌, ◌<◌, ◌^◌, length, map, replicate, slice_index, slice_set, None, Some, IfOk};
ghost use Rattle.std.specs.List.Sorted.{IsStrictlyIncreasing};
ghost use Rattle.base_lists.specs.Every.{Every};
ghost use Rattle.base_lists.specs.Places.{numbers};
ghost use Rattle.split_spec.specs.SplitSlots as spec;
ghost use Rattle.split_slots.specs.SlotLookup.{slot_at};

use std::alloc::{AllocError, Global};

fn no_slots(alloc: Global, count: usize) -> Result<Vec<Option<u32>>, AllocError>
    ensures { IfOk result (λ slots. slots.items ≡ replicate count None) }
{
    vec![in alloc; None; count]
}

// Enters `slot` as the slot of the function `moved[slot]`.
fn put_slot(slots: &mut Vec<Option<u32>>, moved: &[u32], slot: usize)
    requires there { slot < length moved.now }
    requires few { slot < 2 ^ 32 }
    ensures { slots.new.items ≡ slice_set slots.old.items (slice_index moved.now slot) (Some slot) }
{
    if let Some(entry) = slots.get_mut(moved[slot] as usize) {
        *entry = Some(slot as u32);
    }
}

/// Returns for each of `count` functions its slot, or `None` if it does not move.
pub(crate) fn slots_of(
    alloc: Global,
    count: usize,
    moved: &[u32],
) -> Result<Vec<Option<u32>>, AllocError>
    requires ascend { IsStrictlyIncreasing moved.now }
    requires there { Every (λ func. func < count) moved.now }
    requires few { length moved.now < 2 ^ 32 }
    ensures { IfOk result (λ slots. slots.items ≡ map (spec.place_among moved.now) (numbers 0 count)) }
{
    let mut slots = no_slots(alloc, count)?;
    for slot in 0..moved.len() {
        put_slot(&mut slots, moved, slot);
    }
    Ok(slots)
}

/// Returns the slot of a function, or `None` if it does not move.
pub(crate) fn slot_at(slots: &[Option<u32>], func: u32) -> Option<u32>
    ensures { result ≡ slot_at slots.now func }
{
    slots.get(func as usize).copied().flatten()
}
