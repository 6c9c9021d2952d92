// Writes to the memory that a module defines (WebAssembly Core 2.0, section 4.4.7).

ghost use Rattle.std.specs.Prelude.{◌≡◌, ◌-◌, ◌+◌, ◌/◌, ◌≤◌, length, replicate};
ghost use Rattle.block_pool.specs.Pages.{IsWidth, little_bytes, part, size};
ghost use Rattle.eval_spec.specs.State.{first_held};
ghost use Rattle.eval_machine.specs.UnchangedParts.{PagesStay};
ghost use Rattle.eval_machine.specs.Written.{HoldsMost, Wrote, bounds_tests, told_of, write_tests};

use block_pool::Paged;
use eval_spec::Stop;

// Spends the turns that writing `count` bytes takes, if they are in bounds and enough turns are
// left.
fn spend(paged: &Paged, turns: &mut u32, place: u32, count: u32) -> Option<Stop>
    ensures { (result, turns.new) ≡ told_of (first_held (bounds_tests turns.old (size paged.now) place count)) (turns.old - count / 64) }
{
    if u64::from(place) + u64::from(count) > paged.size() {
        return Some(Stop::Trap);
    }
    let further = count / 64;
    if *turns < further {
        return Some(Stop::Steps);
    }
    *turns -= further;
    None
}

/// Executes `memory.fill`: writes `byte` to `count` bytes from `place` on.
#[tactic(auto, using(crate::proofs::PreservedParts::pages_stay, crate::proofs::PreservedParts::writes_stay, crate::proofs::WrittenBlocks::told_memory))]
pub(crate) fn fill(
    paged: &mut Paged,
    turns: &mut u32,
    place: u32,
    byte: u8,
    count: u32,
) -> Option<Stop>
    requires most { HoldsMost paged.old }
    ensures stays { PagesStay paged.old paged.new }
    ensures told { (result, turns.new) ≡ told_of (first_held (write_tests turns.old paged.old place count)) (turns.old - count / 64) }
    ensures wrote { Wrote result paged.old paged.new place (replicate count byte) }
{
    if let Some(stop) = spend(paged, turns, place, count) {
        return Some(stop);
    }
    match paged.fill(u64::from(place), byte, u64::from(count)) {
        Ok(()) => None,
        Err(_) => Some(Stop::Memory),
    }
}

/// Executes `memory.copy`: copies `count` bytes from `from` to `place`. The source must be in
/// bounds.
#[tactic(auto, using(crate::proofs::PreservedParts::pages_stay, crate::proofs::PreservedParts::writes_stay, crate::proofs::WrittenBlocks::told_memory))]
pub(crate) fn copy(
    paged: &mut Paged,
    turns: &mut u32,
    place: u32,
    from: u32,
    count: u32,
) -> Option<Stop>
    requires most { HoldsMost paged.old }
    requires source { from + count ≤ size paged.old }
    ensures stays { PagesStay paged.old paged.new }
    ensures told { (result, turns.new) ≡ told_of (first_held (write_tests turns.old paged.old place count)) (turns.old - count / 64) }
    ensures wrote { Wrote result paged.old paged.new place (part paged.old.now.bytes from count) }
{
    if let Some(stop) = spend(paged, turns, place, count) {
        return Some(stop);
    }
    match paged.copy(u64::from(place), u64::from(from), u64::from(count)) {
        Ok(()) => None,
        Err(_) => Some(Stop::Memory),
    }
}

/// Executes `memory.init`: writes these bytes of a segment from `place` on.
#[tactic(auto, using(crate::proofs::PreservedParts::pages_stay, crate::proofs::PreservedParts::writes_stay, crate::proofs::WrittenBlocks::told_memory))]
pub(crate) fn init(paged: &mut Paged, turns: &mut u32, place: u32, bytes: &[u8]) -> Option<Stop>
    requires most { HoldsMost paged.old }
    requires few { length bytes.now ≤ 4294967295 }
    ensures stays { PagesStay paged.old paged.new }
    ensures told { (result, turns.new) ≡ told_of (first_held (write_tests turns.old paged.old place (length bytes.now))) (turns.old - length bytes.now / 64) }
    ensures wrote { Wrote result paged.old paged.new place bytes.now }
{
    if let Some(stop) = spend(paged, turns, place, bytes.len() as u32) {
        return Some(stop);
    }
    match paged.write(u64::from(place), bytes) {
        Ok(()) => None,
        Err(_) => Some(Stop::Memory),
    }
}

/// Stores the `width` lowest bytes of a number at `place`; this takes no turns.
#[tactic(auto, using(crate::proofs::PreservedParts::pages_stay, crate::proofs::PreservedParts::writes_stay, crate::proofs::WrittenBlocks::told_store))]
pub(crate) fn store(
    paged: &mut Paged,
    turns: u32,
    place: u64,
    width: u32,
    value: u64,
) -> Option<Stop>
    requires width { IsWidth width }
    requires most { HoldsMost paged.old }
    requires near { place ≤ 8589934590 }
    ensures stays { PagesStay paged.old paged.new }
    ensures told { (result, turns) ≡ told_of (first_held (write_tests turns paged.old place width)) turns }
    ensures wrote { Wrote result paged.old paged.new place (little_bytes width value) }
{
    if place + u64::from(width) > paged.size() {
        return Some(Stop::Trap);
    }
    match paged.store(place, width, value) {
        Ok(()) => None,
        Err(_) => Some(Stop::Memory),
    }
}
