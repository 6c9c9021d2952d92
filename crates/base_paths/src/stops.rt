ghost use Rattle.base_paths.specs.Paths.{AreEnds, AreThere, StayMarked, Marked, the_end};
ghost use Rattle.std.specs.Prelude.{IfOk, None, Some, length, slice_get, ℕ, ◌++◌, ◌<◌, ◌^◌, ◌≡◌, ◌∷◌, []};

use std::alloc::{AllocError, Global};

// Follows the path from `start` until it stops, meets a place that an earlier walk took, or meets
// itself. Returns its end. `marks` has for each place the number of the walk that took it, and
// `answers` the end that each walk found for all its places.
fn walk(
    steps: &[Option<u32>],
    marks: &mut Vec<Option<u32>>,
    answers: &Vec<Option<u32>>,
    start: u32,
) -> Option<u32>
    requires there { AreThere steps.now }
    requires sizes { length marks.old.items ≡ length steps.now }
    requires start { start < length steps.now }
    requires few { length answers.now.items < 2 ^ 32 }
    requires marked { Marked steps.now marks.old.items answers.now.items }
    ensures sizes { length marks.new.items ≡ length steps.now }
    ensures marked { Marked steps.now marks.new.items (answers.now.items ++ result ∷ []) }
    ensures taken { (w : ℕ) × (slice_get marks.new.items start ≡ Some (Some w)) }
    ensures keeps { StayMarked marks.old.items marks.new.items }
{
    let number = answers.len() as u32;
    let mut at = start;
    'walk: while marks[at as usize].is_none() {
        marks[at as usize] = Some(number);
        match steps[at as usize] {
            None => return Some(at),
            Some(next) => at = next,
        }
    }
    match marks[at as usize] {
        Some(walk) if walk < number => answers[walk as usize],
        _ => None,
    }
}

/// Returns for each place the end of the path from it: the place where it stops, or `None` if it
/// never ends.
///
/// `steps` has for each place the next place, which must be a place of the list, or `None` if the
/// path stops there. There must be fewer than 2^32 places. Each place is followed once, so the time
/// is linear. The only error is running out of memory.
pub fn ends(alloc: Global, steps: &[Option<u32>]) -> Result<Vec<Option<u32>>, AllocError>
    requires there { AreThere steps.now }
    requires few { length steps.now < 2 ^ 32 }
    ensures ends { IfOk result (λ ends. AreEnds steps.now ends.items) }
    ensures told { IfOk result (λ ends. (n : ℕ) → n < length steps.now → slice_get ends.items n ≡ Some (the_end steps.now n)) }
{
    let mut marks = vec![in alloc; None; steps.len()]?;
    let mut answers = Vec::new(alloc);
    for start in 0..steps.len() {
        let answer = walk(steps, &mut marks, &answers, start as u32);
        answers.push(answer)?;
    }
    let mut ends = Vec::new(alloc);
    for mark in &marks {
        let end = match mark {
            Some(walk) => answers[*walk as usize],
            None => None,
        };
        ends.push(end)?;
    }
    Ok(ends)
}
