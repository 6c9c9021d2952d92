// Paths that end with something, or lead nowhere.

ghost use Rattle.base_paths.specs.Paths.{AreThere};
ghost use Rattle.base_paths.specs.Steps.{AreEndings, AreNamed, next_place, ending_of};
ghost use Rattle.std.specs.Prelude.{IfOk, length, map, slice_get, ◌<◌, ◌^◌, ◌≡◌};
ghost use Rattle.std.specs.Option.{option_and_then};

use crate::stops::ends;
use std::alloc::{AllocError, Global};

/// A step from a place: on to another place, to what the path ends with, or nowhere.
#[derive(Clone, Copy, Drop)]
pub enum Step<E> {
    Leads(u32),
    Stops(E),
    Nowhere,
}

// The next place of each place, or `None` if the path stops there.
fn next_places<E: Copy>(alloc: Global, steps: &[Step<E>]) -> Result<Vec<Option<u32>>, AllocError>
    ensures { IfOk result (λ nexts. nexts.items ≡ map next_place steps.now) }
{
    let mut nexts = Vec::new(alloc);
    for step in steps {
        let next = match step {
            Step::Leads(place) => Some(*place),
            Step::Stops(_) => None,
            Step::Nowhere => None,
        };
        nexts.push(next)?;
    }
    Ok(nexts)
}

// What the path ends with at the place where it stops.
fn ending<E: Copy>(steps: &[Step<E>], stop: Option<u32>) -> Option<E>
    ensures { result ≡ option_and_then (λ n. option_and_then ending_of (slice_get steps.now n)) stop }
{
    match stop {
        None => None,
        Some(place) => match steps.get(place as usize) {
            None => None,
            Some(Step::Leads(_)) => None,
            Some(Step::Nowhere) => None,
            Some(Step::Stops(end)) => Some(*end),
        },
    }
}

/// Returns for each place what the path from it ends with, or `None` if the path never ends or
/// leads nowhere. Each `Leads` must name a place of the list, and there must be fewer than 2^32
/// places. The only error is running out of memory.
pub fn endings<E: Copy>(alloc: Global, steps: &[Step<E>]) -> Result<Vec<Option<E>>, AllocError>
    requires there { AreNamed steps.now }
    requires few { length steps.now < 2 ^ 32 }
    ensures { IfOk result (λ all. AreEndings steps.now all.items) }
{
    let nexts = next_places(alloc, steps)?;
    let stops = ends(alloc, &nexts)?;
    let mut all = Vec::new(alloc);
    for stop in &stops {
        all.push(ending(steps, *stop))?;
    }
    Ok(all)
}
