ghost use Rattle.std.specs.Prelude.{◌≡◌, ◌+◌, ◌++◌, ◌<◌, ◌≤◌, ◌^◌, length, IfOk, OnOk};
ghost use Rattle.base_lists.specs.Places as places;
ghost use Rattle.base_kept.specs.Kept as kept;

use std::alloc::Global;
use wasm_bytes::{Items, NoMemory};

/// Returns for each place how many marked places come before it: the new place of its element, if
/// it is kept. There must be fewer than 2^32 places. The only error is `NoMemory`.
pub fn new_places(alloc: Global, marks: &[bool]) -> Result<Items<u32>, NoMemory>
    requires { length marks.now < 2 ^ 32 }
    ensures { IfOk result (λ all. all ≡ kept.new_places marks.now) }
{
    let mut all = Items::new(alloc);
    let mut count = 0;
    for is_marked in marks {
        all.keep(count)?;
        if *is_marked {
            count += 1;
        }
    }
    Ok(all)
}

/// Appends `count` consecutive numbers, beginning with `first`; each must be below 2^32. After
/// `NoMemory` the list is not specified.
pub fn add_numbers(all: &mut Items<u32>, first: u32, count: usize) -> Result<(), NoMemory>
    requires { first + count ≤ 2 ^ 32 }
    ensures { OnOk result (all.new ≡ all.old ++ places.numbers first count) }
{
    for at in 0..count {
        all.keep(first + at as u32)?;
    }
    Ok(())
}
