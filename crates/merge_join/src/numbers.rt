ghost use Rattle.std.specs.Prelude.{◌≡◌, ◌+◌, ◌++◌, ◌<◌, ◌≤◌, ◌^◌, length, slice_index, OnOk};
ghost use Rattle.wasm_meaning.specs.World as world;

use wasm_bytes::{Items, NoMemory};

pub(crate) fn number_at(all: &Items<u32>, at: usize) -> u32
    requires { at < length all.now }
    ensures { result ≡ slice_index all.now at }
{
    all.as_slice()[at]
}

/// Appends `count` consecutive numbers from `first` on.
pub(crate) fn add_numbers(all: &mut Items<u32>, first: u32, count: usize) -> Result<(), NoMemory>
    requires { first + count ≤ 2 ^ 32 }
    ensures { OnOk result (all.new ≡ all.old ++ world.numbers first count) }
{
    for at in 0..count {
        all.keep(first + at as u32)?;
    }
    Ok(())
}
