// The contents of a memory as active data segments. Blocks that were never written are not read.

ghost use Rattle.std.specs.Prelude.{◌≡◌, ◌+◌, ◌++◌, ◌<◌, ◌≤◌, ◌^◌, ◌-◌, length, IfOk, OnOk};
ghost use Rattle.block_pool.specs.Pages.{part, size};
ghost use Rattle.eval_snapshot_spec.specs.Contents as spec;
ghost use Rattle.eval_snapshot.specs.Scan.{IsStretch};

use block_pool::Paged;
use std::alloc::Global;
use wasm_bytes::{Items, NoMemory};
use wasm_tree::{ConstExpr, DataMode, DataSeg};

// Two nonzero bytes with only zero bytes between them are in different segments exactly if they are
// further apart than this.
const PARTING: u64 = 256;

// Returns the place of the last byte of the segment that begins at `first`.
fn stretch_end(paged: &Paged, first: u64) -> u64
    requires inside { first < size paged.now }
    requires small { size paged.now ≤ 2 ^ 32 }
    ensures { IsStretch paged.now.now.bytes first result }
{
    let mut last = first;
    while let Some(next) = paged.next_nonzero(last + 1) {
        if next - last > PARTING {
            return last;
        }
        last = next;
    }
    last
}

fn bytes_at(alloc: Global, paged: &Paged, first: u64, count: u64) -> Result<Items<u8>, NoMemory>
    requires inside { first + count ≤ size paged.now }
    requires small { size paged.now ≤ 2 ^ 32 }
    ensures { IfOk result (λ bytes. bytes ≡ part paged.now.now.bytes first count) }
{
    let mut bytes = Items::new(alloc);
    for at in 0..count {
        bytes.keep(paged.load(first + at, 1) as u8)?;
    }
    Ok(bytes)
}

#[tactic(auto, unfolding(wasm_num::specs::Operations::signed))]
fn segment(
    alloc: Global,
    paged: &Paged,
    memory: u32,
    first: u64,
    last: u64,
) -> Result<DataSeg, NoMemory>
    requires ordered { first ≤ last }
    requires inside { last < size paged.now }
    requires small { size paged.now ≤ 2 ^ 32 }
    ensures { IfOk result (λ d. d ≡ spec.stretch_segment memory paged.now.now.bytes (record { first = first; last = last })) }
{
    let bytes = bytes_at(alloc, paged, first, last + 1 - first)?;
    let offset = ConstExpr::I32((first as u32).cast_signed());
    Ok(DataSeg {
        mode: DataMode::Active { memory, offset },
        bytes,
    })
}

/// Appends the contents of the memory with index `memory`, as active segments in ascending order.
pub(crate) fn add_contents(
    alloc: Global,
    segments: &mut Items<DataSeg>,
    paged: &Paged,
    memory: u32,
) -> Result<(), NoMemory>
    requires small { size paged.now ≤ 2 ^ 32 }
    ensures { OnOk result (segments.new ≡ segments.old ++ spec.contents memory paged.now.now.bytes) }
{
    let mut from = 0;
    while let Some(first) = paged.next_nonzero(from) {
        let last = stretch_end(paged, first);
        segments.keep(segment(alloc, paged, memory, first, last)?)?;
        from = last + 1;
    }
    Ok(())
}
