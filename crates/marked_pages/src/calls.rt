ghost use Rattle.std.specs.Prelude.{◌≡◌, ◌%◌, ◌^◌, ◌<◌, ◌≤◌, IfOk, None};
ghost use Rattle.block_pool.specs.Blocks.{used};
ghost use Rattle.block_pool.specs.Pages.{size};

use block_pool::{Full, Paged, Pool};
use std::alloc::Global;
use wasm_bytes::NoMemory;

/// The size of the memory: 64 MiB.
pub(crate) const SIZE: u64 = 67_108_864;

/// The most blocks that may be written: all.
pub(crate) const MOST: u32 = 16_384;

/// A call that is repeated.
#[derive(Clone, Copy)]
pub(crate) enum Call {
    /// No call, to measure the loop alone.
    Nothing,
    /// A load of eight bytes from one of eight blocks that were written.
    Load,
    /// A store of eight bytes to one of eight blocks.
    Store,
    /// A store of eight bytes, each time to the next block.
    StoreOn,
    /// A fill of 65,536 bytes.
    Fill,
    /// A fill of 16 bytes.
    FillSmall,
    /// A copy of 65,536 bytes.
    Copy,
    /// A copy of 16 bytes.
    CopySmall,
    /// A search for a nonzero byte in the whole memory, which was never written.
    NextNonzero,
    /// `COUNT` stores, each to the next block, a mark, and the same stores again.
    Mark,
    /// The same, and then a rollback.
    Rollback,
    /// The same, and then a commit.
    Commit,
}

impl Call {
    pub(crate) fn named(word: &str) -> Option<Call> {
        match word {
            "nothing" => Some(Call::Nothing),
            "load" => Some(Call::Load),
            "store" => Some(Call::Store),
            "store_on" => Some(Call::StoreOn),
            "fill" => Some(Call::Fill),
            "fill_small" => Some(Call::FillSmall),
            "copy" => Some(Call::Copy),
            "copy_small" => Some(Call::CopySmall),
            "next_nonzero" => Some(Call::NextNonzero),
            "mark" => Some(Call::Mark),
            "rollback" => Some(Call::Rollback),
            "commit" => Some(Call::Commit),
            _ => None,
        }
    }
}

fn pool(alloc: Global, count: usize) -> Result<Pool, NoMemory>
    ensures spare { IfOk result (λ p. p.spare ≡ count) }
    ensures unused { IfOk result (λ p. used p ≡ 0) }
{
    let mut pool = Pool::new(alloc);
    pool.reserve(count)?;
    Ok(pool)
}

fn memory(alloc: Global, bytes: u64, most: u32) -> Result<Paged, NoMemory>
    requires { bytes ≤ 2 ^ 32 }
    ensures size { IfOk result (λ p. size p ≡ bytes) }
    ensures mark { IfOk result (λ p. p.mark ≡ None) }
{
    let pool = pool(alloc, 2 * most as usize)?;
    Paged::new(alloc, pool, bytes, most)
}

// Loads, stores, fills and copies are in functions that are not inlined, as in a large program.
#[inline(never)]
fn load(memory: &Paged, turn: u64) -> u64
    requires { size memory.now ≡ SIZE }
{
    memory.load(turn % 4096 * 8, 8)
}

#[inline(never)]
fn store(memory: &mut Paged, at: u64, value: u64) -> Result<u64, Full>
    requires size { size memory.old ≡ SIZE }
    requires aligned { at % 8 ≡ 0 }
    requires inside { at < SIZE }
    ensures size { size memory.new ≡ SIZE }
    ensures mark { memory.new.mark ≡ memory.old.mark }
{
    memory.store(at, 8, value)?;
    Ok(0)
}

#[inline(never)]
fn fill(memory: &mut Paged, count: u64) -> Result<u64, Full>
    requires size { size memory.old ≡ SIZE }
    requires count { count ≤ 65536 }
    ensures size { size memory.new ≡ SIZE }
    ensures mark { memory.new.mark ≡ memory.old.mark }
{
    memory.fill(100, 7, count)?;
    Ok(0)
}

#[inline(never)]
fn copy(memory: &mut Paged, count: u64) -> Result<u64, Full>
    requires size { size memory.old ≡ SIZE }
    requires count { count ≤ 65536 }
    ensures size { size memory.new ≡ SIZE }
    ensures mark { memory.new.mark ≡ memory.old.mark }
{
    memory.copy(100_000, 100, count)?;
    Ok(0)
}

fn once(memory: &mut Paged, call: Call, turn: u64) -> Result<u64, Full>
    requires { size memory.old ≡ SIZE }
    ensures size { size memory.new ≡ SIZE }
    ensures mark { memory.new.mark ≡ memory.old.mark }
{
    match call {
        Call::Nothing => Ok(turn),
        Call::Load => Ok(load(memory, turn)),
        Call::Store => store(memory, turn % 4096 * 8, turn),
        Call::StoreOn | Call::Mark | Call::Rollback | Call::Commit => store(
            memory,
            turn % 16384 * 4096,
            turn,
        ),
        Call::Fill => fill(memory, 65536),
        Call::FillSmall => fill(memory, 16),
        Call::Copy => copy(memory, 65536),
        Call::CopySmall => copy(memory, 16),
        Call::NextNonzero => Ok(memory.next_nonzero(0).unwrap_or(SIZE)),
    }
}

fn repeat(memory: &mut Paged, call: Call, count: u64) -> Result<u64, Full>
    requires { size memory.old ≡ SIZE }
    ensures size { size memory.new ≡ SIZE }
    ensures mark { memory.new.mark ≡ memory.old.mark }
{
    let mut told = 0;
    for turn in 0..count {
        told ^= once(memory, call, turn)?;
    }
    Ok(told)
}

// Makes the calls and returns their combined results or, after a mark, how many blocks are held.
// Returns `None` if memory or room runs out.
pub(crate) fn answer(alloc: Global, call: Call, count: u64) -> Option<u64> {
    let mut memory = memory(alloc, SIZE, MOST).ok()?;
    if matches!(call, Call::Load) {
        fill(&mut memory, 65536).ok()?;
    }
    let told = repeat(&mut memory, call, count).ok()?;
    if !matches!(call, Call::Mark | Call::Rollback | Call::Commit) {
        return Some(told);
    }
    memory.mark();
    repeat(&mut memory, call, count).ok()?;
    match call {
        Call::Rollback => memory.rollback(),
        Call::Commit => memory.commit(),
        _ => {}
    }
    Some(u64::from(memory.blocks_held()))
}
