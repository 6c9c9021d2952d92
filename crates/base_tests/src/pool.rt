ghost use Rattle.std.specs.Prelude.{◌≡◌, ◌≤◌, ◌*◌, ◌^◌, IfOk, None};
ghost use Rattle.block_pool.specs.Blocks.{used};
ghost use Rattle.block_pool.specs.Pages.{size};

use block_pool::{Full, Paged, Pool};
use std::test::Fail;
use wasm_bytes::NoMemory;

fn pool(rt: &HostRuntime, count: usize) -> Result<Pool, NoMemory>
    ensures spare { IfOk result (λ p. p.spare ≡ count) }
    ensures used { IfOk result (λ p. used p ≡ 0) }
{
    let mut pool = Pool::new(rt.alloc());
    pool.reserve(count)?;
    Ok(pool)
}

fn memory(rt: &HostRuntime, bytes: u64, most: u32) -> Result<Paged, NoMemory>
    requires { bytes ≤ 2 ^ 32 }
    ensures size { IfOk result (λ p. size p ≡ bytes) }
    ensures mark { IfOk result (λ p. p.mark ≡ None) }
{
    let pool = pool(rt, 2 * most as usize)?;
    Paged::new(rt.alloc(), pool, bytes, most)
}

// A block is zero when it is taken, also one that was given back, and it has what was written to it.
#[test]
fn a_taken_block_is_zero(rt: HostRuntime) -> Result<(), Fail> {
    let mut pool = pool(&rt, 2)?;
    let block = pool.take();
    pool.bytes_mut(&block)[4095] = 7;
    assert_eq!(rt; pool.bytes(&block)[4095], 7);
    assert_eq!(rt; (pool.used(), pool.spare()), (1, 1));
    pool.give(block);
    let again = pool.take();
    assert_eq!(rt; pool.bytes(&again)[4095], 0);
    Ok(())
}

// Numbers are little-endian, also across two blocks.
#[test]
fn a_number_is_loaded_as_it_was_stored(rt: HostRuntime) -> Result<(), Fail> {
    let mut memory = memory(&rt, 10_000, 3)?;
    memory.store(4094, 4, 0x0403_0201)?;
    assert_eq!(rt; memory.load(4095, 2), 0x0302);
    assert_eq!(rt; memory.load(4092, 8), 0x0000_0403_0201_0000);
    memory.store(8, 8, 0x1122_3344_5566_7788)?;
    assert_eq!(rt; memory.load(8, 8), 0x1122_3344_5566_7788);
    assert_eq!(rt; memory.load(8192, 1), 0);
    assert_eq!(rt; memory.size(), 10_000);
    assert_eq!(rt; (memory.blocks_written(), memory.blocks_held()), (2, 2));
    Ok(())
}

// The second of one block is refused, and the first can be written again.
#[test]
fn no_more_blocks_are_written_than_may_be(rt: HostRuntime) -> Result<(), Fail> {
    let mut memory = memory(&rt, 10_000, 1)?;
    memory.store(4088, 8, 1)?;
    memory.store(0, 1, 1)?;
    assert_eq!(rt; memory.store(4089, 8, 1), Err(Full));
    Ok(())
}

// The bytes of the mark come back, with the count of written blocks.
#[test]
fn what_was_written_since_the_mark_is_taken_back(rt: HostRuntime) -> Result<(), Fail> {
    let mut memory = memory(&rt, 20_000, 2)?;
    memory.store(4096, 1, 5)?;
    memory.mark();
    memory.store(4096, 1, 6)?;
    memory.fill(8192, 9, 100)?;
    assert_eq!(rt; (memory.blocks_written(), memory.blocks_held()), (2, 3));
    memory.rollback();
    assert_eq!(rt; (memory.load(4096, 1), memory.load(8192, 1)), (5, 0));
    assert_eq!(rt; (memory.blocks_written(), memory.blocks_held()), (1, 1));
    Ok(())
}

// A copy reads what was there before, whichever way it overlaps; what is kept stays, and the pool is whole again.
#[test]
fn what_is_kept_stays(rt: HostRuntime) -> Result<(), Fail> {
    let mut memory = memory(&rt, 10_000, 3)?;
    memory.write(4000, b"0123456789")?;
    memory.mark();
    memory.copy(4002, 4000, 10)?;
    memory.copy(3998, 4000, 4)?;
    memory.commit();
    assert_eq!(rt; memory.load(4002, 8), 0x3736_3534_3332_3130);
    assert_eq!(rt; memory.load(3998, 4), 0x3130_3130);
    assert_eq!(rt; memory.next_nonzero(0), Some(3998));
    assert_eq!(rt; memory.next_nonzero(4012), None);
    let pool = memory.into_pool();
    assert_eq!(rt; (pool.used(), pool.spare()), (0, 6));
    Ok(())
}
