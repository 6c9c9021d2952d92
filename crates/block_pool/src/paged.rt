ghost use Rattle.std.specs.Prelude.{◌≡◌, ◌≢◌, ◌+◌, ◌*◌, ◌^◌, ◌≤◌, ◌<◌, ◌↔◌, length, replicate, None, Some, IsNone, IsSome, IfOk, IfSome, IsErr, OnOk, OnErr};
ghost use Rattle.block_pool.specs.Blocks.{used};
ghost use Rattle.block_pool.specs.declared.table.Slot.TheVariants.{Absent};
ghost use Rattle.block_pool.specs.Pages.{IsWidth, IsNextNonzero, IsZeroFrom, WritesBytes, RollsBack, Commits, Passes, blank, part, little, little_bytes, size, written_count};

use crate::pool::Pool;
use crate::table::{Slot, Table};
use std::alloc::Global;
use std::marker::Model;
use wasm_bytes::NoMemory;

/// The error of a write after which more blocks would be written than `new` allowed (`most`). The
/// write changes nothing.
#[derive(Clone, Copy, Debug, PartialEq, Eq)]
pub struct Full;

/// A memory of bytes over a pool of blocks of 4,096 bytes. A block is taken from the pool when that
/// part of the memory is first written, and what was written since a mark can be taken back.
///
/// Contracts see its bytes, which blocks were written, and both as they were at the mark. Only
/// `new` allocates memory.
#[derive(Drop)]
pub struct Paged {
    table: Table,
}

impl Model for Paged {
    ghost use Rattle.block_pool.specs.Pages.{Pages};
    ghost use Rattle.block_pool.specs.Table.{pages_of, IsSound};

    ghost Value = { Pages };

    ghost view = { λ p. pages_of p.table };

    ghost invariant = { λ p. IsSound p.table };
}

// Allocates one slot for each block of the memory.
fn slots(alloc: Global, count: usize) -> Result<Vec<Slot>, NoMemory>
    ensures { IfOk result (λ slots. slots.items ≡ replicate count Absent) }
{
    match vec![in alloc; Slot::Absent; count] {
        Ok(slots) => Ok(slots),
        Err(_) => Err(NoMemory),
    }
}

impl Paged {
    /// Returns a memory of `size` zero bytes, of which at most `most` blocks may be written. `size`
    /// must be at most 2^32. The pool must have no live block, and two spare blocks for each that
    /// may be written; one of the two keeps the bytes of the mark. The error is `NoMemory`, if
    /// memory runs out or a block of the pool may have a number of 2^32 or more; the pool is
    /// dropped then.
    ///
    /// Besides the pool, the memory takes 12 bytes for each of its blocks and 4 for each block that
    /// may be written.
    pub fn new(alloc: Global, pool: Pool, size: u64, most: u32) -> Result<Paged, NoMemory>
        requires size { size ≤ 2 ^ 32 }
        requires room { 2 * most ≤ pool.spare }
        requires unused { used pool ≡ 0 }
        ensures { IfOk result (λ p. p ≡ record { now = blank size; mark = None; most = most; blocks = pool.spare; held = 0 }) }
    {
        let size = size as usize;
        if pool.numbers() > 0x1_0000_0000 {
            return Err(NoMemory);
        }
        let slots = slots(alloc, (size + 4095) / 4096)?;
        match Vec::with_capacity(alloc, most as usize) {
            Ok(changed) => Ok(Paged {
                table: Table {
                    pool,
                    slots,
                    changed,
                    written: 0,
                    most,
                    size,
                    marked: false,
                },
            }),
            Err(_) => Err(NoMemory),
        }
    }

    /// Returns the number of bytes.
    pub fn size(&self) -> u64
        ensures { result ≡ size self.now }
    {
        self.table.size as u64
    }

    /// Returns the number that the `width` bytes from `at` on encode in little-endian order
    /// (WebAssembly Core 2.0, section 4.4.7). `width` must be 1, 2, 4 or 8, and the bytes must be
    /// inside the memory.
    pub fn load(&self, at: u64, width: u32) -> u64
        requires width { IsWidth width }
        requires inside { at + width ≤ size self.now }
        ensures value { result ≡ little (part self.now.now.bytes at width) }
        ensures small { result < 256 ^ width }
    {
        self.table.load(at as usize, width as usize)
    }

    /// Writes the `width` lowest bytes of `value` from `at` on, in little-endian order. `width`
    /// must be 1, 2, 4 or 8, and the range must be inside the memory. Returns `Full` exactly if
    /// more blocks would be written than may be; then nothing changes. A block that is written
    /// already does not count again.
    pub fn store(&mut self, at: u64, width: u32, value: u64) -> Result<(), Full>
        requires width { IsWidth width }
        requires inside { at + width ≤ size self.old }
        ensures ok { OnOk result (WritesBytes self.old self.new at (little_bytes width value)) }
        ensures full { IsErr result ↔ Passes self.old at width }
        ensures err { OnErr result (self.new ≡ self.old) }
    {
        let at = at as usize;
        let width = width as usize;
        if self.table.store_ready(at, width, value) {
            return Ok(());
        }
        if !self.table.store_anew(at, width, value) {
            return Err(Full);
        }
        Ok(())
    }

    /// Writes `byte` `count` times, from `at` on (memory.fill of Core 2.0, section 4.4.7). The
    /// range must be inside the memory. Returns `Full` as `store` does.
    pub fn fill(&mut self, at: u64, byte: u8, count: u64) -> Result<(), Full>
        requires inside { at + count ≤ size self.old }
        ensures ok { OnOk result (WritesBytes self.old self.new at (replicate count byte)) }
        ensures full { IsErr result ↔ Passes self.old at count }
        ensures err { OnErr result (self.new ≡ self.old) }
    {
        let at = at as usize;
        let count = count as usize;
        if !self.table.has_room(at, count) {
            return Err(Full);
        }
        self.table.fill(at, byte, count);
        Ok(())
    }

    /// Copies the `count` bytes from `from` on to `to` (memory.copy of Core 2.0, section 4.4.7).
    /// Both ranges must be inside the memory; they may overlap. Returns `Full` as `store` does.
    pub fn copy(&mut self, to: u64, from: u64, count: u64) -> Result<(), Full>
        requires inside { to + count ≤ size self.old }
        requires source { from + count ≤ size self.old }
        ensures ok { OnOk result (WritesBytes self.old self.new to (part self.old.now.bytes from count)) }
        ensures full { IsErr result ↔ Passes self.old to count }
        ensures err { OnErr result (self.new ≡ self.old) }
    {
        let to = to as usize;
        let from = from as usize;
        let count = count as usize;
        if !self.table.has_room(to, count) {
            return Err(Full);
        }
        self.table.copy(to, from, count);
        Ok(())
    }

    /// Writes `bytes` from `at` on (memory.init of Core 2.0, section 4.4.7). The range must be
    /// inside the memory. Returns `Full` as `store` does.
    pub fn write(&mut self, at: u64, bytes: &[u8]) -> Result<(), Full>
        requires inside { at + length bytes.now ≤ size self.old }
        ensures ok { OnOk result (WritesBytes self.old self.new at bytes.now) }
        ensures full { IsErr result ↔ Passes self.old at (length bytes.now) }
        ensures err { OnErr result (self.new ≡ self.old) }
    {
        let at = at as usize;
        if !self.table.has_room(at, bytes.len()) {
            return Err(Full);
        }
        self.table.put(at, bytes);
        Ok(())
    }

    /// Returns the place of the first nonzero byte at `from` or later; `None` exactly if there is
    /// none. Blocks that were never written are not read.
    pub fn next_nonzero(&self, from: u64) -> Option<u64>
        ensures some { IfSome result (λ at. IsNextNonzero self.now.now.bytes from at) }
        ensures none { IsNone result ↔ IsZeroFrom self.now.now.bytes from }
    {
        match self.table.next_nonzero(from as usize) {
            Some(at) => Some(at as u64),
            None => None,
        }
    }

    /// Sets a mark: what is written from then on can be taken back. There must be no mark yet.
    pub fn mark(&mut self)
        requires { IsNone self.old.mark }
        ensures { self.new ≡ record self.old { mark = Some self.old.now } }
    {
        self.table.marked = true;
    }

    /// Takes the memory back to the mark, which must be set: its bytes and its written blocks are
    /// again what they were then. The mark is cleared. The cost is proportional to the blocks that
    /// were written since the mark.
    pub fn rollback(&mut self)
        requires { IsSome self.old.mark }
        ensures { RollsBack self.old self.new }
    {
        self.table.rollback();
    }

    /// Gives up the mark, which must be set: it is cleared, and what was written since it stays.
    /// The cost is proportional to the blocks that were written since the mark.
    pub fn commit(&mut self)
        requires { IsSome self.old.mark }
        ensures { Commits self.old self.new }
    {
        self.table.commit();
    }

    /// Returns the number of blocks that were written.
    pub fn blocks_written(&self) -> u32
        ensures value { result ≡ written_count self.now.now }
        ensures most { result ≤ self.now.most }
    {
        self.table.written
    }

    /// Returns the number of used blocks of the pool; if a mark is set, they include those that
    /// keep its bytes.
    pub fn blocks_held(&self) -> u32
        ensures value { result ≡ self.now.held }
        ensures unmarked { IsNone self.now.mark → result ≡ written_count self.now.now }
        ensures most { result ≤ 2 * self.now.most }
    {
        self.table.pool.used() as u32
    }

    /// Returns the pool, with all its blocks given back.
    pub fn into_pool(self) -> Pool
        ensures used { used result ≡ 0 }
        ensures spare { result.spare ≡ self.blocks }
    {
        let Paged { table } = self;
        let Table {
            mut pool,
            slots: _,
            changed: _,
            written: _,
            most: _,
            size: _,
            marked: _,
        } = table;
        pool.give_all();
        pool
    }
}
