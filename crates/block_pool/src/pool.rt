ghost use Rattle.std.specs.Prelude.{◌≡◌, ◌+◌, ◌<◌, ◌≤◌, [], length, max, replicate, None, Some, OnOk, OnErr};
ghost use Rattle.std.specs.Borrow.{sem};
ghost use Rattle.block_pool.specs.Pages.{IsWidth, little_bytes};
ghost use Rattle.block_pool.specs.Blocks.{held, IsLive, used, zeros, Changes, WritesPart};

use std::alloc::Global;
use std::marker::Model;
use wasm_bytes::NoMemory;

/// The number of bytes of a block.
pub const BLOCK_BYTES: usize = 4096;

/// A block of a pool, identified by its number.
#[derive(Clone, Copy)]
pub struct BlockId {
    pub(crate) number: usize,
}

/// A pool of blocks of 4,096 bytes. A block is live from `take` to `give`. Contracts see the bytes
/// of each live block, and how many blocks are spare.
#[derive(Drop)]
pub struct Pool {
    // The bytes of each block that was ever taken.
    blocks: Vec<[u8; 4096]>,
    // Whether each of these is live.
    live: Vec<bool>,
    // The numbers of those that are not.
    free: Vec<usize>,
    // The number of blocks that were reserved: the live and the spare ones.
    room: usize,
}

impl Model for Pool {
    ghost use Rattle.std.specs.Prelude.{◌-◌, ◌≤◌, length, vec_capacity};
    ghost use Rattle.block_pool.specs.Blocks.{Blocks};
    ghost use Rattle.block_pool.specs.Kept.{FreeBlocksAreListed, live_blocks};

    ghost Value = { Blocks };

    ghost view = { λ p. record {
      slots = live_blocks p.live.items p.blocks.items;
      spare = p.room - (length p.blocks.items - length p.free.items);
      numbers = p.room;
    } };

    ghost invariant = { λ p. (FreeBlocksAreListed p.live.items p.blocks.items p.free.items) ×
        ((length p.blocks.items ≤ p.room) × ((p.room ≤ vec_capacity p.blocks) × ((p.room ≤ vec_capacity p.live) × (p.room ≤ vec_capacity p.free)))) };
}

impl Pool {
    ghost use Rattle.block_pool.specs.Lending.{LendsBlock};

    /// Returns a pool without blocks. It takes no memory.
    pub fn new(alloc: Global) -> Pool
        ensures none_live { result.slots ≡ [] }
        ensures none_spare { result.spare ≡ 0 }
        ensures numbers { result.numbers ≡ 0 }
    {
        Pool {
            blocks: Vec::new(alloc),
            live: Vec::new(alloc),
            free: Vec::new(alloc),
            room: 0,
        }
    }

    /// Reserves memory until at least `count` blocks are spare, without touching it. If memory runs
    /// out, the pool is as it was.
    pub fn reserve(&mut self, count: usize) -> Result<(), NoMemory>
        ensures slots { self.new.slots ≡ self.old.slots }
        ensures ok { OnOk result (self.new.spare ≡ max self.old.spare count) }
        ensures err { OnErr result (self.new ≡ self.old) }
        ensures numbers { self.old.numbers ≤ self.new.numbers }
    {
        if count <= self.spare() {
            return Ok(());
        }
        let more = count - self.free.len();
        self.blocks.reserve_exact(more)?;
        self.live.reserve_exact(more)?;
        let room = self.blocks.len() + more;
        self.free.reserve_exact(room - self.free.len())?;
        self.room = room;
        Ok(())
    }

    // Takes a spare block and fills it with these bytes.
    #[inline(always)]
    fn put(&mut self, bytes: [u8; 4096]) -> BlockId
        requires { 0 < self.old.spare }
        ensures fresh { held self.old result.number ≡ None }
        ensures bytes { Changes self.old self.new result.number (Some bytes) }
        ensures used { used self.new ≡ used self.old + 1 }
        ensures spare { self.new.spare + 1 ≡ self.old.spare }
        ensures numbers { self.new.numbers ≡ self.old.numbers }
        ensures below { result.number < self.new.numbers }
    {
        if let Some(number) = self.free.pop() {
            self.blocks[number] = bytes;
            self.live[number] = true;
            return BlockId { number };
        }
        let number = self.blocks.len();
        self.blocks.push_reserved(bytes);
        self.live.push_reserved(true);
        BlockId { number }
    }

    /// Takes a spare block, of which there must be one (`reserve`), and fills it with zero bytes.
    /// It allocates no memory.
    pub fn take(&mut self) -> BlockId
        requires { 0 < self.old.spare }
        ensures fresh { held self.old result.number ≡ None }
        ensures zero { Changes self.old self.new result.number (Some zeros) }
        ensures used { used self.new ≡ used self.old + 1 }
        ensures spare { self.new.spare + 1 ≡ self.old.spare }
        ensures numbers { self.new.numbers ≡ self.old.numbers }
        ensures below { result.number < self.new.numbers }
    {
        self.put([0; 4096])
    }

    /// Takes a spare block and fills it with the bytes of a live one.
    pub(crate) fn copy_of(&mut self, block: &BlockId) -> BlockId
        requires live { IsLive self.old block.now.number }
        requires spare { 0 < self.old.spare }
        ensures fresh { held self.old result.number ≡ None }
        ensures copy { Changes self.old self.new result.number (held self.old block.now.number) }
        ensures used { used self.new ≡ used self.old + 1 }
        ensures spare { self.new.spare + 1 ≡ self.old.spare }
        ensures numbers { self.new.numbers ≡ self.old.numbers }
        ensures below { result.number < self.new.numbers }
    {
        let bytes = self.blocks[block.number];
        self.put(bytes)
    }

    /// Gives a live block back, which makes it spare.
    pub fn give(&mut self, block: BlockId)
        requires { IsLive self.old block.number }
        ensures gone { Changes self.old self.new block.number None }
        ensures used { used self.new + 1 ≡ used self.old }
        ensures spare { self.new.spare ≡ self.old.spare + 1 }
        ensures numbers { self.new.numbers ≡ self.old.numbers }
    {
        self.live[block.number] = false;
        self.free.push_reserved(block.number);
    }

    /// Returns the bytes of a live block.
    pub fn bytes(&self, block: &BlockId) -> &[u8]
        requires { IsLive self.now block.now.number }
        ensures bytes { held self.now block.now.number ≡ Some result.now }
        ensures length { length result.now ≡ 4096 }
    {
        &self.blocks[block.number]
    }

    /// Returns the bytes of a live block for writing. Other blocks are unchanged.
    pub fn bytes_mut(&mut self, block: &BlockId) -> &mut [u8]
        requires { IsLive self.old block.now.number }
        ensures* writes_back { sem 𝓛 (LendsBlock self.entry block.now.number result) }
        ensures bytes { held self.old block.now.number ≡ Some result.now }
        ensures length { length result.now ≡ 4096 }
    {
        let _ = self.bytes(block);
        self.blocks[block.number].as_mut_slice()
    }

    pub(crate) fn give_all(&mut self)
        ensures none_live { self.new.slots ≡ [] }
        ensures spare { self.new.spare ≡ used self.old + self.old.spare }
        ensures numbers { self.new.numbers ≡ self.old.numbers }
    {
        self.blocks.clear();
        self.live.clear();
        self.free.clear();
    }

    /// Returns a number that is greater than the number of each block.
    pub(crate) fn numbers(&self) -> usize
        ensures { result ≡ self.now.numbers }
    {
        self.room
    }

    /// Writes bytes to a part of a live block. Other blocks are unchanged.
    #[inline(always)]
    pub(crate) fn write(&mut self, block: &BlockId, offset: usize, bytes: &[u8])
        requires live { IsLive self.old block.now.number }
        requires within { offset + length bytes.now ≤ 4096 }
        ensures wrote { WritesPart self.old self.new block.now.number offset bytes.now }
    {
        self.bytes_mut(block)[offset..offset + bytes.len()].copy_from_slice(bytes);
    }

    /// Writes `byte` `count` times to a part of a live block. Other blocks are unchanged.
    pub(crate) fn fill(&mut self, block: &BlockId, offset: usize, byte: u8, count: usize)
        requires live { IsLive self.old block.now.number }
        requires within { offset + count ≤ 4096 }
        ensures filled { WritesPart self.old self.new block.now.number offset (replicate count byte) }
    {
        self.bytes_mut(block)[offset..offset + count].fill(byte);
    }

    /// Writes the `width` lowest bytes of a number to a part of a live block, in little-endian
    /// order. Other blocks are unchanged.
    #[inline(always)]
    pub(crate) fn write_number(&mut self, block: &BlockId, offset: usize, width: usize, value: u64)
        requires live { IsLive self.old block.now.number }
        requires width { IsWidth width }
        requires within { offset + width ≤ 4096 }
        ensures wrote { WritesPart self.old self.new block.now.number offset (little_bytes width value) }
    {
        let bytes = value.to_le_bytes();
        // Each arm has a constant width, so that the compiler knows how many bytes it writes.
        match width {
            8 => self.write(block, offset, &bytes),
            4 => self.write(block, offset, &bytes[..4]),
            2 => self.write(block, offset, &bytes[..2]),
            _ => self.write(block, offset, &bytes[..1]),
        }
    }

    /// Returns the number of live blocks.
    pub fn used(&self) -> usize
        ensures { result ≡ used self.now }
    {
        self.blocks.len() - self.free.len()
    }

    /// Returns the number of blocks that can be taken.
    pub fn spare(&self) -> usize
        ensures { result ≡ self.now.spare }
    {
        self.room - self.used()
    }
}
