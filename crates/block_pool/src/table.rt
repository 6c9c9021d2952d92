ghost use Rattle.std.specs.Prelude.{◌≡◌, ◌≢◌, ◌+◌, ◌-◌, ◌*◌, ◌<◌, ◌≤◌, [], ◌∷◌, ◌++◌, length, take, drop, slice_set, true, false, None, Some, OnSome, IsTrue, vec_capacity};
ghost use Rattle.block_pool.specs.Blocks.{used};
ghost use Rattle.block_pool.specs.declared.table.Slot.TheVariants.{Absent, Kept};
ghost use Rattle.block_pool.specs.Pages.{IsWidth, HasRoomFor, WritesBytes, RollsBack, Commits, little_bytes};
ghost use Rattle.block_pool.specs.Table.{IsSound, IsFixed, Claims, TakesBack, Settles, pages_of, present, is_changed, slot_at};

use crate::pool::{BLOCK_BYTES, BlockId, Pool};

/// What the table knows of a block of the memory. The numbers are those of blocks of the pool.
#[derive(Clone, Copy)]
pub(crate) enum Slot {
    /// It was never written: its bytes are zero.
    Absent,
    /// It was written, but not since the mark, if one is set.
    Kept(u32),
    /// It was written since the mark, and never before.
    New(u32),
    /// It was written before the mark and since. The older bytes are kept.
    Changed { present: u32, older: u32 },
}

impl Slot {
    // Returns the block of the pool that has the present bytes.
    pub(crate) fn present(self) -> Option<u32>
        ensures { result ≡ present self }
    {
        match self {
            Slot::Absent => None,
            Slot::Kept(present) | Slot::New(present) | Slot::Changed { present, older: _ } => Some(
                present,
            ),
        }
    }
}

/// A memory, as the table of its blocks in a pool.
#[derive(Drop)]
pub(crate) struct Table {
    pub(crate) pool: Pool,
    pub(crate) slots: Vec<Slot>,
    // The numbers of the blocks that were written since the mark, in memory that `new` allocated.
    pub(crate) changed: Vec<u32>,
    pub(crate) written: u32,
    pub(crate) most: u32,
    pub(crate) size: usize,
    pub(crate) marked: bool,
}

pub(crate) fn block(number: u32) -> BlockId
    ensures { result.number ≡ number }
{
    BlockId {
        number: number as usize,
    }
}

impl Table {
    // Gives a block that was never written zero bytes of its own.
    fn claim(&mut self, number: usize) -> BlockId
        requires sound { IsSound self.old }
        requires inside { number < length self.old.slots.items }
        requires absent { slot_at self.old.slots.items number ≡ Absent }
        requires room { self.old.written < self.old.most }
        ensures sound { IsSound self.new }
        ensures named { present (slot_at self.new.slots.items number) ≡ Some result.number }
        ensures private { self.new.marked ≡ true → is_changed (slot_at self.new.slots.items number) ≡ true }
        ensures claims { Claims self.old self.new number }
        ensures fixed { IsFixed self.old self.new }
    {
        let block = self.pool.take();
        self.written += 1;
        if self.marked {
            self.slots[number] = Slot::New(block.number as u32);
            self.changed.push_reserved(number as u32);
            return block;
        }
        self.slots[number] = Slot::Kept(block.number as u32);
        block
    }

    // Keeps the bytes of the mark, and makes a copy for writing.
    fn set_aside(&mut self, number: usize, older: u32) -> BlockId
        requires sound { IsSound self.old }
        requires inside { number < length self.old.slots.items }
        requires marked { self.old.marked ≡ true }
        requires kept { slot_at self.old.slots.items number ≡ Kept older }
        ensures sound { IsSound self.new }
        ensures named { present (slot_at self.new.slots.items number) ≡ Some result.number }
        ensures private { self.new.marked ≡ true → is_changed (slot_at self.new.slots.items number) ≡ true }
        ensures claims { Claims self.old self.new number }
        ensures fixed { IsFixed self.old self.new }
    {
        let copy = self.pool.copy_of(&block(older));
        self.changed.push_reserved(number as u32);
        self.slots[number] = Slot::Changed {
            present: copy.number as u32,
            older,
        };
        copy
    }

    // Returns a block of the pool to which bytes of the block may be written while those of the
    // mark stay.
    pub(crate) fn own(&mut self, number: usize) -> BlockId
        requires sound { IsSound self.old }
        requires inside { number < length self.old.slots.items }
        requires room { slot_at self.old.slots.items number ≡ Absent → self.old.written < self.old.most }
        ensures sound { IsSound self.new }
        ensures named { present (slot_at self.new.slots.items number) ≡ Some result.number }
        ensures private { self.new.marked ≡ true → is_changed (slot_at self.new.slots.items number) ≡ true }
        ensures claims { Claims self.old self.new number }
        ensures fixed { IsFixed self.old self.new }
    {
        match self.slots[number] {
            Slot::Absent => self.claim(number),
            Slot::Kept(present) => {
                if self.marked {
                    self.set_aside(number, present)
                } else {
                    block(present)
                }
            }
            Slot::New(present) => block(present),
            Slot::Changed { present, older: _ } => block(present),
        }
    }

    // Returns the block that `own` returns, if `own` does not have to change the table for it.
    #[inline(always)]
    fn ready(&self, number: usize) -> Option<u32>
        requires { number < length self.now.slots.items }
        ensures named { OnSome result (present (slot_at self.now.slots.items number) ≡ result) }
        ensures private { OnSome result (self.now.marked ≡ true → is_changed (slot_at self.now.slots.items number) ≡ true) }
    {
        if self.marked {
            return match self.slots[number] {
                Slot::New(present) => Some(present),
                Slot::Changed { present, older: _ } => Some(present),
                Slot::Absent | Slot::Kept(_) => None,
            };
        }
        self.slots[number].present()
    }

    // Writes a number within one block that is ready for it; otherwise returns false and changes
    // nothing.
    #[inline(always)]
    pub(crate) fn store_ready(&mut self, at: usize, width: usize, value: u64) -> bool
        requires sound { IsSound self.old }
        requires width { IsWidth width }
        requires inside { at + width ≤ self.old.size }
        ensures sound { IsSound self.new }
        ensures fits { IsTrue result → HasRoomFor (pages_of self.old) at width }
        ensures writes { IsTrue result → WritesBytes (pages_of self.old) (pages_of self.new) at (little_bytes width value) }
        ensures same { result ≡ false → self.new ≡ self.old }
    {
        let offset = at % 4096;
        if offset + width > BLOCK_BYTES {
            return false;
        }
        match self.ready(at / 4096) {
            Some(number) => {
                self.pool.write_number(&block(number), offset, width, value);
                true
            }
            None => false,
        }
    }

    // Writes bytes of one block.
    pub(crate) fn write_in_block(&mut self, number: usize, offset: usize, bytes: &[u8])
        requires sound { IsSound self.old }
        requires some { 0 < length bytes.now }
        requires within { offset + length bytes.now ≤ 4096 }
        requires inside { 4096 * number + offset + length bytes.now ≤ self.old.size }
        requires room { slot_at self.old.slots.items number ≡ Absent → self.old.written < self.old.most }
        ensures sound { IsSound self.new }
        ensures writes { WritesBytes (pages_of self.old) (pages_of self.new) (4096 * number + offset) bytes.now }
        ensures fixed { IsFixed self.old self.new }
    {
        let block = self.own(number);
        self.pool.write(&block, offset, bytes);
    }

    // Takes back what was written to the last block of `changed`.
    fn take_back(&mut self)
        requires sound { IsSound self.old }
        requires marked { self.old.marked ≡ true }
        requires some { 0 < length self.old.changed.items }
        ensures sound { IsSound self.new }
        ensures back { TakesBack self.old self.new }
        ensures fixed { IsFixed self.old self.new }
    {
        if let Some(number) = self.changed.pop() {
            let number = number as usize;
            match self.slots[number] {
                Slot::New(present) => {
                    self.pool.give(block(present));
                    self.slots[number] = Slot::Absent;
                    self.written -= 1;
                }
                Slot::Changed { present, older } => {
                    self.pool.give(block(present));
                    self.slots[number] = Slot::Kept(older);
                }
                Slot::Absent | Slot::Kept(_) => {}
            }
        }
    }

    // Keeps what was written to the last block of `changed`, and gives up its older bytes.
    fn settle(&mut self)
        requires sound { IsSound self.old }
        requires marked { self.old.marked ≡ true }
        requires some { 0 < length self.old.changed.items }
        ensures sound { IsSound self.new }
        ensures settled { Settles self.old self.new }
        ensures fixed { IsFixed self.old self.new }
    {
        if let Some(number) = self.changed.pop() {
            let number = number as usize;
            match self.slots[number] {
                Slot::New(present) => self.slots[number] = Slot::Kept(present),
                Slot::Changed { present, older } => {
                    self.pool.give(block(older));
                    self.slots[number] = Slot::Kept(present);
                }
                Slot::Absent | Slot::Kept(_) => {}
            }
        }
    }

    pub(crate) fn rollback(&mut self)
        requires sound { IsSound self.old }
        requires marked { self.old.marked ≡ true }
        ensures sound { IsSound self.new }
        ensures back { RollsBack (pages_of self.old) (pages_of self.new) }
    {
        while !self.changed.is_empty() {
            self.take_back();
        }
        self.marked = false;
    }

    pub(crate) fn commit(&mut self)
        requires sound { IsSound self.old }
        requires marked { self.old.marked ≡ true }
        ensures sound { IsSound self.new }
        ensures kept { Commits (pages_of self.old) (pages_of self.new) }
    {
        while !self.changed.is_empty() {
            self.settle();
        }
        self.marked = false;
    }
}
