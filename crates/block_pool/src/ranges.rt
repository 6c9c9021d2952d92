ghost use Rattle.std.specs.Prelude.{◌≡◌, ◌≢◌, ◌+◌, ◌*◌, ◌/◌, ◌%◌, ◌^◌, ◌<◌, ◌≤◌, ◌↔◌, ℕ, length, replicate, false, None, Some, IfSome, IfNone, IsNone, IsTrue, slice_index, if◌then◌else◌};
ghost use Rattle.block_pool.specs.declared.table.Slot.TheVariants.{Absent};
ghost use Rattle.block_pool.specs.Pages.{IsWidth, IsNextNonzero, IsZeroFrom, IsZeroTo, WritesBytes, HasRoomFor, part, little, little_bytes};
ghost use Rattle.block_pool.specs.Table.{IsSound, IsFixed, IsBlock, IsZeroBlock, pages_of, is_present, slot_at};

use crate::numbers::{first_nonzero, number};
use crate::pool::BLOCK_BYTES;
use crate::table::{Table, block};

// Copies of up to this many bytes use a small buffer; a buffer of a whole block costs more.
const SMALL_COPY: usize = 64;

impl Table {
    // Returns the bytes of a block, if it was written.
    fn bytes_of(&self, number: usize) -> Option<&[u8]>
        requires sound { IsSound self.now }
        requires inside { number < length self.now.slots.items }
        ensures some { IfSome result (λ bytes. IsBlock self.now number bytes.now) }
        ensures none { IfNone result (IsZeroBlock self.now number) }
    {
        match self.slots[number].present() {
            Some(present) => Some(self.pool.bytes(&block(present))),
            None => None,
        }
    }

    // Returns how many written blocks a write to the block adds: 0 or 1.
    fn added(&self, number: usize) -> u32
        requires { number < length self.now.slots.items }
        ensures { result ≡ (if is_present (slot_at self.now.slots.items number) then 0 else 1) }
    {
        match self.slots[number].present() {
            Some(_) => 0,
            None => 1,
        }
    }

    // Returns whether `count` bytes from `at` on can be written.
    pub(crate) fn has_room(&self, at: usize, count: usize) -> bool
        requires sound { IsSound self.now }
        requires inside { at + count ≤ self.now.size }
        ensures { IsTrue result ↔ HasRoomFor (pages_of self.now) at count }
    {
        if count == 0 {
            return true;
        }
        let mut total = self.written;
        for number in at / 4096..(at + count - 1) / 4096 + 1 {
            total += self.added(number);
        }
        total <= self.most
    }

    fn read_in_block(&self, number: usize, offset: usize, out: &mut [u8])
        requires sound { IsSound self.now }
        requires within { offset + length out.old ≤ 4096 }
        requires inside { 4096 * number + offset + length out.old ≤ self.now.size }
        requires some { 0 < length out.old }
        ensures { out.new ≡ part (pages_of self.now).now.bytes (4096 * number + offset) (length out.old) }
    {
        match self.bytes_of(number) {
            Some(bytes) => out.copy_from_slice(&bytes[offset..offset + out.len()]),
            None => out.fill(0),
        }
    }

    // Reads bytes of at most two blocks.
    fn read(&self, at: usize, out: &mut [u8])
        requires sound { IsSound self.now }
        requires some { 0 < length out.old }
        requires small { length out.old ≤ 4096 }
        requires inside { at + length out.old ≤ self.now.size }
        ensures { out.new ≡ part (pages_of self.now).now.bytes at (length out.old) }
    {
        let first = BLOCK_BYTES - at % 4096;
        if out.len() <= first {
            self.read_in_block(at / 4096, at % 4096, out);
        } else {
            let (front, back) = out.split_at_mut(first);
            self.read_in_block(at / 4096, at % 4096, front);
            self.read_in_block(at / 4096 + 1, 0, back);
        }
    }

    // Loads a number whose bytes may be in two blocks.
    #[inline(never)]
    fn load_across(&self, at: usize, width: usize) -> u64
        requires sound { IsSound self.now }
        requires width { IsWidth width }
        requires inside { at + width ≤ self.now.size }
        ensures value { result ≡ little (part (pages_of self.now).now.bytes at width) }
        ensures small { result < 256 ^ width }
    {
        let mut bytes = [0; 8];
        self.read(at, &mut bytes[..width]);
        number(&bytes[..width])
    }

    #[inline(always)]
    pub(crate) fn load(&self, at: usize, width: usize) -> u64
        requires sound { IsSound self.now }
        requires width { IsWidth width }
        requires inside { at + width ≤ self.now.size }
        ensures value { result ≡ little (part (pages_of self.now).now.bytes at width) }
        ensures small { result < 256 ^ width }
    {
        let offset = at % 4096;
        if offset + width <= BLOCK_BYTES {
            return match self.bytes_of(at / 4096) {
                Some(bytes) => number(&bytes[offset..offset + width]),
                None => 0,
            };
        }
        self.load_across(at, width)
    }

    fn write_within(&mut self, at: usize, bytes: &[u8])
        requires sound { IsSound self.old }
        requires some { 0 < length bytes.now }
        requires within { at % 4096 + length bytes.now ≤ 4096 }
        requires inside { at + length bytes.now ≤ self.old.size }
        requires room { slot_at self.old.slots.items (at / 4096) ≡ Absent → self.old.written < self.old.most }
        ensures sound { IsSound self.new }
        ensures writes { WritesBytes (pages_of self.old) (pages_of self.new) at bytes.now }
        ensures fixed { IsFixed self.old self.new }
    {
        self.write_in_block(at / 4096, at % 4096, bytes);
    }

    pub(crate) fn put(&mut self, at: usize, bytes: &[u8])
        requires sound { IsSound self.old }
        requires inside { at + length bytes.now ≤ self.old.size }
        requires room { HasRoomFor (pages_of self.old) at (length bytes.now) }
        ensures sound { IsSound self.new }
        ensures writes { WritesBytes (pages_of self.old) (pages_of self.new) at bytes.now }
    {
        let mut done = 0;
        while done < bytes.len() {
            let place = at + done;
            let count = (BLOCK_BYTES - place % 4096).min(bytes.len() - done);
            self.write_within(place, &bytes[done..done + count]);
            done += count;
        }
    }

    // Writes a number to a block that is not ready for it, or to two blocks. Returns false and
    // changes nothing if there is no room.
    #[inline(never)]
    pub(crate) fn store_anew(&mut self, at: usize, width: usize, value: u64) -> bool
        requires sound { IsSound self.old }
        requires width { IsWidth width }
        requires inside { at + width ≤ self.old.size }
        ensures sound { IsSound self.new }
        ensures fits { IsTrue result ↔ HasRoomFor (pages_of self.old) at width }
        ensures writes { IsTrue result → WritesBytes (pages_of self.old) (pages_of self.new) at (little_bytes width value) }
        ensures same { result ≡ false → self.new ≡ self.old }
    {
        if !self.has_room(at, width) {
            return false;
        }
        let bytes = value.to_le_bytes();
        self.put(at, &bytes[..width]);
        true
    }

    fn fill_within(&mut self, at: usize, byte: u8, count: usize)
        requires sound { IsSound self.old }
        requires some { 0 < count }
        requires within { at % 4096 + count ≤ 4096 }
        requires inside { at + count ≤ self.old.size }
        requires room { slot_at self.old.slots.items (at / 4096) ≡ Absent → self.old.written < self.old.most }
        ensures sound { IsSound self.new }
        ensures writes { WritesBytes (pages_of self.old) (pages_of self.new) at (replicate count byte) }
        ensures fixed { IsFixed self.old self.new }
    {
        let block = self.own(at / 4096);
        self.pool.fill(&block, at % 4096, byte, count);
    }

    pub(crate) fn fill(&mut self, at: usize, byte: u8, count: usize)
        requires sound { IsSound self.old }
        requires inside { at + count ≤ self.old.size }
        requires room { HasRoomFor (pages_of self.old) at count }
        ensures sound { IsSound self.new }
        ensures writes { WritesBytes (pages_of self.old) (pages_of self.new) at (replicate count byte) }
    {
        let mut done = 0;
        while done < count {
            let place = at + done;
            let some = (BLOCK_BYTES - place % 4096).min(count - done);
            self.fill_within(place, byte, some);
            done += some;
        }
    }

    // Copies as many bytes as the buffer has, through the buffer, to one block.
    fn copy_through(&mut self, to: usize, from: usize, buffer: &mut [u8])
        requires sound { IsSound self.old }
        requires some { 0 < length buffer.old }
        requires within { to % 4096 + length buffer.old ≤ 4096 }
        requires inside { to + length buffer.old ≤ self.old.size }
        requires source { from + length buffer.old ≤ self.old.size }
        requires room { slot_at self.old.slots.items (to / 4096) ≡ Absent → self.old.written < self.old.most }
        ensures sound { IsSound self.new }
        ensures writes { WritesBytes (pages_of self.old) (pages_of self.new) to (part (pages_of self.old).now.bytes from (length buffer.old)) }
        ensures fixed { IsFixed self.old self.new }
    {
        self.read(from, buffer);
        self.write_within(to, buffer);
    }

    fn copy_in_block(&mut self, to: usize, from: usize, count: usize)
        requires sound { IsSound self.old }
        requires some { 0 < count }
        requires within { to % 4096 + count ≤ 4096 }
        requires inside { to + count ≤ self.old.size }
        requires source { from + count ≤ self.old.size }
        requires room { slot_at self.old.slots.items (to / 4096) ≡ Absent → self.old.written < self.old.most }
        ensures sound { IsSound self.new }
        ensures writes { WritesBytes (pages_of self.old) (pages_of self.new) to (part (pages_of self.old).now.bytes from count) }
        ensures fixed { IsFixed self.old self.new }
    {
        if count <= SMALL_COPY {
            self.copy_through(to, from, &mut [0; SMALL_COPY][..count]);
        } else {
            self.copy_through(to, from, &mut [0; BLOCK_BYTES][..count]);
        }
    }

    // Copies from the first byte on, so that no source byte is overwritten before it is read.
    fn copy_forward(&mut self, to: usize, from: usize, count: usize)
        requires sound { IsSound self.old }
        requires order { to ≤ from }
        requires inside { from + count ≤ self.old.size }
        requires room { HasRoomFor (pages_of self.old) to count }
        ensures sound { IsSound self.new }
        ensures writes { WritesBytes (pages_of self.old) (pages_of self.new) to (part (pages_of self.old).now.bytes from count) }
    {
        let mut done = 0;
        while done < count {
            let place = to + done;
            let some = (BLOCK_BYTES - place % 4096).min(count - done);
            self.copy_in_block(place, from + done, some);
            done += some;
        }
    }

    // Copies from the last byte back, for the same reason.
    fn copy_backward(&mut self, to: usize, from: usize, count: usize)
        requires sound { IsSound self.old }
        requires order { from < to }
        requires inside { to + count ≤ self.old.size }
        requires room { HasRoomFor (pages_of self.old) to count }
        ensures sound { IsSound self.new }
        ensures writes { WritesBytes (pages_of self.old) (pages_of self.new) to (part (pages_of self.old).now.bytes from count) }
    {
        let mut left = count;
        while left > 0 {
            let end = to + left;
            let some = ((end - 1) % 4096 + 1).min(left);
            self.copy_in_block(end - some, from + left - some, some);
            left -= some;
        }
    }

    pub(crate) fn copy(&mut self, to: usize, from: usize, count: usize)
        requires sound { IsSound self.old }
        requires inside { to + count ≤ self.old.size }
        requires source { from + count ≤ self.old.size }
        requires room { HasRoomFor (pages_of self.old) to count }
        ensures sound { IsSound self.new }
        ensures writes { WritesBytes (pages_of self.old) (pages_of self.new) to (part (pages_of self.old).now.bytes from count) }
    {
        if to <= from {
            self.copy_forward(to, from, count);
        } else {
            self.copy_backward(to, from, count);
        }
    }

    // Finds the first nonzero byte from `at` to the end of its block.
    fn nonzero_in_block(&self, at: usize) -> Option<usize>
        requires sound { IsSound self.now }
        requires inside { at < self.now.size }
        ensures some { IfSome result (λ found. IsNextNonzero (pages_of self.now).now.bytes at found) }
        ensures none { IfNone result (IsZeroTo (pages_of self.now).now.bytes at (4096 * (at / 4096) + 4096)) }
    {
        match self.bytes_of(at / 4096) {
            Some(bytes) => {
                let offset = at % 4096;
                let end = (self.size - (at - offset)).min(4096);
                match first_nonzero(&bytes[offset..end]) {
                    Some(found) => Some(at + found),
                    None => None,
                }
            }
            None => None,
        }
    }

    // Finds the first nonzero byte, and skips blocks that were never written.
    pub(crate) fn next_nonzero(&self, from: usize) -> Option<usize>
        requires sound { IsSound self.now }
        ensures some { IfSome result (λ at. IsNextNonzero (pages_of self.now).now.bytes from at) }
        ensures none { IfNone result (IsZeroFrom (pages_of self.now).now.bytes from) }
    {
        let mut at = from;
        while at < self.size {
            match self.nonzero_in_block(at) {
                Some(found) => return Some(found),
                None => at = (at / 4096 + 1) * 4096,
            }
        }
        None
    }
}
