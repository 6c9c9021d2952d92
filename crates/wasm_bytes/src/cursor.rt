ghost use Rattle.std.specs.Prelude.{◌≡◌, ◌≢◌, ◌<◌, ◌≤◌, ◌++◌, ◌⊎◌, ℕ, List, length, slice_get, [], OnErr, OnOk, IfOk, Err, ◌↔◌};
ghost use Rattle.wasm_bytes.specs.Numbers.{Unsigned, Signed, IsRead, IsWithin};
ghost use Rattle.wasm_bytes.specs.Reading.{unsigned_at, signed_at, with_rest, byte_at, take_at, name_at, lent, seen_text, IsBytes};
ghost use Rattle.wasm_bytes.specs.Joins.{IsNameRead};

use crate::numbers::{signed, unsigned};
use std::marker::Model;
use std::str;

/// Why nothing could be read.
#[derive(Clone, Copy, Debug, PartialEq, Eq)]
pub enum Wrong {
    /// The bytes end too early.
    Short,
    /// The bytes neither begin with an encoding nor are the beginning of one.
    Spelling,
}

/// Returns the name that the bytes begin with, and the bytes after it.
#[tactic(auto, unfolding(crate::specs::Reading::name_at))]
fn named(bytes: &[u8]) -> Result<(&str, &[u8]), Wrong>
    ensures gives { name_at bytes.now ≡ seen_text result }
    ensures shorter { IfOk result (λ r. length r.1.now < length bytes.now) }
    ensures bytes { IsBytes bytes.now }
{
    let (count, after) = unsigned(bytes, 32)?;
    if count > after.len() as u64 {
        return Err(Wrong::Short);
    }
    let (front, back) = after.split_at(count as usize);
    match str::from_utf8(front) {
        Ok(text) => Ok((text, back)),
        Err(_) => Err(Wrong::Spelling),
    }
}

/// Reads bytes from the left. Contracts see the bytes that are left, which an error does not
/// change. No call allocates.
#[derive(Drop)]
pub struct Cursor<'a> {
    rest: &'a [u8],
}

impl<'a> Model for Cursor<'a> {
    ghost use Rattle.std.specs.Prelude.{List, ℕ};

    ghost Value = { List ℕ };

    ghost view = { λ c. c.rest.now };
}

impl<'a> Cursor<'a> {
    /// Returns a cursor at the first of these bytes.
    pub fn new(bytes: &'a [u8]) -> Cursor<'a>
        ensures { result ≡ bytes.now }
    {
        Cursor { rest: bytes }
    }

    /// Returns how many bytes are left.
    pub fn left(&self) -> usize
        ensures { result ≡ length self.now }
    {
        self.rest.len()
    }

    /// Returns the next byte without reading past it, or `None` if none is left.
    pub fn peek(&self) -> Option<u8>
        ensures { result ≡ slice_get self.now 0 }
    {
        self.rest.first().copied()
    }

    /// Reads the next byte. The error is `Short`, exactly if no byte is left.
    pub fn byte(&mut self) -> Result<u8, Wrong>
        ensures gives { byte_at self.old ≡ with_rest result self.new }
        ensures shorter { OnOk result (length self.new < length self.old) }
        ensures short { (result ≡ Err Wrong.Short) ↔ (self.old ≡ []) }
        ensures err { OnErr result ((result ≡ Err Wrong.Short) × (self.new ≡ self.old)) }
    {
        let Some((first, rest)) = self.rest.split_first() else {
            return Err(Wrong::Short);
        };
        self.rest = rest;
        Ok(*first)
    }

    /// Reads a u32 (WebAssembly Core 2.0, section 5.2.2). The error is `Short` exactly if the bytes
    /// left are an encoding cut short, and `Spelling` exactly if they neither are that nor begin
    /// with one.
    pub fn u32(&mut self) -> Result<u32, Wrong>
        ensures gives { unsigned_at 32 self.old ≡ with_rest result self.new }
        ensures shorter { OnOk result (length self.new < length self.old) }
        ensures read { IsRead (Unsigned 32) self.old result self.new }
    {
        let (value, rest) = unsigned(self.rest, 32)?;
        self.rest = rest;
        Ok(value as u32)
    }

    /// Reads an s32, with the errors of `u32`.
    pub fn s32(&mut self) -> Result<i32, Wrong>
        ensures gives { signed_at 32 self.old ≡ with_rest result self.new }
        ensures shorter { OnOk result (length self.new < length self.old) }
        ensures read { IsRead (Signed 32) self.old result self.new }
    {
        let (value, rest) = signed(self.rest, 32)?;
        self.rest = rest;
        Ok(value as i32)
    }

    /// Reads an s33, with the errors of `u32`.
    pub fn s33(&mut self) -> Result<i64, Wrong>
        ensures gives { signed_at 33 self.old ≡ with_rest result self.new }
        ensures shorter { OnOk result (length self.new < length self.old) }
        ensures read { IsRead (Signed 33) self.old result self.new }
        ensures fits { IfOk result (λ v. IsWithin 33 v) }
    {
        let (value, rest) = signed(self.rest, 33)?;
        self.rest = rest;
        Ok(value)
    }

    /// Reads an s64, with the errors of `u32`.
    pub fn s64(&mut self) -> Result<i64, Wrong>
        ensures gives { signed_at 64 self.old ≡ with_rest result self.new }
        ensures shorter { OnOk result (length self.new < length self.old) }
        ensures read { IsRead (Signed 64) self.old result self.new }
    {
        let (value, rest) = signed(self.rest, 64)?;
        self.rest = rest;
        Ok(value)
    }

    /// Reads `count` bytes. The error is `Short`, exactly if fewer are left.
    pub fn take(&mut self, count: usize) -> Result<&'a [u8], Wrong>
        ensures gives { take_at count self.old ≡ with_rest (lent result) self.new }
        ensures ok { IfOk result (λ s. (self.old ≡ s.now ++ self.new) × (length s.now ≡ count)) }
        ensures short { (result ≡ Err Wrong.Short) ↔ (length self.old < count) }
        ensures err { OnErr result ((result ≡ Err Wrong.Short) × (self.new ≡ self.old)) }
    {
        if count > self.rest.len() {
            return Err(Wrong::Short);
        }
        let (front, back) = self.rest.split_at(count);
        self.rest = back;
        Ok(front)
    }

    /// Reads a name (WebAssembly Core 2.0, section 5.2.4): a length, and as many bytes of UTF-8.
    /// The error is `Short` exactly if the length is cut short or exceeds what is left, and
    /// `Spelling` exactly if the length is malformed or its bytes are not UTF-8.
    pub fn name(&mut self) -> Result<&'a str, Wrong>
        ensures gives { name_at self.old ≡ with_rest (lent result) self.new }
        ensures shorter { OnOk result (length self.new < length self.old) }
        ensures read { IsNameRead self.old (lent result) self.new }
    {
        match named(self.rest) {
            Ok((text, rest)) => {
                self.rest = rest;
                Ok(text)
            }
            Err(wrong) => Err(wrong),
        }
    }
}
