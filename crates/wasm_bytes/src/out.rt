ghost use Rattle.std.specs.Prelude.{◌≡◌, ℕ, List, [], ◌++◌, ◌∷◌, ◌*◌, ◌^◌, ◌<◌, length, take, IsOk, IsTrue, ◌↔◌, OnOk, OnErr};
ghost use Rattle.wasm_bytes.specs.Numbers.{Unsigned, Signed, IsWithin};
ghost use Rattle.wasm_bytes.specs.Writing.{u32_text, s32_text, s33_text, s64_text, signed_text, sized_text, IsShortest};

use crate::name::{Name, NoMemory};
use crate::spelled::{push_signed, push_unsigned};
use std::alloc::{AllocError, Global};
use std::marker::Model;

/// Bytes to which calls append. Contracts see the bytes so far. If memory runs out, they are
/// unchanged.
#[derive(Drop)]
pub struct Out {
    bytes: Vec<u8>,
}

impl Model for Out {
    ghost use Rattle.std.specs.Prelude.{List, ℕ};

    ghost Value = { List ℕ };

    ghost view = { λ o. o.bytes.items };
}

/// Cuts the bytes back to the first `before` if appending failed.
fn settled(
    bytes: &mut Vec<u8>,
    before: usize,
    pushed: Result<(), AllocError>,
) -> Result<(), NoMemory>
    ensures same { IsOk result ↔ IsOk pushed }
    ensures ok { OnOk result (bytes.new.items ≡ bytes.old.items) }
    ensures err { OnErr result (bytes.new.items ≡ take before bytes.old.items) }
{
    match pushed {
        Ok(()) => Ok(()),
        Err(_) => {
            bytes.truncate(before);
            Err(NoMemory)
        }
    }
}

/// Appends the unsigned number, or changes nothing.
fn put_unsigned(bytes: &mut Vec<u8>, value: u32) -> Result<(), NoMemory>
    ensures ok { OnOk result (bytes.new.items ≡ bytes.old.items ++ u32_text value) }
    ensures err { OnErr result (bytes.new.items ≡ bytes.old.items) }
{
    let before = bytes.len();
    let pushed = push_unsigned(bytes, value);
    settled(bytes, before, pushed)
}

/// Appends the signed number, or changes nothing.
fn put_signed(bytes: &mut Vec<u8>, value: i64) -> Result<(), NoMemory>
    ensures ok { OnOk result ((most : ℕ) → 0 < most → IsWithin (7 * most) value → bytes.new.items ≡ bytes.old.items ++ signed_text most value) }
    ensures err { OnErr result (bytes.new.items ≡ bytes.old.items) }
{
    let before = bytes.len();
    let pushed = push_signed(bytes, value);
    settled(bytes, before, pushed)
}

/// Appends a length and as many bytes; on error, only a part.
fn push_sized(bytes: &mut Vec<u8>, content: &[u8]) -> Result<(), AllocError>
    requires { length content.now < 2 ^ 32 }
    ensures ok { OnOk result (bytes.new.items ≡ bytes.old.items ++ sized_text content.now) }
    ensures err { OnErr result ((more : List ℕ) × (bytes.new.items ≡ bytes.old.items ++ more)) }
{
    push_unsigned(bytes, content.len() as u32)?;
    bytes.extend_from_slice(content)?;
    Ok(())
}

/// Appends an id, a size and a content; on error, only a part.
fn push_framed(bytes: &mut Vec<u8>, id: u8, content: &[u8]) -> Result<(), AllocError>
    requires { length content.now < 2 ^ 32 }
    ensures ok { OnOk result (bytes.new.items ≡ bytes.old.items ++ id ∷ sized_text content.now) }
    ensures err { OnErr result ((more : List ℕ) × (bytes.new.items ≡ bytes.old.items ++ more)) }
{
    bytes.push(id)?;
    push_sized(bytes, content)
}

impl Out {
    /// Returns an `Out` without bytes. The call allocates nothing.
    pub fn new(alloc: Global) -> Out
        ensures { result ≡ [] }
    {
        Out {
            bytes: Vec::new(alloc),
        }
    }

    /// Returns how many bytes there are.
    pub fn len(&self) -> usize
        ensures { result ≡ length self.now }
    {
        self.bytes.len()
    }

    /// Returns the bytes so far.
    pub fn as_slice(&self) -> &[u8]
        ensures { result.now ≡ self.now }
    {
        self.bytes.as_slice()
    }

    /// Returns the bytes as a `Vec`.
    pub fn into_bytes(self) -> Vec<u8>
        ensures { result.items ≡ self }
    {
        let Out { bytes } = self;
        bytes
    }

    /// Removes all bytes, and keeps their memory for later ones.
    pub fn clear(&mut self)
        ensures { self.new ≡ [] }
    {
        self.bytes.clear()
    }

    /// Appends the byte.
    pub fn byte(&mut self, value: u8) -> Result<(), NoMemory>
        ensures ok { OnOk result (self.new ≡ self.old ++ value ∷ []) }
        ensures err { OnErr result (self.new ≡ self.old) }
    {
        match self.bytes.push(value) {
            Ok(()) => Ok(()),
            Err(_) => Err(NoMemory),
        }
    }

    /// Appends the bytes.
    pub fn bytes(&mut self, more: &[u8]) -> Result<(), NoMemory>
        ensures ok { OnOk result (self.new ≡ self.old ++ more.now) }
        ensures err { OnErr result (self.new ≡ self.old) }
    {
        match self.bytes.extend_from_slice(more) {
            Ok(()) => Ok(()),
            Err(_) => Err(NoMemory),
        }
    }

    /// Appends the shortest encoding of a u32 (WebAssembly Core 2.0, section 5.2.2).
    pub fn u32(&mut self, value: u32) -> Result<(), NoMemory>
        ensures ok { OnOk result (self.new ≡ self.old ++ u32_text value) }
        ensures shortest { IsShortest (Unsigned 32) (u32_text value) value }
        ensures err { OnErr result (self.new ≡ self.old) }
    {
        put_unsigned(&mut self.bytes, value)
    }

    /// Appends the shortest encoding of an s32.
    pub fn s32(&mut self, value: i32) -> Result<(), NoMemory>
        ensures ok { OnOk result (self.new ≡ self.old ++ s32_text value) }
        ensures shortest { IsShortest (Signed 32) (s32_text value) value }
        ensures err { OnErr result (self.new ≡ self.old) }
    {
        put_signed(&mut self.bytes, i64::from(value))
    }

    /// Appends the shortest encoding of an s33.
    pub fn s33(&mut self, value: i64) -> Result<(), NoMemory>
        requires { IsWithin 33 value }
        ensures ok { OnOk result (self.new ≡ self.old ++ s33_text value) }
        ensures shortest { IsShortest (Signed 33) (s33_text value) value }
        ensures err { OnErr result (self.new ≡ self.old) }
    {
        put_signed(&mut self.bytes, value)
    }

    /// Appends the shortest encoding of an s64.
    pub fn s64(&mut self, value: i64) -> Result<(), NoMemory>
        ensures ok { OnOk result (self.new ≡ self.old ++ s64_text value) }
        ensures shortest { IsShortest (Signed 64) (s64_text value) value }
        ensures err { OnErr result (self.new ≡ self.old) }
    {
        put_signed(&mut self.bytes, value)
    }

    /// Appends a name: its length in bytes, and its bytes (WebAssembly Core 2.0, section 5.2.4).
    pub fn name(&mut self, value: &Name) -> Result<(), NoMemory>
        requires { length value.now < 2 ^ 32 }
        ensures ok { OnOk result (self.new ≡ self.old ++ sized_text value.now) }
        ensures err { OnErr result (self.new ≡ self.old) }
    {
        let before = self.bytes.len();
        let pushed = push_sized(&mut self.bytes, value.as_str().as_bytes());
        settled(&mut self.bytes, before, pushed)
    }

    /// Appends a section: its id, its size in the shortest encoding, and its content (WebAssembly
    /// Core 2.0, section 5.5.2).
    pub fn framed(&mut self, id: u8, content: &Out) -> Result<(), NoMemory>
        requires { length content.now < 2 ^ 32 }
        ensures ok { OnOk result (self.new ≡ self.old ++ id ∷ sized_text content.now) }
        ensures err { OnErr result (self.new ≡ self.old) }
    {
        let before = self.bytes.len();
        let pushed = push_framed(&mut self.bytes, id, content.as_slice());
        settled(&mut self.bytes, before, pushed)
    }
}
