ghost use Rattle.std.specs.Prelude.{◌≡◌, ℕ, List, [], ◌∷◌, ◌++◌, ◌-◌, ◌≤◌, length, take, drop, reverse, OnOk};
ghost use Rattle.std.proofs.Common.{append_assoc, refl, sym};
ghost use Rattle.wasm_write.specs.Laws.{longer, as_long};

use crate::target::Target;
use std::alloc::Global;
use std::marker::Model;
use wasm_bytes::NoMemory;

/// A file that is written from its last byte to its first. Contracts see the bytes so far, in the
/// order of the file.
#[derive(Drop)]
pub(crate) struct Buffer {
    backwards: Vec<u8>,
}

impl Model for Buffer {
    ghost use Rattle.std.specs.Prelude.{List, ℕ, reverse};

    ghost Value = { List ℕ };

    ghost view = { λ b. reverse b.backwards.items };
}

impl Buffer {
    /// Returns a buffer without bytes. The call allocates nothing.
    pub(crate) fn new(alloc: Global) -> Buffer
        ensures { result ≡ [] }
    {
        Buffer {
            backwards: Vec::new(alloc),
        }
    }

    /// Returns the bytes in the order of the file. Each is moved once.
    pub(crate) fn into_bytes(self) -> Vec<u8>
        ensures { result.items ≡ self }
    {
        let Buffer { mut backwards } = self;
        backwards.reverse();
        backwards
    }
}

/// Reverses the bytes from position `from` on.
#[tactic(auto, using(crate::proofs::Backwards::turned))]
fn turn_from(bytes: &mut [u8], from: usize)
    requires { from ≤ length bytes.old }
    ensures { bytes.new ≡ take from bytes.old ++ reverse (drop from bytes.old) }
{
    bytes[from..].reverse();
}

impl Target for Buffer {
    type Refusal = NoMemory;

    ghost preceded = { λ b text. text ++ b };

    ghost written_so_far = { λ b. length b };

    ghost nothing = { λ b. refl };

    ghost joined = { λ b s t. sym (append_assoc s t b) };

    ghost farther = { λ b s. longer b s };

    ghost told = { λ b s f. as_long b s f };

    fn byte(&mut self, value: u8) -> Result<(), NoMemory> {
        match self.backwards.push(value) {
            Ok(()) => Ok(()),
            Err(_) => Err(NoMemory),
        }
    }

    fn bytes(&mut self, more: &[u8]) -> Result<(), NoMemory> {
        let from = self.backwards.len();
        match self.backwards.extend_from_slice(more) {
            Ok(()) => {
                turn_from(self.backwards.as_mut_slice(), from);
                Ok(())
            }
            Err(_) => Err(NoMemory),
        }
    }

    fn written_so_far(&self) -> u64 {
        self.backwards.len() as u64
    }
}
