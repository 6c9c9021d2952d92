//! The writer: the canonical encoding of a module, and whether it fits into a number of bytes.
//!
//! Files:
//!
//! - `buffer`: A file that is written from its last byte to its first.
//! - `code`: Bodies and instructions.
//! - `forms`: How an instruction is written.
//! - `numbers`: Numbers, from their last byte to their first.
//! - `opcodes`: Opcodes of operations, loads and stores.
//! - `plain`: A value with a canonical encoding.
//! - `sections`: Sections, and the whole module.
//! - `segments`: Element and data segments.
//! - `size`: A count of the bytes of an encoding.
//! - `target`: What a canonical encoding is written to: a file, or a count of its bytes.
//! - `types`: Types.
//! - `specs/Forms`: How an instruction is written.
//! - `specs/Laws`: Laws of a text that is written in front of others (in a buffer), and of a count
//!   that stops at the greatest u64 (a size).
//! - `specs/Parts`: Parts of the canonical encoding of a module.
//! - `specs/Sizes`: Counting bytes.
#![tactic(auto)]

ghost use Rattle.std.specs.Prelude.{◌≡◌, ◌≤◌, length, false, IfOk, IsTrue, ◌↔◌};
ghost use Rattle.wasm_tree.specs.MemoryZero.{memory_zero_funcs};
ghost use Rattle.wasm_read_spec.specs.Files.{Spells, Within};
ghost use Rattle.wasm_write_spec.specs.Plain.{plain};
ghost use Rattle.wasm_write_proof.specs.SmallSizes.{SmallSizes};
ghost use Rattle.wasm_write_proof.specs.TreeLimits.{WithinLimits};

mod buffer;
mod code;
mod forms;
mod numbers;
mod opcodes;
mod plain;
mod sections;
mod segments;
mod size;
mod target;
mod types;

use crate::buffer::Buffer;
use crate::sections::spell_module;
use crate::size::Size;
use std::alloc::Global;
use wasm_bytes::NoMemory;
use wasm_tree::Module;
use wasm_write_proof::canonical_encoding_encodes;

/// Returns the canonical encoding of the module (WebAssembly Core 2.0, section 5.5.16), or
/// `NoMemory`. It has no empty and no custom section, each number has its shortest encoding, and
/// there is a data count exactly if a body has `memory.init` or `data.drop`. The recursion is as
/// deep as the blocks of a body are nested.
///
/// If each vector and each encoded size is below 2^32, and no body names a memory except memory 0,
/// the bytes encode the module. If also the counts, the nesting and the locals of the module are
/// within the limits, so are the bytes. Then, if there are fewer than 2^32 bytes, `read` returns
/// the module unless memory runs out.
pub fn write(alloc: Global, module: &Module) -> Result<Vec<u8>, NoMemory>
    ensures plain { IfOk result (λ bytes. bytes.items ≡ plain «module».now) }
    ensures spells { IfOk result (λ bytes. IsTrue (memory_zero_funcs «module».now.funcs) → SmallSizes «module».now → Spells bytes.items «module».now false) }
    ensures within { IfOk result (λ bytes. IsTrue (memory_zero_funcs «module».now.funcs) → SmallSizes «module».now → WithinLimits «module».now → Within bytes.items false) }
{
    canonical_encoding_encodes();
    let mut file = Buffer::new(alloc);
    spell_module(&mut file, module)?;
    Ok(file.into_bytes())
}

/// Returns whether the canonical encoding of the module has at most `most` bytes. The call
/// allocates nothing. Its recursion is as deep as that of `write`.
pub fn fits(module: &Module, most: u32) -> bool
    ensures { IsTrue result ↔ (length (plain «module».now) ≤ most) }
{
    let mut size = Size::new();
    match spell_module(&mut size, module) {
        Ok(()) => size.get() <= u64::from(most),
        Err(never) => match never {},
    }
}
