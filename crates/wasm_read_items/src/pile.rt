ghost use Rattle.std.specs.Prelude.{◌≡◌, ◌≤◌, ℕ, List, [], false, true, Ok, length, take, drop, OnOk, OnErr, IfOk};
ghost use Rattle.wasm_tree.specs.DataUse.{uses_data_in};
ghost use Rattle.wasm_read_spec.specs.declared.token.Token.TheVariants.{Plain};
ghost use Rattle.wasm_read_items.specs.Piled.{Tells};

use std::alloc::Global;
use std::mem;
use wasm_bytes::{Items, NoMemory};
use wasm_read_spec::{Fault, Opener};
use wasm_tree::Instr;

/// The kind of a token that was read (WebAssembly Core 2.0, section 5.4). A plain instruction was
/// put on the pile; the type of an opened block is still to be read.
#[derive(Clone, Copy)]
pub enum Kind {
    Open(Opener),
    Else,
    End,
    Plain,
}

/// A sequence of at least this many instructions that is alone on the pile takes the pile's memory.
const LONG: usize = 4_096;

/// The instructions that were read and whose sequence has not ended, and whether an instruction
/// that was read names a data segment (WebAssembly Core 2.0, section 2.4.7).
#[derive(Drop)]
pub struct Pile {
    pub instrs: Items<Instr>,
    pub uses_data: bool,
}

impl Pile {
    /// Returns an empty pile.
    pub fn new(alloc: Global) -> Pile
        ensures instrs { result.instrs ≡ [] }
        ensures uses_data { result.uses_data ≡ false }
    {
        Pile {
            instrs: Items::new(alloc),
            uses_data: false,
        }
    }

    /// Puts a plain instruction that names no data segment on the pile.
    pub fn plain(&mut self, instr: Instr) -> Result<Kind, Fault>
        requires { uses_data_in instr ≡ false }
        ensures { (rest : List ℕ) → Tells result rest self.old self.new (Ok (Plain instr, rest)) }
    {
        self.instrs.keep(instr)?;
        Ok(Kind::Plain)
    }

    /// Puts a plain instruction that names a data segment on the pile.
    pub fn plain_with_data(&mut self, instr: Instr) -> Result<Kind, Fault>
        requires { uses_data_in instr ≡ true }
        ensures { (rest : List ℕ) → Tells result rest self.old self.new (Ok (Plain instr, rest)) }
    {
        self.instrs.keep(instr)?;
        self.uses_data = true;
        Ok(Kind::Plain)
    }

    /// Takes the instructions from position `start` on off the pile. A long sequence that is alone
    /// on the pile takes its memory, so that a large body is not held twice; any other is copied,
    /// so that the memory serves the next one. If memory runs out, the pile is unchanged.
    pub fn split_off(&mut self, alloc: Global, start: usize) -> Result<Items<Instr>, NoMemory>
        requires { start ≤ length self.old.instrs }
        ensures front { OnOk result (self.new.instrs ≡ take start self.old.instrs) }
        ensures back { IfOk result (λ taken. taken ≡ drop start self.old.instrs) }
        ensures uses { self.new.uses_data ≡ self.old.uses_data }
        ensures err { OnErr result (self.new ≡ self.old) }
    {
        if start == 0 && self.instrs.len() >= LONG {
            return Ok(mem::replace(&mut self.instrs, Items::new(alloc)));
        }
        self.instrs.split_off(start)
    }
}
