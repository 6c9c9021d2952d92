use wasm_bytes::Items;
use wasm_tree::{BlockType, Instr};

/// What opens a sequence of instructions (WebAssembly Core 2.0, section 5.4.1).
#[derive(Clone, Copy, Debug, PartialEq, Eq)]
pub enum Opener {
    Block,
    Loop,
    If,
}

/// An opcode with its immediates (WebAssembly Core 2.0, section 5.4). `Plain` is an instruction
/// without instructions inside it.
#[derive(Drop)]
pub enum Token {
    Open(Opener, BlockType),
    Else,
    End,
    Plain(Instr),
}

/// A sequence of instructions up to the `end` or `else` that ends it.
#[derive(Drop)]
pub struct Sequence {
    pub items: Items<Instr>,
    /// Whether an `else` ended it.
    pub by_else: bool,
}
