// Instructions (WebAssembly Core 2.0, section 2.4).

use crate::types::{BlockType, RefType, ValType};
use wasm_bytes::Items;
use wasm_num::{BinOp, UnOp};

/// The memory argument of a load or a store: the alignment as an exponent of 2, the offset, and the
/// index of the memory (WebAssembly Core 2.0, section 2.4.7).
#[derive(Clone, Copy, Debug, PartialEq, Eq)]
pub struct MemArg {
    pub align: u32,
    pub offset: u32,
    pub memory: u32,
}

/// The loads, in the order of their opcodes (WebAssembly Core 2.0, section 5.4.6).
#[derive(Clone, Copy, Debug, PartialEq, Eq)]
pub enum LoadOp {
    I32Load,
    I64Load,
    I32Load8S,
    I32Load8U,
    I32Load16S,
    I32Load16U,
    I64Load8S,
    I64Load8U,
    I64Load16S,
    I64Load16U,
    I64Load32S,
    I64Load32U,
}

/// The stores, in the order of their opcodes (WebAssembly Core 2.0, section 5.4.6).
#[derive(Clone, Copy, Debug, PartialEq, Eq)]
pub enum StoreOp {
    I32Store,
    I64Store,
    I32Store8,
    I32Store16,
    I64Store8,
    I64Store16,
    I64Store32,
}

/// An instruction (WebAssembly Core 2.0, section 2.4). Blocks, loops and ifs own the instructions
/// inside them; an `if` without `else` has an empty second list.
#[derive(Drop)]
pub enum Instr {
    Unreachable,
    Nop,
    Block(BlockType, Items<Instr>),
    Loop(BlockType, Items<Instr>),
    If(BlockType, Items<Instr>, Items<Instr>),
    Br(u32),
    BrIf(u32),
    /// The labels of a `br_table`, and its default label.
    BrTable(Items<u32>, u32),
    Return,
    Call(u32),
    CallIndirect { ty: u32, table: u32 },
    Drop,
    Select,
    SelectTyped(Items<ValType>),
    LocalGet(u32),
    LocalSet(u32),
    LocalTee(u32),
    GlobalGet(u32),
    GlobalSet(u32),
    TableGet(u32),
    TableSet(u32),
    Load(LoadOp, MemArg),
    Store(StoreOp, MemArg),
    MemorySize(u32),
    MemoryGrow(u32),
    I32Const(i32),
    I64Const(i64),
    Un(UnOp),
    Bin(BinOp),
    RefNull(RefType),
    RefIsNull,
    RefFunc(u32),
    MemoryInit { segment: u32, memory: u32 },
    DataDrop(u32),
    MemoryCopy { to: u32, from: u32 },
    MemoryFill(u32),
    TableInit { segment: u32, table: u32 },
    ElemDrop(u32),
    TableCopy { to: u32, from: u32 },
    TableGrow(u32),
    TableSize(u32),
    TableFill(u32),
}
