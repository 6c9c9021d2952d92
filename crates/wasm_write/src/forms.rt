ghost use Rattle.wasm_write.specs.Forms.{IsForm};

use crate::opcodes::{bin_code, load_code, store_code, un_code};
use wasm_tree::{BlockType, Instr, MemArg, RefType, ValType};

/// How an instruction is written (WebAssembly Core 2.0, section 5.4). The form of most instructions
/// is an opcode and the numbers that follow it.
#[derive(Drop)]
pub(crate) enum Form<'a> {
    Block(&'a BlockType, &'a [Instr]),
    Loop(&'a BlockType, &'a [Instr]),
    If(&'a BlockType, &'a [Instr], &'a [Instr]),
    Branches(&'a [u32], u32),
    CallIndirect(u32, u32),
    SelectTyped(&'a [ValType]),
    I32Const(i32),
    I64Const(i64),
    RefNull(RefType),
    MemoryInit(u32, u32),
    DataDrop(u32),
    /// An opcode alone.
    Bare(u8),
    /// An opcode and an index.
    Index(u8, u32),
    /// An opcode and a memory argument.
    Access(u8, &'a MemArg),
    /// `FC`, an opcode and an index.
    Prefixed(u8, u32),
    /// `FC`, an opcode and two indices.
    PrefixedPair(u8, u32, u32),
}

/// Returns the form of an instruction.
#[inline(always)]
pub(crate) fn form_of<'a>(instr: &'a Instr) -> Form<'a>
    ensures { IsForm result instr.now }
{
    match instr {
        Instr::Unreachable => Form::Bare(0x00),
        Instr::Nop => Form::Bare(0x01),
        Instr::Block(ty, body) => Form::Block(ty, body.as_slice()),
        Instr::Loop(ty, body) => Form::Loop(ty, body.as_slice()),
        Instr::If(ty, body, other) => Form::If(ty, body.as_slice(), other.as_slice()),
        Instr::Br(x) => Form::Index(0x0C, *x),
        Instr::BrIf(x) => Form::Index(0x0D, *x),
        Instr::BrTable(labels, other) => Form::Branches(labels.as_slice(), *other),
        Instr::Return => Form::Bare(0x0F),
        Instr::Call(x) => Form::Index(0x10, *x),
        Instr::CallIndirect { ty, table } => Form::CallIndirect(*ty, *table),
        Instr::Drop => Form::Bare(0x1A),
        Instr::Select => Form::Bare(0x1B),
        Instr::SelectTyped(types) => Form::SelectTyped(types.as_slice()),
        Instr::LocalGet(x) => Form::Index(0x20, *x),
        Instr::LocalSet(x) => Form::Index(0x21, *x),
        Instr::LocalTee(x) => Form::Index(0x22, *x),
        Instr::GlobalGet(x) => Form::Index(0x23, *x),
        Instr::GlobalSet(x) => Form::Index(0x24, *x),
        Instr::TableGet(x) => Form::Index(0x25, *x),
        Instr::TableSet(x) => Form::Index(0x26, *x),
        Instr::Load(op, arg) => Form::Access(load_code(*op), arg),
        Instr::Store(op, arg) => Form::Access(store_code(*op), arg),
        Instr::MemorySize(x) => Form::Index(0x3F, *x),
        Instr::MemoryGrow(x) => Form::Index(0x40, *x),
        Instr::I32Const(value) => Form::I32Const(*value),
        Instr::I64Const(value) => Form::I64Const(*value),
        Instr::Un(op) => Form::Bare(un_code(*op)),
        Instr::Bin(op) => Form::Bare(bin_code(*op)),
        Instr::RefNull(ty) => Form::RefNull(*ty),
        Instr::RefIsNull => Form::Bare(0xD1),
        Instr::RefFunc(x) => Form::Index(0xD2, *x),
        Instr::MemoryInit { segment, memory } => Form::MemoryInit(*segment, *memory),
        Instr::DataDrop(x) => Form::DataDrop(*x),
        Instr::MemoryCopy { to, from } => Form::PrefixedPair(10, *to, *from),
        Instr::MemoryFill(x) => Form::Prefixed(11, *x),
        Instr::TableInit { segment, table } => Form::PrefixedPair(12, *segment, *table),
        Instr::ElemDrop(x) => Form::Prefixed(13, *x),
        Instr::TableCopy { to, from } => Form::PrefixedPair(14, *to, *from),
        Instr::TableGrow(x) => Form::Prefixed(15, *x),
        Instr::TableSize(x) => Form::Prefixed(16, *x),
        Instr::TableFill(x) => Form::Prefixed(17, *x),
    }
}
