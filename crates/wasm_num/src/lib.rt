//! Numbers of the integer types, the names of the integer operations, and the operations.
//!
//! Files:
//!
//! - `narrow`: The operations on i32, each by its formula.
//! - `operations`: The operations, applied by their names.
//! - `wide`: The operations on i64, each by its formula.
//! - `specs/Operations`: The integer operations, as formulas over whole numbers.
#![tactic(auto)]

mod narrow;
mod operations;
mod wide;

pub use operations::{apply1, apply2};

/// A value of an integer type, as its bits (WebAssembly Core 2.0, section 4.2.1).
#[derive(Clone, Copy, Debug, PartialEq, Eq)]
pub enum Num {
    I32(u32),
    I64(u64),
}

/// The error of an operation that has no result (WebAssembly Core 2.0, section 4.3.2): a division
/// by zero, or a signed quotient that the type cannot hold.
#[derive(Clone, Copy, Debug, PartialEq, Eq)]
pub struct Trap;

/// The operations on one operand, with tests and conversions, one for each opcode (WebAssembly Core
/// 2.0, sections 2.4.1 and 5.4.7).
#[derive(Clone, Copy, Debug, PartialEq, Eq)]
pub enum UnOp {
    I32Eqz,
    I64Eqz,
    I32Clz,
    I32Ctz,
    I32Popcnt,
    I64Clz,
    I64Ctz,
    I64Popcnt,
    I32Extend8S,
    I32Extend16S,
    I64Extend8S,
    I64Extend16S,
    I64Extend32S,
    I32WrapI64,
    I64ExtendI32S,
    I64ExtendI32U,
}

/// The operations on two operands, with comparisons, one for each opcode (WebAssembly Core 2.0,
/// sections 2.4.1 and 5.4.7).
#[derive(Clone, Copy, Debug, PartialEq, Eq)]
pub enum BinOp {
    I32Eq,
    I32Ne,
    I32LtS,
    I32LtU,
    I32GtS,
    I32GtU,
    I32LeS,
    I32LeU,
    I32GeS,
    I32GeU,
    I32Add,
    I32Sub,
    I32Mul,
    I32DivS,
    I32DivU,
    I32RemS,
    I32RemU,
    I32And,
    I32Or,
    I32Xor,
    I32Shl,
    I32ShrS,
    I32ShrU,
    I32Rotl,
    I32Rotr,
    I64Eq,
    I64Ne,
    I64LtS,
    I64LtU,
    I64GtS,
    I64GtU,
    I64LeS,
    I64LeU,
    I64GeS,
    I64GeU,
    I64Add,
    I64Sub,
    I64Mul,
    I64DivS,
    I64DivU,
    I64RemS,
    I64RemU,
    I64And,
    I64Or,
    I64Xor,
    I64Shl,
    I64ShrS,
    I64ShrU,
    I64Rotl,
    I64Rotr,
}
