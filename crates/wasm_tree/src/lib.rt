//! A WebAssembly module as a tree, its index spaces, the indices that instructions name, and the
//! limits.
//!
//! The types follow the structure of WebAssembly Core 2.0, chapter 2, for the integer profile: the
//! value types are i32, i64, funcref and externref. Contracts see a tree as plain data, so two
//! trees with equal parts are equal.
//!
//! Files:
//!
//! - `body`: Copies of code.
//! - `copy`: Copies of a module and its parts.
//! - `instr`: Instructions.
//! - `laws`: Laws of the operands of instructions.
//! - `module`: Modules.
//! - `space`: The index spaces, and the indices that an instruction names.
//! - `spaces`: The index spaces of a module: first the imports, in order, and then the
//!   definitions.
//! - `types`: Types.
//! - `which`: The quantities that have a limit, and their limits.
//! - `specs/Accesses`: How many bytes of a memory loads and stores access.
//! - `specs/Bounds`: What a u32 can name: each list and each index space of a module has fewer
//!   than 2^32 entries, and each function has fewer than 2^32 parameters and declared locals
//!   together.
//! - `specs/DataUse`: Code that names data segments, by `memory.init` or by `data.drop`.
//! - `specs/Layers`: What holds of each layer of an instruction: of the instruction itself, and of
//!   each one inside it.
//! - `specs/Limits`: The limit of each quantity: one table, with the program's own constants.
//!   proofs/LimitRows has them as numbers.
//! - `specs/MemoryZero`: Code that names no memory except memory 0, as in each valid module with
//!   at most one memory.
//! - `specs/Numbers`: The value type of numbers of a width.
//! - `specs/OperandLaws`: Laws of the operands of instructions: the operands of code with new
//!   indices, and tests of operands layer by layer.
//! - `specs/Operands`: The indices that an instruction itself names, each with its index space.
//! - `specs/SameTypes`: Tests whether two types are equal.
//! - `specs/Spaces`: The index spaces of a module: first the imports, in order, and then the
//!   definitions.
#![tactic(auto)]

mod body;
mod copy;
mod instr;
mod laws;
mod module;
mod space;
mod spaces;
mod types;
mod which;

pub use body::copy_body;
pub use instr::{Instr, LoadOp, MemArg, StoreOp};
pub use laws::{operands_are_mapped, operands_pass_layer_by_layer};
pub use module::{
    ConstExpr, DataMode, DataSeg, ElemMode, ElemSeg, Export, ExportDesc, Func, GlobalDef, Import,
    ImportDesc, LocalGroup, Module,
};
pub use space::{Operand, Operands, Space};
pub use types::{BlockType, FuncType, GlobalType, Limits, RefType, TableType, ValType};
pub use which::{
    MOST_DATA_SEGMENTS, MOST_ELEMENT_SEGMENTS, MOST_EXPORTS, MOST_FUNCTIONS, MOST_GLOBALS,
    MOST_IMPORTS, MOST_INPUT_BYTES, MOST_LOCALS, MOST_MEMORIES, MOST_NESTING, MOST_OUTPUT_BYTES,
    MOST_PARAMETERS, MOST_PARTS, MOST_RESULTS, MOST_TABLES, MOST_TRAMPOLINES, MOST_TYPES, Which,
};
