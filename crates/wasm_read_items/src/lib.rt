//! Readers of the contents of the sections of a module file, from types to code entries. None knows
//! its place in the file.
//!
//! Files:
//!
//! - `body`: Bodies: sequences of instructions, with their blocks.
//! - `constants`: Constant expressions.
//! - `entry`: Entries of the code section: groups of locals.
//! - `imports`: Names, imports and exports.
//! - `operations`: Unary and binary operations by their opcodes.
//! - `pile`: The instructions that were read and whose sequence has not ended, and whether an
//!   instruction that was read names a data segment.
//! - `segments`: Data segments.
//! - `tokens`: Instructions without a body, by groups of opcodes.
//! - `types`: Types.
//! - `vectors`: Vectors of any encoded value.
//! - `specs/Piled`: What reading a body leaves on the pile of its instructions.
#![tactic(auto)]

mod body;
mod constants;
mod entry;
mod imports;
mod operations;
mod pile;
mod segments;
mod tokens;
mod types;
mod vectors;

pub use entry::read_code;
pub use imports::read_name;
pub use pile::Pile;
pub use segments::read_sized;
pub use vectors::{Spelled, read_whole};
