//! When the body of a function is well typed (WebAssembly Core 2.0, sections 3.3 and 3.4), defined
//! without an algorithm, and a checker that decides it.
//!
//! Files:
//!
//! - `branch`: A branch to one of several labels; see `plain`.
//! - `check`: The checker of bodies.
//! - `control`: Branches and calls; see `plain`.
//! - `labels`: The labels that a branch can name.
//! - `laws`: A law of typing.
//! - `locals`: The locals of a function, without an entry in memory for each declared local.
//! - `memories`: Memories and data segments; see `plain`.
//! - `operand_stack`: The operands that the checker keeps.
//! - `operands`: Changes of the operands that the checker keeps.
//! - `plain`: Instructions without a body.
//! - `scope`: What a body can name.
//! - `tables`: Tables and element segments; see `plain`.
//! - `types`: The types of the operations, loads and stores.
//! - `variables`: Locals, globals, references to functions and the typed `select`; see `plain`.
//! - `specs/Groups`: The locals of a function: its parameters, and then its declared locals, group
//!   by group.
//! - `specs/Labels`: The labels as a list, the innermost first.
//! - `specs/LocalTypes`: The types that the locals in memory denote.
//! - `specs/OperandStack`: What the stack that the checker keeps in memory denotes.
//! - `specs/Ops`: The types of the operations, loads and stores.
//! - `specs/ScopeContexts`: The context of a body that has this scope and these open labels.
//! - `specs/Tracking`: The stacks that the checker keeps: a list of operands, and whether any
//!   operands can be below them.
//! - `specs/Typing`: When a body is well typed: there is a list of stacks, one before, between and
//!   after its instructions.
#![tactic(auto)]

mod branch;
mod check;
mod control;
mod labels;
mod laws;
mod locals;
mod memories;
mod operand_stack;
mod operands;
mod plain;
mod scope;
mod tables;
mod types;
mod variables;

pub use check::{Stacks, is_well_typed_body};
pub use laws::bodies_are_well_typed_or_not;
pub use locals::Locals;
pub use scope::Scope;
pub use types::{bin_operand, un_operand};
