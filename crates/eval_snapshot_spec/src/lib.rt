//! The snapshot of a module: definitions (in `specs/`) of the module with the state that evaluated
//! constructors leave, and small modules for which it is computed.
//!
//! Files:
//!
//! - `specs/After`: A state that has what a quiet evaluation leaves.
//! - `specs/Contents`: A memory's contents as active data segments.
//! - `specs/Evaluated`: The module that the evaluation of constructors, which are named by
//!   exports, makes of a module.
//! - `specs/Snapshot`: The snapshot of a module: the module that begins in the state that
//!   evaluated constructors left.
#![tactic(auto)]
