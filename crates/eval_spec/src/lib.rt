//! The evaluation of a module's constructors, as definitions over the machine of wasm_meaning (in
//! `specs/`): its steps, what stops it, and the state in which it ends.
//!
//! Files:
//!
//! - `limits`: The limits of an evaluation.
//! - `stop`: / Why the evaluation of a module's instantiation, start or constructor stops.
//! - `specs/Evaluation`: The evaluation of a list of constructors: the instantiation with the
//!   start, and then a call of each constructor in order, until something stops one.
//! - `specs/Instantiation`: The instantiation of a module of whose imports only the types of
//!   functions are known, and its start.
//! - `specs/Quiet`: The quiet run: steps of the machine that nothing stops, from a call by the
//!   embedder to its end.
//! - `specs/State`: The state of an evaluation: a store in which some places are unknown, and what
//!   is left to spend.
//! - `specs/StateContents`: What can be read of a state: the value of a global, the bytes of the
//!   memory, and whether a data segment is dropped.
//! - `specs/Stops`: What stops an evaluation at the next step: the conditions, and the order in
//!   which they are tested.
#![tactic(auto)]

mod limits;
mod stop;

pub use limits::{MOST_BLOCKS, MOST_DEPTH, MOST_TURNS};
pub use stop::Stop;
