//! The evaluation of constructors that are named by their exports, and the module after it. It uses
//! the machine of eval_machine and the snapshot of eval_snapshot.
//!
//! Files:
//!
//! - `evaluation`: The evaluation of listed constructors.
//! - `named`: The functions that are exported under names.
//! - `running`: The calls of constructors, in order.
//! - `specs/Calls`: Calls in order, by a machine.
//! - `specs/Evaluations`: The result of evaluating listed constructors: a module, how many
//!   constructors were evaluated and what ended the evaluation; or why there is no module.
//! - `specs/Named`: Exports by their names, and functions of a module.
#![tactic(auto)]

mod evaluation;
mod named;
mod running;

pub use evaluation::{Evaluation, evaluate};
