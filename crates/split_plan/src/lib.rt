//! Determines which functions of a module a split moves to the secondary module.
//!
//! Files:
//!
//! - `choosing`: Divides the wanted functions into those that move and those that are kept.
//! - `fault`: Why there is no plan.
//! - `laws`: Proves that `plan_fault` gives a fault exactly if the cause of that fault holds.
//! - `marking`: The functions that the names in `split` or `keep` stand for.
//! - `named`: A table of the names that stand for defined functions.
//! - `planning`: The plan of a split, or the first fault of its words.
//! - `plans`: Which functions move, and which stay although they were asked to move.
//! - `segments`: Code that names segments.
//! - `specs/Causes`: The cause of each fault of a plan: what holds for the first word that is at
//!   fault.
//! - `specs/NameTable`: The table of names, and marks of functions.
//! - `specs/NamedFunctions`: The function that a word names.
//! - `specs/PlannedMoves`: Which functions of a module move to the secondary module, which were
//!   asked to move and stay, and the first fault.
//! - `specs/SegmentReferences`: Code that names segments, by `memory.init`, `data.drop`,
//!   `table.init` or `elem.drop`.
#![tactic(auto)]

mod choosing;
mod fault;
mod laws;
mod marking;
mod named;
mod planning;
mod plans;
mod segments;

pub use fault::PlanFault;
pub use laws::{plan_faults_have_causes, what_is_planned_is_a_plan};
pub use planning::plan;
pub use plans::Plan;
