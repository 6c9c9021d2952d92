//! Laws of a snapshot: it is valid, its numbers are in range, and it is observationally equivalent to
//! the module after its evaluated constructors.
//!
//! Files:
//!
//! - `behaves`: Laws that the snapshot of a module is observationally equivalent to the module
//!   after its evaluated constructors.
//! - `in_range`: Laws that the numbers of a snapshot are in the ranges of their types, as those of
//!   the module are.
//! - `lists`: Laws that the evaluation of a list of constructors continues with the call of one
//!   more.
//! - `numbers`: Laws that, in the states of an evaluation, numbers are in the ranges of their
//!   types and no global holds a non-null external reference.
//! - `suits`: Laws for a module that begins in the state after a quiet run of its constructors:
//!   its globals have their types, and there is a type for the function that replaces the
//!   constructors.
//! - `valid`: Laws of snapshots: that of a valid module is valid, and what it has of the module.
//! - `specs/ConstructorLists`: The evaluation of a list of constructors, and of the list with one
//!   more.
//! - `specs/EquivalenceLaws`: The laws that the snapshot of a module behaves as the module whose
//!   constructors are evaluated.
//! - `specs/EvaluatedWorlds`: A module whose constructors are evaluated, as a world.
//! - `specs/GlobalsAndSegments`: What a snapshot has of the globals and data segments of its
//!   module, and code that names data segments.
//! - `specs/QuietRunAddresses`: The quiet run, in whose store each index is its own address, as a
//!   run of the machine in an environment: which address an index denotes there.
//! - `specs/Ranges`: Numbers in the ranges of their types, and no non-null external references, in
//!   the states of an evaluation.
//! - `specs/SuitableStates`: What a state must have so that a module can begin in it.
//! - `specs/TypedValues`: What holds of a module and of the values of its globals after
//!   constructors were evaluated.
#![tactic(auto)]

mod behaves;
mod in_range;
mod lists;
mod numbers;
mod suits;
mod valid;

pub use behaves::{
    evaluated_runs_are_determined, quiet_runs_are_the_machines, snapshot_equivalent,
};
pub use in_range::{encoded_trees_begin_in_range, snapshots_are_in_range};
pub use lists::lists_are_evaluated_in_order;
pub use numbers::evaluated_numbers_are_in_range;
pub use suits::evaluated_states_suit;
pub use valid::{snapshots_are_valid, snapshots_have_what_is_left};
