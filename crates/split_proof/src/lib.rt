//! Laws of a split: both modules are valid and their numbers are in range, and the split module
//! under the loader of its secondary modules is observationally equivalent to the module.
//! `proofs/SmallRuns` computes small modules, and `proofs/WrongSplits` refutes wrong splits.
//!
//! Files:
//!
//! - `behaves`: The laws that a split module under the loader of its secondary modules is
//!   observationally equivalent to the module, and that each secondary module can be loaded wherever
//!   a run asks for it.
//! - `in_range`: The law that in both modules of a split each number is in the range of its type
//!   and each name is UTF-8, if that is so in the input module.
//! - `valid`: The laws that both modules of a split are valid, that their remaps fit, and how many
//!   imports and functions they have.
//! - `specs/Addresses`: Which addresses correspond in two stores: the first of the module alone,
//!   the second of its split under the loader of its secondary modules; and which code may replace a
//!   call of a moved function.
//! - `specs/AnsweringSteps`: The steps of a split under its loader that answer one step of the
//!   module alone.
//! - `specs/CorrespondingStates`: When a run of a module alone and one of its split under the
//!   loader correspond, after both are instantiated.
//! - `specs/LoadedCode`: What a load preserves of the relation between a module alone and its
//!   split: stores stay related, and the loaded functions are related to the moved ones.
//! - `specs/Loads`: What the load of a secondary module does: its indices name what the primary
//!   module's instance has, its functions come after all others in the store, and references to them
//!   are put into their slots.
//! - `specs/MovedCalls`: In which ways the first of two related runs takes a step, as to calls of
//!   opaque functions; the second may have frames of trampolines in between.
//! - `specs/Premises`: What is needed of a list of functions that are to move.
//! - `specs/RenumberedCalls`: Replacing calls in code and then renumbering it gives the renumbered
//!   code, in which the renumbered replacements are in place of the calls.
//! - `specs/SplitInstantiation`: How a split begins under its loader, compared with the module
//!   alone.
//! - `specs/SplitLaws`: The laws that a split is observationally equivalent to the module, and
//!   that its secondary modules can be loaded.
//! - `specs/SplitWorlds`: A split module under the loader of its secondary modules.
#![tactic(auto)]

mod behaves;
mod in_range;
mod valid;

pub use behaves::{
    loads_preserve_the_relation, pairs_can_be_split, secondary_modules_load,
    split_module_equivalent, split_modules_begin_related, steps_call_moved_functions_together,
};
pub use in_range::split_modules_are_in_range;
pub use valid::{
    maps_of_a_split_fit, primary_modules_are_valid, replacing_calls_commutes_with_renumbering,
    secondary_modules_are_valid, split_modules_are_counted,
};
