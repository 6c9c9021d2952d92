//! Laws of an evaluation: its runs end, its steps are steps of the machine, whatever is outside the
//! module, and the values of globals have their types and refer to functions of the module.
//!
//! Files:
//!
//! - `quiet`: Laws of the quiet run: it ends, in the stage to which its steps lead; how many
//!   constructors it evaluates; its steps are steps of the machine, whatever is outside the module.
//! - `references`: Laws that, in the states of an evaluation, the values of globals have their
//!   types and refer to no functions but those of the module; and that imported functions have their
//!   types.
//! - `specs/Budgets`: What more turns change in an evaluation.
//! - `specs/EndsAndCounts`: The laws of quiet runs.
//! - `specs/GlobalValues`: The functions to which globals refer, and the types of their values, in
//!   the states of an evaluation.
//! - `specs/ImportedFunctions`: The functions that a valid module imports.
//! - `specs/KnownQuietSteps`: Quiet steps as steps of the machine that read no unknown place and
//!   name, of imports, only functions, whatever is outside the module.
//! - `specs/QuietCalls`: What a quiet call corresponds to over another store.
//! - `specs/QuietInstantiations`: A quiet instantiation as one by the machine, over a store in
//!   which imports hold nothing.
//! - `specs/UnrelatedPlaces`: What a quiet step leaves unchanged in another store, over which the
//!   machine makes it too.
#![tactic(auto)]

mod quiet;
mod references;

pub use quiet::{
    counted_constructors_are_the_longest_quiet_prefix, evaluation_is_monotone_in_the_budget,
    evaluations_end, quiet_calls_simulate, quiet_instantiations_are_instantiations, quiet_runs_end,
    quiet_steps_are_known, quiet_steps_preserve_what_is_unrelated,
};
pub use references::{
    calls_keep_values_of_globals, evaluated_globals_are_typed, evaluated_references_are_there,
    imported_functions_are_typed,
};
