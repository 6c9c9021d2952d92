//! Laws of what the contract of `run` says: a command line has one job, and a job that is done is
//! faithful. Each is the contract of a function that does nothing.
//!
//! Files:
//!
//! - `evaluated`: Laws of the module after evaluated constructors.
//! - `headlines`: The headline of each command, written out.
//! - `laws`: Laws of the definitions that the contract of `run` uses.
//! - `runs`: What the clauses of `run` say, written out for any task.
//! - `specs/Headlines`: The headline of each command, written out: what a command that is done has
//!   written, and what an embedder sees of it.
//! - `specs/RunsInFull`: What the clauses of `run` say of a task, written out.
#![tactic(auto)]

mod evaluated;
mod headlines;
mod laws;
mod runs;

pub use evaluated::{
    evaluated_modules_are_snapshots, evaluated_modules_are_valid, evaluated_modules_behave,
};
pub use headlines::{
    evaluations_are_faithful, merges_are_faithful, metadces_are_faithful, samples_are_faithful,
    splits_are_faithful,
};
pub use laws::{command_lines_have_jobs, done_jobs_are_faithful, jobs_are_determined};
pub use runs::{
    done_runs_write_all, outside_runs_have_causes, refused_runs_say_why, runs_make_first_writes,
    runs_print_behind_all_writes, statuses_are_those_of_jobs,
};
