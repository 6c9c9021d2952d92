//! What the contract of `run` says: the task of a command line, its job over the files, what a run
//! leaves, and the headline.
//!
//! Files:
//!
//! - `evaluation`: How the evaluation of listed constructors ends, or why it gives no module.
//! - `split_words`: The names of functions that a split lists.
//! - `status`: How a command ends.
//! - `specs/CommandLine`: The task that the arguments of a command line ask for.
//! - `specs/Effects`: Writes to files, complete or cut short.
//! - `specs/Endings`: How the evaluation of listed constructors ends, or why it gives no
//!   module.
//! - `specs/ErrorLines`: The exit statuses, and what is printed on standard error.
//! - `specs/EvaluationLines`: The lines that report an evaluation of constructors.
//! - `specs/Faithful`: The headline: if a command is done, each module that it wrote is valid,
//!   and what it wrote is observationally equivalent to its original in the environments that
//!   `equivalence` names.
//! - `specs/Job`: The job of a command line: what it results in, as a relation to the contents
//!   of the files.
//! - `specs/KeptFuncs`: The lines that report functions which were to move and are kept.
//! - `specs/Numbers`: Numbers among the arguments of a command line.
//! - `specs/Run`: What a run of the program does to the files and the two sinks.
//! - `specs/SampleLines`: The lines that a sample prints.
//! - `specs/Texts`: The texts of refusals, without the `binkit: ` before and the end of line
//!   after them.
//! - `specs/Trees`: The module after evaluated constructors, if no listed name is missing.
//! - `specs/Turns`: The files whose turn to be read comes, and those that a task may write.
//! - `specs/Unmarked`: The names of the nodes of a graph that have no mark, as a function of
//!   the nodes and the marks.
//! - `specs/Unused`: The lines that report nodes of a graph that are not reached.
#![tactic(auto)]

mod evaluation;
mod split_words;
mod status;

pub use evaluation::{Ending, EvalFault};
pub use split_words::SplitWords;
pub use status::Status;
