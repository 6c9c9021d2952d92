//! What the arguments of a command line ask for, and what a task decides over what it has read.
//! (What `ctor-eval` decides is in tools_cli, since it waits for the machine.)
//!
//! Files:
//!
//! - `command_line`: The task that the arguments of a command line ask for.
//! - `ctor_eval`: What `ctor-eval` is to do.
//! - `digits`: A number with its decimal digits.
//! - `evaluation_lines`: The lines that report an evaluation of constructors.
//! - `input`: A file that was read.
//! - `kept_funcs`: The lines that report functions which were to move and are kept.
//! - `merge`: What `merge` is to do.
//! - `merging`: What `merge` decides.
//! - `metadce`: What `metadce` is to do.
//! - `numbers`: Numbers among the arguments of a command line.
//! - `output`: The outputs of a task, and what it decides.
//! - `refusal`: Refusals and their texts.
//! - `sample`: What `sample` is to do.
//! - `sample_lines`: The lines of a sample.
//! - `sampling`: What `sample` decides.
//! - `split`: What `split` is to do.
//! - `splitting`: What `split` decides.
//! - `stop`: Why a command stops.
//! - `sweeping`: What `metadce` decides.
//! - `task`: What a command is to do, with a case for each command.
//! - `unused`: The lines that report nodes of a graph that are not reached.
//! - `specs/Causes`: Why a decision is a refusal, and what is known of the inputs.
//! - `specs/Command`: What the types of the code denote in the definitions.
//! - `specs/Labels`: The name that a table has for a function, if any.
//! - `specs/Refusals`: The text of a refusal.
//! - `specs/Sources`: The sources of a merge, as values of the definitions.
#![tactic(auto)]

mod command_line;
mod ctor_eval;
mod digits;
mod evaluation_lines;
mod input;
mod kept_funcs;
mod merge;
mod merging;
mod metadce;
mod numbers;
mod output;
mod refusal;
mod sample;
mod sample_lines;
mod sampling;
mod split;
mod splitting;
mod stop;
mod sweeping;
mod task;
mod unused;

pub use command_line::{parse, said_to_tool, usage};
pub use ctor_eval::CtorEvalTask;
pub use digits::Digits;
pub use evaluation_lines::lines_after;
pub use input::Input;
pub use merge::{MergeTask, Source};
pub use merging::decide_merge;
pub use metadce::MetadceTask;
pub use output::{Decision, Output, one_output};
pub use refusal::{Refusal, refusal_pieces, refuse_eval, refuse_fault, refuse_item};
pub use sample::SampleTask;
pub use sampling::decide_sample;
pub use split::{SplitOutputs, SplitTask};
pub use splitting::decide_split;
pub use stop::Stop;
pub use sweeping::decide_metadce;
pub use task::Task;
