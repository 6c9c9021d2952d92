ghost use Rattle.std.specs.Prelude.{◌≡◌, length, option_map, IfOk};
ghost use Rattle.tools_cli_spec.specs.CommandLine.{inputs_of, modules_of};
ghost use Rattle.tools_cli_spec.specs.Job.{refused_before};
ghost use Rattle.tools_cli_decide.specs.Refusals.{refusal_text};
ghost use Rattle.tools_cli_decide.specs.Command.{task_value, names_of};

use crate::ctor_eval::CtorEvalTask;
use crate::merge::MergeTask;
use crate::metadce::MetadceTask;
use crate::refusal::Refusal;
use crate::sample::SampleTask;
use crate::split::SplitTask;
use std::alloc::Global;
use wasm_bytes::NoMemory;
use wasm_tree::MOST_PARTS;

/// What a command is to do, with a case for each command.
#[derive(Drop)]
pub enum Task<'a> {
    Merge(MergeTask<'a>),
    Metadce(MetadceTask<'a>),
    Split(SplitTask<'a>),
    CtorEval(CtorEvalTask<'a>),
    Sample(SampleTask<'a>),
}

impl<'a> Task<'a> {
    /// Returns the files to read, in order: the modules first.
    pub fn inputs(&self, alloc: Global) -> Result<Vec<&'a str>, NoMemory>
        ensures { IfOk result (λ names. names_of names.items ≡ inputs_of (task_value self.now)) }
    {
        match self {
            Task::Merge(merge) => merge.files(alloc),
            Task::Metadce(metadce) => metadce.files(alloc),
            Task::Split(split) => split.files(alloc),
            Task::CtorEval(eval) => eval.files(alloc),
            Task::Sample(_) => Ok(Vec::new(alloc)),
        }
    }

    /// Returns how many of the files are modules.
    pub fn module_count(&self) -> usize
        ensures { result ≡ length (modules_of (task_value self.now)) }
    {
        match self {
            Task::Merge(merge) => merge.sources.len(),
            Task::Metadce(_) | Task::Split(_) | Task::CtorEval(_) => 1,
            Task::Sample(_) => 0,
        }
    }

    /// Returns the refusal of a task that is refused before any file is read.
    pub fn refused_before(&self) -> Option<Refusal<'a>>
        ensures { option_map refusal_text result ≡ refused_before (task_value self.now) }
    {
        match self {
            Task::Merge(merge) if merge.sources.len() > MOST_PARTS as usize => {
                Some(Refusal::TooManyParts)
            }
            Task::Merge(_)
            | Task::Metadce(_)
            | Task::Split(_)
            | Task::CtorEval(_)
            | Task::Sample(_) => None,
        }
    }
}
