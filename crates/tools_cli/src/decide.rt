// What a task decides over what it has read.
ghost use Rattle.std.specs.Prelude.{◌≡◌, ◌≤◌, length, None, IfOk, IfErr};
ghost use Rattle.base_lists.specs.Every.{Every};
ghost use Rattle.tools_cli_spec.specs.CommandLine.{modules_of, inputs_of};
ghost use Rattle.tools_cli_decide.specs.Command.{task_value, decision_value, input_entries, input_texts};
ghost use Rattle.tools_cli_spec.specs.Job.{Decides, Refuses, refused_before, most_input};
ghost use Rattle.tools_cli_decide.specs.Causes.{IsWithinLimits, StopsWith, total};

use crate::evaluating::decide_ctor_eval;
use std::alloc::Global;
use tools_cli_decide::{
    Decision, Input, Stop, Task, decide_merge, decide_metadce, decide_sample, decide_split,
};
use wasm_valid::Valid;

/// Decides over the modules of a task and the contents of all its files.
pub(crate) fn decide<'a>(
    alloc: Global,
    task: &Task<'a>,
    modules: Vec<Valid>,
    inputs: &[Input<'a>],
) -> Result<Decision, Stop<'a>>
    requires each { length modules.items ≡ length (modules_of (task_value task.now)) }
    requires all { length inputs.now ≡ length (inputs_of (task_value task.now)) }
    requires room { total (input_entries inputs.now) ≤ most_input }
    requires within { Every IsWithinLimits modules.items }
    requires begun { refused_before (task_value task.now) ≡ None }
    ensures decided { IfOk result (λ decision. Decides (task_value task.now) modules.items (input_texts inputs.now) (decision_value decision)) }
    ensures stops { IfErr result (StopsWith (λ text. Decides (task_value task.now) modules.items (input_texts inputs.now) (Refuses text))) }
{
    match task {
        Task::Merge(merge) => decide_merge(alloc, merge, modules),
        Task::Metadce(metadce) => decide_metadce(alloc, metadce, modules, inputs),
        Task::Split(split) => decide_split(alloc, split, modules, inputs),
        Task::CtorEval(eval) => decide_ctor_eval(alloc, eval, modules, inputs),
        Task::Sample(sample) => decide_sample(alloc, sample),
    }
}
