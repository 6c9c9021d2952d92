// What `split` decides.
ghost use Rattle.std.specs.Prelude.{◌≡◌, ◌≤◌, ◌<◌, ◌^◌, [], ◌∷◌, length, None, IfOk, IfErr};
ghost use Rattle.wasm_names.specs.NameList.{AreFunctionNames};
ghost use Rattle.split_plan.specs.PlannedMoves.{IsPlan};
ghost use Rattle.split_spec.specs.FaultOrder.{split_fault};
ghost use Rattle.split_spec.specs.Primary.{primary};
ghost use Rattle.split_spec.specs.Secondary.{secondary};
ghost use Rattle.tools_cli_spec.specs.CommandLine.{Split};
ghost use Rattle.tools_cli_decide.specs.Command.{split_value, decision_value, input_texts, input_entries};
ghost use Rattle.tools_cli_spec.specs.Job.{Decides, Makes, Splits, Refuses, words_plan, words_fault, most_input};
ghost use Rattle.tools_cli_decide.specs.Causes.{StopsWith, PlanFails, SplitFails, total};

use crate::input::Input;
use crate::kept_funcs::kept_lines;
use crate::output::{Decision, plain_output, two_outputs};
use crate::refusal::{refuse_plan, refuse_split};
use crate::split::SplitTask;
use crate::stop::Stop;
use split_plan::{Plan, plan};
use split_slots::{Pair, split};
use std::alloc::Global;
use wasm_bytes::{Items, NoMemory};
use wasm_names::{FuncName, function_names};
use wasm_valid::Valid;

// Finds which functions move, and which were to move and are kept; refuses a fault of the listed
// names.
fn plan_by<'a>(
    alloc: Global,
    task: &SplitTask<'a>,
    module: &Valid,
    names: &Items<FuncName>,
) -> Result<Plan, Stop<'a>>
    ensures plan { IfOk result (λ plan. plan ≡ words_plan (split_value task.now) «module».now names.now) }
    ensures shape { IfOk result (IsPlan «module».now) }
    ensures none { IfOk result (λ plan. words_fault (split_value task.now) «module».now names.now ≡ None) }
    ensures stops { IfErr result (StopsWith (PlanFails (split_value task.now) «module».now names.now)) }
{
    let words = &task.words;
    match plan(
        alloc,
        module,
        names,
        words.split.as_ref(),
        words.keep.as_ref(),
    ) {
        Ok(plan) => Ok(plan),
        Err(fault) => Err(Stop::Refused(refuse_plan(fault)?)),
    }
}

// Splits the module; refuses a fault.
fn split_by<'a>(
    alloc: Global,
    task: &SplitTask<'a>,
    module: Valid,
    plan: &Plan,
) -> Result<Pair, Stop<'a>>
    requires { IsPlan «module» plan.now }
    ensures primary { IfOk result (λ pair. pair.primary ≡ primary task.now.names «module» plan.now.moved) }
    ensures secondary { IfOk result (λ pair. pair.secondary ≡ secondary task.now.names «module» plan.now.moved) }
    ensures none { IfOk result (λ pair. split_fault task.now.names «module» plan.now.moved ≡ None) }
    ensures stops { IfErr result (StopsWith (SplitFails (split_value task.now) «module» plan.now.moved)) }
{
    match split(alloc, module, plan, &task.names) {
        Ok(pair) => Ok(pair),
        Err(fault) => Err(Stop::Refused(refuse_split(alloc, task.file, fault)?)),
    }
}

// Makes outputs of both modules, in the order of writing.
fn both_outputs(
    alloc: Global,
    task: &SplitTask<'_>,
    pair: Pair,
    lines: Vec<u8>,
) -> Result<Decision, NoMemory>
    ensures { IfOk result (λ decision. decision_value decision ≡ Makes
        (record { name = (split_value task.now).outputs.secondary; tree = pair.secondary; custom = [] } ∷ record { name = (split_value task.now).outputs.primary; tree = pair.primary; custom = [] } ∷
        [])
        lines.items) }
{
    let Pair { primary, secondary } = pair;
    let first = plain_output(alloc, task.outputs.secondary, secondary)?;
    let second = plain_output(alloc, task.outputs.primary, primary)?;
    two_outputs(alloc, first, second, lines)
}

// Decides for one module whose functions have these names.
fn split_named<'a>(
    alloc: Global,
    task: &SplitTask<'a>,
    module: Valid,
    names: &Items<FuncName>,
    bytes: &[u8],
) -> Result<Decision, Stop<'a>>
    requires { AreFunctionNames bytes.now names.now }
    ensures decided { IfOk result (λ decision. Splits (split_value task.now) «module» bytes.now (decision_value decision)) }
    ensures stops { IfErr result (StopsWith (λ says. Splits (split_value task.now) «module» bytes.now (Refuses says))) }
{
    let plan = plan_by(alloc, task, &module, names)?;
    let lines = kept_lines(
        alloc,
        module.module(),
        names.as_slice(),
        plan.kept.as_slice(),
    )?;
    let pair = split_by(alloc, task, module, &plan)?;
    Ok(both_outputs(alloc, task, pair, lines)?)
}

/// Decides a `split` task, which has one module and one file. The file gives the functions their
/// names.
pub fn decide_split<'a>(
    alloc: Global,
    task: &SplitTask<'a>,
    modules: Vec<Valid>,
    inputs: &[Input<'a>],
) -> Result<Decision, Stop<'a>>
    requires one { length modules.items ≡ 1 }
    requires one_file { length inputs.now ≡ 1 }
    requires room { total (input_entries inputs.now) ≤ most_input }
    ensures decided { IfOk result (λ decision. Decides (Split (split_value task.now)) modules.items (input_texts inputs.now) (decision_value decision)) }
    ensures stops { IfErr result (StopsWith (λ says. Decides (Split (split_value task.now)) modules.items (input_texts inputs.now) (Refuses says))) }
{
    let Some(module) = modules.into_iter().next() else {
        unreachable!()
    };
    let bytes = inputs[0].bytes.as_slice();
    let names = function_names(alloc, bytes)?;
    split_named(alloc, task, module, &names, bytes)
}
