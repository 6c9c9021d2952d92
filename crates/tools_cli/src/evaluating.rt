// What `ctor-eval` decides.
ghost use Rattle.std.specs.Prelude.{◌≡◌, length, IfOk, IfErr};
ghost use Rattle.tools_cli_eval.specs.Evaluations.{IsEvaluation};
ghost use Rattle.tools_cli_spec.specs.CommandLine.{CtorEval};
ghost use Rattle.tools_cli_decide.specs.Command.{ctor_eval_value, decision_value, input_texts};
ghost use Rattle.tools_cli_spec.specs.Job.{Decides, Evaluates, Refuses};
ghost use Rattle.tools_cli_decide.specs.Causes.{StopsWith, EvalFails};

use std::alloc::Global;
use tools_cli_decide::{CtorEvalTask, Decision, Input, Stop, lines_after, one_output, refuse_eval};
use tools_cli_eval::{Evaluation, evaluate};
use wasm_valid::Valid;

// Evaluates the constructors of a module; refuses a fault.
fn evaluate_by<'a>(
    alloc: Global,
    eval: &CtorEvalTask<'a>,
    module: Valid,
) -> Result<Evaluation, Stop<'a>>
    ensures evaluated { IfOk result (IsEvaluation «module» eval.now.ctors eval.now.kept) }
    ensures stops { IfErr result (StopsWith (EvalFails (ctor_eval_value eval.now) «module»)) }
{
    match evaluate(alloc, module, &eval.ctors, &eval.kept) {
        Ok(evaluation) => Ok(evaluation),
        Err(fault) => Err(Stop::Refused(refuse_eval(fault)?)),
    }
}

// Evaluates the constructors of a module, and makes a decision of the result.
fn evaluate_one<'a>(
    alloc: Global,
    eval: &CtorEvalTask<'a>,
    module: Valid,
) -> Result<Decision, Stop<'a>>
    ensures decided { IfOk result (λ decision. Evaluates (ctor_eval_value eval.now) «module» (decision_value decision)) }
    ensures stops { IfErr result (StopsWith (λ says. Evaluates (ctor_eval_value eval.now) «module» (Refuses says))) }
{
    let Evaluation {
        module,
        count,
        ending,
    } = evaluate_by(alloc, eval, module)?;
    let lines = lines_after(alloc, eval.ctors.as_slice(), count, ending)?;
    Ok(one_output(alloc, eval.output, module, lines)?)
}

/// Decides a `ctor-eval` task, which has one module and one file.
pub(crate) fn decide_ctor_eval<'a>(
    alloc: Global,
    eval: &CtorEvalTask<'a>,
    modules: Vec<Valid>,
    inputs: &[Input<'a>],
) -> Result<Decision, Stop<'a>>
    requires one { length modules.items ≡ 1 }
    requires one_file { length inputs.now ≡ 1 }
    ensures decided { IfOk result (λ decision. Decides (CtorEval (ctor_eval_value eval.now)) modules.items (input_texts inputs.now) (decision_value decision)) }
    ensures stops { IfErr result (StopsWith (λ says. Decides (CtorEval (ctor_eval_value eval.now)) modules.items (input_texts inputs.now) (Refuses says))) }
{
    let Some(module) = modules.into_iter().next() else {
        unreachable!()
    };
    evaluate_one(alloc, eval, module)
}
