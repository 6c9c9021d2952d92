// The evaluation of listed constructors.

ghost use Rattle.std.specs.Prelude.{◌≡◌, ◌⊎◌, ◌≤◌, List, None, Some, IfErr, IfOk, length, option_map, take};
ghost use Rattle.module_limits.specs.Counts.{over_limit as over_limit_of};
ghost use Rattle.wasm_meaning.specs.State.{Text};
ghost use Rattle.eval_machine.specs.Calls.{IsReady, StopsBoot};
ghost use Rattle.eval_machine.specs.Kept.{MachineFits, state_in};
ghost use Rattle.eval_snapshot_spec.specs.After.{IsAfter};
ghost use Rattle.eval_snapshot_spec.specs.Evaluated.{first_missing, funcs_named};
ghost use Rattle.eval_snapshot_spec.specs.Snapshot.{snapshot as snapshot_of};
ghost use Rattle.tools_cli_eval.specs.Evaluations.{IsEvaluation};
ghost use Rattle.tools_cli_spec.specs.Endings.{ended, fault_of};
ghost use Rattle.tools_cli_eval.specs.Named.{AreFuncsOf};
ghost use Rattle.tools_cli_spec.specs.declared.evaluation.EvalFault.TheVariants.{NoMemory as OutOfMemory, TooMany as OverLimit};

use crate::named::{first_names, funcs_named};
use crate::running::{Calls, call_all};
use eval_machine::{Booted, Machine};
use eval_snapshot::{SnapshotFault, snapshot};
use eval_spec::Stop;
use module_limits::over_limit;
use std::alloc::Global;
use tools_cli_spec::{Ending, EvalFault};
use wasm_bytes::{Items, Name, NoMemory};
use wasm_valid::Valid;

/// The result of an evaluation.
#[derive(Drop)]
pub struct Evaluation {
    /// The module after the evaluated constructors. If none was evaluated, it is the module itself.
    pub module: Valid,
    /// How many of the listed constructors were evaluated.
    pub count: usize,
    pub ending: Ending,
}

// The ending if the instantiation was not stopped.
fn ending_of_calls(stopped: Option<Stop>) -> Ending
    ensures { result ≡ ended None stopped }
{
    match stopped {
        Some(stop) => Ending::Constructor(stop),
        None => Ending::Complete,
    }
}

// The result if the instantiation or the start was stopped: the module itself.
fn unevaluated(input: Valid, stop: Stop) -> Result<Evaluation, EvalFault>
    requires { StopsBoot input stop }
    ensures evaluated { (names kept : List Text) → first_missing input names ≡ None → IfOk result (IsEvaluation input names kept) }
    ensures fault { (names kept : List Text) → first_missing input names ≡ None → IfErr result (λ f. fault_of input names kept ≡ Some f) }
{
    if let Some(which) = over_limit(input.module()) {
        return Err(EvalFault::TooMany { which });
    }
    Ok(Evaluation {
        module: input,
        count: 0,
        ending: Ending::Instantiation(stop),
    })
}

// The module in the machine's state after the first `count` constructors.
fn module_after(
    alloc: Global,
    input: Valid,
    machine: &Machine,
    ctors: &[Name],
    count: usize,
    kept: &Items<Name>,
) -> Result<Valid, EvalFault>
    requires few { count ≤ length ctors.now }
    requires fits { MachineFits input machine.now }
    requires after { IsAfter input (take count ctors.now) (state_in input machine.now) }
    ensures none { IfOk result (λ valid. over_limit_of (snapshot_of input (state_in input machine.now) (take count ctors.now) kept.now) ≡ None) }
    ensures tree { IfOk result (λ valid. valid ≡ snapshot_of input (state_in input machine.now) (take count ctors.now) kept.now) }
    ensures fault { IfErr result (λ f. (f ≡ OutOfMemory) ⊎ (option_map OverLimit (over_limit_of (snapshot_of input (state_in input machine.now) (take count ctors.now) kept.now)) ≡ Some f)) }
{
    let evaluated = first_names(alloc, ctors, count)?;
    match snapshot(alloc, input, machine, &evaluated, kept) {
        Ok(module) => Ok(module),
        Err(SnapshotFault::TooMany { which }) => Err(EvalFault::TooMany { which }),
        Err(SnapshotFault::NoMemory) => Err(EvalFault::NoMemory),
    }
}

// Evaluates constructors on a machine that has instantiated the module; `funcs` are their
// functions.
fn evaluate_on(
    alloc: Global,
    machine: &mut Machine,
    input: Valid,
    funcs: &[u32],
    ctors: &[Name],
    kept: &Items<Name>,
) -> Result<Evaluation, EvalFault>
    requires ready { IsReady input machine.old }
    requires named { first_missing input ctors.now ≡ None }
    requires funcs { funcs.now ≡ funcs_named input ctors.now }
    requires there { AreFuncsOf input funcs.now }
    ensures evaluated { IfOk result (IsEvaluation input ctors.now kept.now) }
    ensures fault { IfErr result (λ f. (f ≡ OutOfMemory) ⊎ (fault_of input ctors.now kept.now ≡ Some f)) }
{
    let calls = call_all(machine, &input, funcs)?;
    let module = module_after(alloc, input, machine, ctors, calls.count, kept)?;
    Ok(Evaluation {
        module,
        count: calls.count,
        ending: ending_of_calls(calls.stopped),
    })
}

// Evaluates constructors; `funcs` are their functions.
fn evaluate_funcs(
    alloc: Global,
    input: Valid,
    funcs: &[u32],
    ctors: &[Name],
    kept: &Items<Name>,
) -> Result<Evaluation, EvalFault>
    requires named { first_missing input ctors.now ≡ None }
    requires funcs { funcs.now ≡ funcs_named input ctors.now }
    requires there { AreFuncsOf input funcs.now }
    ensures evaluated { IfOk result (IsEvaluation input ctors.now kept.now) }
    ensures fault { IfErr result (λ f. (f ≡ OutOfMemory) ⊎ (fault_of input ctors.now kept.now ≡ Some f)) }
{
    match Machine::boot(alloc, &input)? {
        Booted::Stopped(stop) => unevaluated(input, stop),
        Booted::Ready(machine) => {
            let mut machine = machine;
            evaluate_on(alloc, &mut machine, input, funcs, ctors, kept)
        }
    }
}

/// Evaluates constructors, the exported functions of a module that `ctors` names. After the
/// instantiation and the start they are called in order until something stops one, as `Stop`
/// describes (WebAssembly Core 2.0, sections 4.5.4 and 4.5.5). The module that is returned begins
/// in the state that the evaluated constructors left (`snapshot`). The names in `ctors` need not be
/// distinct. A name in `kept` that is not that of an evaluated constructor has no effect. The input
/// is consumed on a fault too.
///
/// Unless memory runs out (`NoMemory`), the fault is `NoSuchExport` exactly if a name in `ctors` is
/// not that of an exported function, with the first such name, and otherwise `TooMany` exactly if a
/// count of the module after the evaluation is above its limit.
pub fn evaluate(
    alloc: Global,
    input: Valid,
    ctors: &Items<Name>,
    kept: &Items<Name>,
) -> Result<Evaluation, EvalFault>
    ensures evaluated { IfOk result (IsEvaluation input ctors.now kept.now) }
    ensures fault { IfErr result (λ f. (f ≡ OutOfMemory) ⊎ (fault_of input ctors.now kept.now ≡ Some f)) }
{
    let names = ctors.as_slice();
    let funcs = funcs_named(alloc, input.module(), names)?;
    evaluate_funcs(alloc, input, funcs.as_slice(), names, kept)
}
