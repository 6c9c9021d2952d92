// Laws of the module after evaluated constructors.

ghost use Rattle.tools_cli_spec.specs.Trees.{AreEvaluatedAsByTheMachine, TreesAreBounded, TreesAreSingle, TreesAreSnapshots, TreesAreValid, TreesBehave};

use eval_proof::{counted_constructors_are_the_longest_quiet_prefix, evaluations_end};
use eval_snapshot_proof::{
    evaluated_states_suit, quiet_runs_are_the_machines, snapshot_equivalent, snapshots_are_valid,
};

/// States that, if no listed name is missing, the module after an evaluation is a snapshot in a
/// state that the evaluated constructors left, or the module itself.
pub fn evaluated_modules_are_snapshots()
    ensures { TreesAreSnapshots }
{}

/// States that the module after an evaluation is valid if the module is (WebAssembly Core 2.0,
/// section 3.4), has at most one memory if the module has, and is bounded if the module is valid
/// and bounded and none of its own counts is above its limit. No listed name may be missing.
pub fn evaluated_modules_are_valid()
    ensures valid { TreesAreValid }
    ensures single { TreesAreSingle }
    ensures bounded { TreesAreBounded }
{
    snapshots_are_valid();
    evaluated_states_suit();
}

/// States that the module after an evaluation is observationally equivalent, step by step, to the
/// module after its evaluated constructors (WebAssembly Core 2.0, sections 4.5.4 and 4.5.5), in
/// each environment that links the module, for a valid module whose data segments hold bytes and
/// whose tables have fewer than 2^32 slots (`behaves`). In each of these environments the
/// instantiation, the start and the evaluated constructors come to their ends, as they did in the
/// evaluation, and leave what it left, except for what is unknown, and all that belongs to the
/// environment as it was; if no constructor is evaluated, so do the instantiation and the start,
/// unless something stops them (`machines`). No listed name may be missing.
pub fn evaluated_modules_behave()
    ensures behaves { TreesBehave }
    ensures machines { AreEvaluatedAsByTheMachine }
{
    counted_constructors_are_the_longest_quiet_prefix();
    evaluations_end();
    snapshot_equivalent();
    quiet_runs_are_the_machines();
}
