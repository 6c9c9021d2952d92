// Laws of the quiet run: it ends, in the stage to which its steps lead; how many constructors it
// evaluates; its steps are steps of the machine, whatever is outside the module.

ghost use Rattle.eval_proof.specs.UnrelatedPlaces.{QuietStepsPreserveUnrelated};
ghost use Rattle.eval_proof.specs.Budgets.{EvaluationIsMonotoneInTheBudget};
ghost use Rattle.eval_proof.specs.KnownQuietSteps.{QuietCallsAreKnown, QuietStepsAreKnown};
ghost use Rattle.eval_proof.specs.QuietCalls.{QuietCallsSimulate};
ghost use Rattle.eval_proof.specs.QuietInstantiations.{InstantiationsAreTheMachines};
ghost use Rattle.eval_proof.specs.EndsAndCounts.{CountedAreQuiet, EndsAreReached, EvaluationsEnd, NoneCountedBefore};
ghost use Rattle.eval_proof.specs.EndsAndCounts.{NothingStopsQuiet, QuietAreCounted, QuietEndsAreUnique, QuietWhereNothingStops, RunsEnd};

use run_simulation::steps_agree_off_unknown_places;
use wasm_meaning::steps_write_only_touched_places;

/// States that a quiet run ends within the steps that `run_end` makes (`ends`), in the stage to
/// which its steps lead (`reached`) and in no other (`determined`).
pub fn quiet_runs_end()
    ensures ends { RunsEnd }
    ensures reached { EndsAreReached }
    ensures determined { QuietEndsAreUnique }
{}

/// States that the number of evaluated constructors is the length of the longest quiet prefix of
/// the list, if nothing stops the instantiation and the start.
pub fn counted_constructors_are_the_longest_quiet_prefix()
    ensures quiet { CountedAreQuiet }
    ensures greatest { QuietAreCounted }
{}

/// States that quiet steps that go on are steps of the machine (WebAssembly Core 2.0, section 4.4)
/// that read no unknown place and name, of imports, only functions (`known`), and the same of whole
/// calls (`calls`).
pub fn quiet_steps_are_known()
    ensures known { QuietStepsAreKnown }
    ensures calls { QuietCallsAreKnown }
{}

/// States that with more turns an evaluation ends in the same way and leaves as many more turns,
/// unless it stops because turns run out.
pub fn evaluation_is_monotone_in_the_budget()
    ensures monotone { EvaluationIsMonotoneInTheBudget }
{}

/// States that an evaluation ends, and that it is quiet exactly if nothing stops it; if something
/// stops the instantiation or the start, no constructor is counted.
pub fn evaluations_end()
    ensures ends { EvaluationsEnd }
    ensures quiet { QuietWhereNothingStops }
    ensures unstopped { NothingStopsQuiet }
    ensures none { NoneCountedBefore }
{}

/// States that an instantiation that nothing stops is one by the machine (WebAssembly Core 2.0,
/// section 4.5.4), over a store in which imports hold nothing.
pub fn quiet_instantiations_are_instantiations()
    ensures instantiations { InstantiationsAreTheMachines }
{}

/// States that a quiet step, in any store over which the machine makes it too, leaves functions,
/// tables and element segments unchanged, and also what nothing in its own store is related to, and
/// globals that are unknown afterwards.
pub fn quiet_steps_preserve_what_is_unrelated()
    ensures preserved { QuietStepsPreserveUnrelated }
{
    steps_write_only_touched_places();
}

/// States that a quiet call leads the same call over any related store to an end, if the relation
/// is one-to-one except for functions. The store there is related except for what is still unknown,
/// and all else in it is unchanged. Nothing need be known of imported tables, memories and globals,
/// nor of what is unknown.
pub fn quiet_calls_simulate()
    ensures simulate { QuietCallsSimulate }
{
    steps_agree_off_unknown_places();
    steps_write_only_touched_places();
}
