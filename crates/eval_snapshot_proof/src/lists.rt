// Laws that the evaluation of a list of constructors continues with the call of one more.

ghost use Rattle.eval_snapshot_proof.specs.ConstructorLists.{AddedAreEvaluated, EvaluatedAreAdded, NoneIsTheInstantiation};

/// States that, in the state after the quiet run of a list (WebAssembly Core 2.0, sections 4.5.4
/// and 4.5.5), a call of one more function that finishes leaves the state after the quiet run of
/// the list with this function appended (`added`), and that each quiet run of the longer list is of
/// this form (`parted`). The run of the empty list is the instantiation and the start (`none`).
pub fn lists_are_evaluated_in_order()
    ensures added { AddedAreEvaluated }
    ensures parted { EvaluatedAreAdded }
    ensures none { NoneIsTheInstantiation }
{}
