// Laws that the snapshot of a module is observationally equivalent to the module after its
// evaluated constructors. Small modules are computed in `proofs/SmallRuns`, and wrong snapshots in
// `proofs/WrongSnapshots`.

ghost use Rattle.eval_snapshot_proof.specs.QuietRunAddresses.{QuietRunsAreTheMachines, QuietStartsAreTheMachines};
ghost use Rattle.eval_snapshot_proof.specs.EquivalenceLaws.{EvaluatedRunsAreDetermined, NoneIsEquivalent, ShorterEvaluatedRunsArePrefixes, SnapshotEquivalent};

use crate::numbers::evaluated_numbers_are_in_range;
use crate::valid::snapshots_have_what_is_left;
use eval_proof::{
    quiet_calls_simulate, quiet_instantiations_are_instantiations, quiet_runs_end,
    quiet_steps_are_known,
};
use index_remap_proof::renumbering_keeps_typing;
use run_simulation::steps_agree_off_unknown_places;
use wasm_meaning::steps_write_only_touched_places;
use wasm_tree::operands_pass_layer_by_layer;
use wasm_valid::valid_where_items_hold;
use world_simulation::{
    constants_of_one_module_read_the_environment, corresponding_worlds_have_equal_traces,
    declared_references_are_one_more_segment, index_spaces_list_imports_and_definitions,
    instantiated_stores_match_their_modules, related_instances_have_equal_traces,
    segments_run_as_copies,
};

/// States that a run of a module after its evaluated constructors is determined by the module, the
/// names of the constructors, the kept names, the environment, the embedder's moves and the number
/// of steps (`determined`), and that the trace of fewer steps is a prefix of that of more
/// (`prefixes`).
pub fn evaluated_runs_are_determined()
    ensures determined { EvaluatedRunsAreDetermined }
    ensures prefixes { ShorterEvaluatedRunsArePrefixes }
{}

/// States that a quiet evaluation of exported functions of a valid module, at least one,
/// corresponds to a run of the machine in each environment that links the module (WebAssembly Core
/// 2.0, sections 4.5.4 and 4.5.5): there the instantiation, with one additional function, the start
/// and the calls of the constructors end too, no segment traps, the store that they leave is related
/// to that of the quiet run, except for what is unknown, and all that belongs to the environment is
/// as it was (`machines`). If no constructor is named, this holds for the instantiation of the
/// module itself and its start (`starts`).
pub fn quiet_runs_are_the_machines()
    ensures machines { QuietRunsAreTheMachines }
    ensures starts { QuietStartsAreTheMachines }
{
    renumbering_keeps_typing();
    quiet_steps_are_known();
    quiet_calls_simulate();
    steps_agree_off_unknown_places();
    quiet_runs_end();
    index_spaces_list_imports_and_definitions();
    corresponding_worlds_have_equal_traces();
}

/// States that, in each environment that links a valid module, the module after its evaluated
/// constructors and its snapshot have the same trace in as many steps (WebAssembly Core 2.0,
/// sections 4.5.4 and 4.5.5), if the state of the snapshot has what these constructors leave,
/// tables of the module have fewer than 2^32 slots, and its data segments hold bytes
/// (`equivalent`). If no constructor is evaluated, the module itself has this trace (`none`).
pub fn snapshot_equivalent()
    ensures equivalent { SnapshotEquivalent }
    ensures none { NoneIsEquivalent }
{
    renumbering_keeps_typing();
    quiet_steps_are_known();
    quiet_calls_simulate();
    steps_agree_off_unknown_places();
    quiet_runs_end();
    quiet_instantiations_are_instantiations();
    steps_write_only_touched_places();
    operands_pass_layer_by_layer();
    valid_where_items_hold();
    evaluated_numbers_are_in_range();
    index_spaces_list_imports_and_definitions();
    constants_of_one_module_read_the_environment();
    segments_run_as_copies();
    instantiated_stores_match_their_modules();
    declared_references_are_one_more_segment();
    related_instances_have_equal_traces();
    corresponding_worlds_have_equal_traces();
    snapshots_have_what_is_left();
}
