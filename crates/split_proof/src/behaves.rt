// The laws that a split module under the loader of its secondary modules is observationally
// equivalent to the module, and that each secondary module can be loaded wherever a run asks for
// it.

ghost use Rattle.split_proof.specs.SplitInstantiation.{FirstStepsOfSplitsAgree, SplitAddressesAreOneToOne, SplitModulesBeginRelated};
ghost use Rattle.split_proof.specs.SplitLaws.{PairsCanBeSplit, SecondariesAlwaysLoad, SplitModuleEquivalent};
ghost use Rattle.split_proof.specs.MovedCalls.{EveryStepCallsMovedTogether};
ghost use Rattle.split_proof.specs.LoadedCode.{InstancesOfSplitsAreRelated, LoadsKeepTheRelation};
ghost use Rattle.split_proof.specs.Loads.{SecondariesLoad};

use crate::valid::{
    primary_modules_are_valid, replacing_calls_commutes_with_renumbering,
    secondary_modules_are_valid,
};
use index_remap::steps_agree;
use index_remap_proof::renumbering_keeps_typing;
use run_simulation::{calls_through_slots_simulate_direct_calls, code_relation_is_monotone};
use wasm_tree::operands_pass_layer_by_layer;
use wasm_valid::valid_where_items_hold;
use world_simulation::{
    closed_runs_stay_closed, constants_of_one_module_read_the_environment,
    declared_references_are_one_more_segment, instances_stay_typed,
    instantiated_stores_match_their_modules, loaders_begin_as_their_primary,
    loaders_begin_as_with_defined_placeholders, loaders_step_as_their_run,
    segments_leave_functions_alone, store_extension_is_a_preorder, stores_are_extended,
};

/// Proves that a module alone, and its split under the loader of its secondary modules, begin alike
/// in every environment (WebAssembly Core 2.0, section 4.5.4).
///
/// Neither can be instantiated, or both can, to related states, and then both trap or neither
/// (`begin`). So their first steps agree (`first_step`). The relation of addresses is one to one,
/// whatever is loaded (`one_to_one`).
pub fn split_modules_begin_related()
    ensures one_to_one { SplitAddressesAreOneToOne }
    ensures begin { SplitModulesBeginRelated }
    ensures first_step { FirstStepsOfSplitsAgree }
{
    operands_pass_layer_by_layer();
    steps_agree();
    valid_where_items_hold();
    renumbering_keeps_typing();
    replacing_calls_commutes_with_renumbering();
    loaders_begin_as_their_primary();
    loaders_begin_as_with_defined_placeholders();
    constants_of_one_module_read_the_environment();
    segments_leave_functions_alone();
    declared_references_are_one_more_segment();
    instantiated_stores_match_their_modules();
    instances_stay_typed();
}

/// Proves that secondary modules can be loaded.
///
/// A secondary module links, and none of its segments traps, in each store in which the indices of
/// the primary module's instance name what the primary module says. When it is loaded, the indices
/// of its instance name what the primary module has, its functions come after all others in the
/// store, and references to them are in their slots (`load`, WebAssembly Core 2.0, section 4.5.4).
/// So it can be loaded wherever a run of the split under its loader asks for it: at the first call
/// of one of its placeholders, whatever makes that call (`always`).
pub fn secondary_modules_load()
    ensures load { SecondariesLoad }
    ensures always { SecondariesAlwaysLoad }
{
    valid_where_items_hold();
    primary_modules_are_valid();
    secondary_modules_are_valid();
    instantiated_stores_match_their_modules();
    stores_are_extended();
    store_extension_is_a_preorder();
    instances_stay_typed();
    closed_runs_stay_closed();
}

/// Proves that related stores stay related when a secondary module is loaded, whatever was loaded
/// before (`kept`).
///
/// Each loaded function has the type of the moved one, and code that is related to that one's; a
/// call of a moved function in it may go through the slot, or directly to a loaded function. The
/// premises are that the first store has the moved functions as the module defines them, and that
/// the instances of the module alone and of the primary module are related, as they are once both
/// are instantiated (`instances`).
pub fn loads_preserve_the_relation()
    ensures instances { InstancesOfSplitsAreRelated }
    ensures kept { LoadsKeepTheRelation }
{
    operands_pass_layer_by_layer();
    steps_agree();
    valid_where_items_hold();
    renumbering_keeps_typing();
    replacing_calls_commutes_with_renumbering();
    loaders_begin_as_their_primary();
    loaders_begin_as_with_defined_placeholders();
    code_relation_is_monotone();
    constants_of_one_module_read_the_environment();
    segments_leave_functions_alone();
    declared_references_are_one_more_segment();
    instantiated_stores_match_their_modules();
    instances_stay_typed();
}

/// Proves in which four ways the first of two related runs takes a step; the second may have frames
/// of trampolines in between (`together`).
///
/// The step begins no call of an opaque function; or both enter functions, which are partners; or
/// other code replaces the call in the second run; or no call begins, because the arguments or the
/// type do not fit, and both steps agree.
pub fn steps_call_moved_functions_together()
    ensures together { EveryStepCallsMovedTogether }
{
    calls_through_slots_simulate_direct_calls();
}

/// Proves that a split with one secondary module has the premises of these laws (`CanBeSplit`).
///
/// The module is valid, the functions that move can and ascend, no import has the namespace of the
/// placeholders, and no export has an added name.
pub fn pairs_can_be_split()
    ensures { PairsCanBeSplit }
{}

/// Proves that a split module under the loader of its secondary modules is observationally
/// equivalent to the module, in every environment (`equivalent`, WebAssembly Core 2.0, section 4).
///
/// For the same moves of the embedder, the trace of n steps of the module is a prefix of the trace
/// of (p + 8) (n + 1) steps under the loader, where p is the most parameters of a moved function,
/// and the trace of n steps under the loader is a prefix of the trace of n steps of the module.
pub fn split_module_equivalent()
    ensures equivalent { SplitModuleEquivalent }
{
    operands_pass_layer_by_layer();
    steps_agree();
    calls_through_slots_simulate_direct_calls();
    code_relation_is_monotone();
    valid_where_items_hold();
    renumbering_keeps_typing();
    replacing_calls_commutes_with_renumbering();
    primary_modules_are_valid();
    secondary_modules_are_valid();
    loaders_begin_as_their_primary();
    loaders_begin_as_with_defined_placeholders();
    loaders_step_as_their_run();
    constants_of_one_module_read_the_environment();
    segments_leave_functions_alone();
    declared_references_are_one_more_segment();
    instantiated_stores_match_their_modules();
    stores_are_extended();
    store_extension_is_a_preorder();
    instances_stay_typed();
    closed_runs_stay_closed();
    loads_preserve_the_relation();
    steps_call_moved_functions_together();
}
