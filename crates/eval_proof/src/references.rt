// Laws that, in the states of an evaluation, the values of globals have their types and refer to
// no functions but those of the module; and that imported functions have their types.

ghost use Rattle.eval_proof.specs.ImportedFunctions.{ImportedFunctionsAreTyped};
ghost use Rattle.eval_proof.specs.GlobalValues.{CallsKeepRefs, CallsKeepTypes, EvaluatedGlobalsAreTyped, EvaluatedRefsAreThere};

use run_simulation::related_steps_agree;
use wasm_meaning::steps_write_only_touched_places;
use wasm_valid::valid_where_items_hold;

/// States that, in each state in which an evaluation of a valid module finishes (WebAssembly Core
/// 2.0, sections 4.5.4 and 4.5.5), each function to which a global refers is one of the module,
/// imported or defined.
pub fn evaluated_references_are_there()
    ensures there { EvaluatedRefsAreThere }
{
    related_steps_agree();
    steps_write_only_touched_places();
    valid_where_items_hold();
}

/// States that in each such state the value of each global has the type of the global.
pub fn evaluated_globals_are_typed()
    ensures typed { EvaluatedGlobalsAreTyped }
{
    related_steps_agree();
    steps_write_only_touched_places();
    valid_where_items_hold();
}

/// States that a call that finishes preserves both: types in any state, and references, for a valid
/// module, in a state with typed globals that has the parts (`HasPartsOf`) of the state that the
/// instantiation leaves.
pub fn calls_keep_values_of_globals()
    ensures references { CallsKeepRefs }
    ensures types { CallsKeepTypes }
{
    related_steps_agree();
    steps_write_only_touched_places();
    valid_where_items_hold();
}

/// States that the types of the functions that a valid module imports are there, so that the store
/// has a function for each (WebAssembly Core 2.0, section 3.4.9).
pub fn imported_functions_are_typed()
    ensures { ImportedFunctionsAreTyped }
{
    valid_where_items_hold();
}
