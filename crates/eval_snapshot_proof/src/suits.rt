// Laws for a module that begins in the state after a quiet run of its constructors: its globals
// have their types, and there is a type for the function that replaces the constructors.

ghost use Rattle.eval_snapshot_proof.specs.TypedValues.{EmptyTypesAreThere, ValuesAreTyped};

use eval_proof::{
    evaluated_globals_are_typed, evaluated_references_are_there,
    quiet_instantiations_are_instantiations,
};
use world_simulation::segments_leave_functions_alone;

/// States that, in the state after named constructors of a valid module, the constant of a defined
/// global has the type of the global, so that a function that it names exists (`typed`, WebAssembly
/// Core 2.0, section 3.3.10). If at least one was evaluated, the module has a type without
/// parameters and results (`empty_type`).
pub fn evaluated_states_suit()
    ensures typed { ValuesAreTyped }
    ensures empty_type { EmptyTypesAreThere }
{
    segments_leave_functions_alone();
    quiet_instantiations_are_instantiations();
    evaluated_references_are_there();
    evaluated_globals_are_typed();
}
