// The law that both modules are valid.

ghost use Rattle.wasm_gen.specs.Laws.{SampleModulesAreValid};

use wasm_valid::valid_where_items_hold;

/// Proves that both modules of a sample are valid and bounded, for each seed and for 1 to 100,000
/// functions.
pub fn sample_modules_are_valid()
    ensures { SampleModulesAreValid }
{
    valid_where_items_hold();
}
