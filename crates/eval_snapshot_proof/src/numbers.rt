// Laws that, in the states of an evaluation, numbers are in the ranges of their types and no
// global holds a non-null external reference.

ghost use Rattle.eval_snapshot_proof.specs.Ranges.{EvaluatedGlobalsAreInRange, EvaluatedGlobalsAreExpressible, EvaluatedMemoriesAreInRange};

use wasm_valid::valid_where_items_hold;

/// States that, in each state in which an evaluation of a valid module finishes (WebAssembly Core
/// 2.0, sections 4.5.4 and 4.5.5), the value of each global is in the range of its type (`globals`)
/// and no non-null external reference, so that a constant expression can have this value
/// (`expressible`), and that memories hold numbers below 256, at most 2^32 of them (`memories`).
/// The data segments of the module must hold numbers below 256, and its tables fewer than 2^32
/// slots.
pub fn evaluated_numbers_are_in_range()
    ensures globals { EvaluatedGlobalsAreInRange }
    ensures expressible { EvaluatedGlobalsAreExpressible }
    ensures memories { EvaluatedMemoriesAreInRange }
{
    valid_where_items_hold();
}
