// A law: marks on exactly what is reached are closed.

ghost use Rattle.dce_proof.specs.ReachedMarks.{ReachedMarksAreClosed};

use index_remap_proof::renumbering_keeps_typing;
use wasm_tree::operands_pass_layer_by_layer;

/// Marks on exactly what a path from a root of a graph and a valid module meets are closed: what is
/// marked of the module names only what is marked (WebAssembly Core 2.0, section 2.5.1).
pub fn reached_marks_are_closed()
    ensures closed { ReachedMarksAreClosed }
{
    operands_pass_layer_by_layer();
    renumbering_keeps_typing();
}
