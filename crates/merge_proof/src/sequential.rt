// A law: sequential instantiation of parts is observationally equivalent to their instantiation at
// once.

ghost use Rattle.merge_proof.specs.SequentialEquivalence.{SequentialInstantiationIsEquivalent};

use crate::valid::linked_imports_have_ends;
use run_simulation::{related_runs_have_equal_traces, related_steps_agree};
use wasm_meaning::{
    definitions_are_counted_by_part, found_exports_are_there, start_depends_only_on_its_frames,
};
use wasm_valid::valid_where_items_hold;
use world_simulation::{
    allocated_stores_have_what_parts_define, index_spaces_list_imports_and_definitions,
    own_entities_correspond, store_extension_is_a_preorder, stores_are_extended,
};

/// For a world of at least one part, all valid, sequential instantiation, in which each part has
/// its segments and its start before the next (WebAssembly Core 2.0, section 4.5.4), is
/// observationally equivalent to instantiation at once, in at most four more steps for each part.
/// The premises are that the environment links the world at once, each joined import leads to an
/// earlier part, no part after one with a start has an active segment, and no segment traps.
pub fn sequential_instantiation_equivalent()
    ensures equivalent { SequentialInstantiationIsEquivalent }
{
    valid_where_items_hold();
    start_depends_only_on_its_frames();
    store_extension_is_a_preorder();
    stores_are_extended();
    related_steps_agree();
    related_runs_have_equal_traces();
    own_entities_correspond();
    index_spaces_list_imports_and_definitions();
    allocated_stores_have_what_parts_define();
    definitions_are_counted_by_part();
    found_exports_are_there();
    linked_imports_have_ends();
}
