// A law: a merged module is observationally equivalent to its parts, linked by name.

ghost use Rattle.merge_proof.specs.MergeEquivalence.{MergedModuleEquivalent};

use crate::valid::{
    linked_imports_have_ends, maps_have_entries, merged_modules_are_valid, starts_take_nothing,
};
use index_remap::steps_agree;
use wasm_meaning::definitions_are_counted_by_part;
use wasm_valid::valid_where_items_hold;
use world_simulation::{
    allocated_stores_have_what_parts_define, corresponding_worlds_have_equal_traces,
    declared_references_are_one_more_segment, imports_of_one_module_denote_the_environment,
    index_spaces_list_imports_and_definitions, one_start_for_several_equivalent,
    own_entities_correspond, related_instances_have_equal_traces, remapped_code_is_related,
    segments_are_listed_by_part,
};

/// If valid parts can be joined, the merged module alone is observationally equivalent to the
/// parts, linked by name and instantiated at once, in at most four more steps (WebAssembly Core
/// 2.0, section 4.5.4, for several modules together).
pub fn merged_module_equivalent()
    ensures equivalent { MergedModuleEquivalent }
{
    valid_where_items_hold();
    steps_agree();
    definitions_are_counted_by_part();
    imports_of_one_module_denote_the_environment();
    index_spaces_list_imports_and_definitions();
    allocated_stores_have_what_parts_define();
    declared_references_are_one_more_segment();
    segments_are_listed_by_part();
    own_entities_correspond();
    remapped_code_is_related();
    related_instances_have_equal_traces();
    corresponding_worlds_have_equal_traces();
    one_start_for_several_equivalent();
    merged_modules_are_valid();
    maps_have_entries();
    linked_imports_have_ends();
    starts_take_nothing();
}
