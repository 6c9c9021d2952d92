// Laws: what closed marks leave of a valid module is observationally equivalent to the module,
// seen through the exports that are kept; so is a module without one function that nothing else
// names; and an environment that links the module links it with a view of only the kept exports.

ghost use Rattle.dce_proof.specs.SmallerViews.{SmallerViewsLink};
ghost use Rattle.dce_proof.specs.SweptModuleEquivalence.{SweptModuleEquivalent};
ghost use Rattle.dce_proof.specs.UnreachableFunction.{UnreachableFunctionRemovalEquivalent};

use crate::valid::what_is_kept_fits;
use index_remap::steps_agree;
use index_remap_proof::renumbering_keeps_typing;
use wasm_tree::operands_pass_layer_by_layer;
use world_simulation::{
    constants_of_one_module_read_the_environment, corresponding_worlds_have_equal_traces,
    declared_references_are_one_more_segment, imports_of_one_module_denote_the_environment,
};

/// What closed marks leave of a valid module is observationally equivalent, step by step, to the
/// module with a view of only the kept exports, in each environment that links the latter
/// (WebAssembly Core 2.0, section 2.5): nothing that is kept names what was removed.
pub fn swept_module_equivalent()
    ensures { SweptModuleEquivalent }
{
    what_is_kept_fits();
    renumbering_keeps_typing();
    operands_pass_layer_by_layer();
    steps_agree();
    imports_of_one_module_denote_the_environment();
    constants_of_one_module_read_the_environment();
    declared_references_are_one_more_segment();
    corresponding_worlds_have_equal_traces();
}

/// An environment that links a module alone links it with a view of only the kept exports (`links`).
/// So the equivalence of a sweep holds in each environment that links the module.
pub fn smaller_views_link()
    ensures links { SmallerViewsLink }
{}

/// A module is observationally equivalent, step by step, to itself without one function that
/// nothing else of it names, in each environment that links it (WebAssembly Core 2.0, section
/// 2.5.1). The functions behind this one move down by one, declarative segments keep only their
/// references to other functions, and references are declared if they have to be.
pub fn unreachable_function_removal_equivalent()
    ensures equivalent { UnreachableFunctionRemovalEquivalent }
{
    what_is_kept_fits();
    operands_pass_layer_by_layer();
    steps_agree();
    imports_of_one_module_denote_the_environment();
    constants_of_one_module_read_the_environment();
    declared_references_are_one_more_segment();
    corresponding_worlds_have_equal_traces();
}
