// The laws that both modules of a split are valid, that their remaps fit, and how many imports and
// functions they have.

ghost use Rattle.std.specs.Prelude.{◌≡◌, ◌+◌, ◌≤◌, ℕ, List, length, None, IsTrue};
ghost use Rattle.wasm_tree.specs.declared.module.Module.{Module};
ghost use Rattle.wasm_tree.specs.Bounds.{IsBounded};
ghost use Rattle.wasm_tree.specs.Spaces.{funcs_of};
ghost use Rattle.wasm_valid.specs.Validity.{IsSingle, IsValid};
ghost use Rattle.index_remap.specs.Renumbered.{fits_tree, renumbered_tree};
ghost use Rattle.module_limits.specs.Counts.{over_limit};
ghost use Rattle.split_spec.specs.declared.names.SplitNames.{SplitNames};
ghost use Rattle.split_spec.specs.FaultOrder.{prefix_taken};
ghost use Rattle.split_spec.specs.Primary.{primary_map, primary_tree, primary_with};
ghost use Rattle.split_spec.specs.Secondary.{secondary_map, secondary_tree, secondary_with};
ghost use Rattle.split_proof.specs.RenumberedCalls.{CallsAreReplaced};
ghost use Rattle.split_proof.specs.Premises.{CanMove};

use index_remap::steps_agree;
use index_remap_proof::{declared_trees_are_valid, renumbering_keeps_typing};
use module_limits::counts_are_within_where_none_is_over;
use wasm_tree::operands_pass_layer_by_layer;
use wasm_valid::valid_where_items_hold;

/// Proves that replacing calls in code and then renumbering it gives the renumbered code, in which
/// the renumbered replacements are in place of the calls.
pub fn replacing_calls_commutes_with_renumbering()
    ensures { CallsAreReplaced }
{}

/// Proves that the primary module of a split is valid, whatever the namespaces of its placeholders
/// (`valid`, WebAssembly Core 2.0, section 3.4).
///
/// The premises are that the input module is valid and bounded, that the functions `moved` can
/// move, and that no export has an added name. The primary module has at most one memory if the
/// input module has (`single`), and is bounded if none of its counts is above its limit
/// (`bounded`); these need only some of the premises.
pub fn primary_modules_are_valid()
    ensures valid { (namespace : ℕ → List ℕ) (prefix : List ℕ) (m : Module) (moved : List ℕ) → IsValid m → IsBounded m → CanMove m moved → prefix_taken prefix m moved ≡ None →
        IsValid (primary_with namespace prefix m moved) }
    ensures single { (namespace : ℕ → List ℕ) (prefix : List ℕ) (m : Module) (moved : List ℕ) → IsValid m → CanMove m moved → IsSingle m → IsSingle (primary_with namespace prefix m moved) }
    ensures bounded { (namespace : ℕ → List ℕ) (prefix : List ℕ) (m : Module) (moved : List ℕ) → IsValid m → IsBounded m → CanMove m moved → over_limit (primary_with namespace prefix m moved) ≡
        None → IsBounded (primary_with namespace prefix m moved) }
{
    operands_pass_layer_by_layer();
    steps_agree();
    valid_where_items_hold();
    declared_trees_are_valid();
    counts_are_within_where_none_is_over();
    replacing_calls_commutes_with_renumbering();
}

/// Proves the same of a secondary module, for any `moved`, `before` and names (`valid`, `single`,
/// `bounded`). The premises are that the input module is valid, that the functions `own` can move,
/// and for `bounded` that the input module is bounded.
pub fn secondary_modules_are_valid()
    ensures valid { (names : SplitNames) (m : Module) (moved own : List ℕ) (before : ℕ) → IsValid m → CanMove m own → IsValid (secondary_with names m moved own before) }
    ensures single { (names : SplitNames) (m : Module) (moved own : List ℕ) (before : ℕ) → IsValid m → CanMove m own → IsSingle m → IsSingle (secondary_with names m moved own before) }
    ensures bounded { (names : SplitNames) (m : Module) (moved own : List ℕ) (before : ℕ) → IsValid m → IsBounded m → CanMove m own → over_limit (secondary_with names m moved own before) ≡ None →
        IsBounded (secondary_with names m moved own before) }
{
    operands_pass_layer_by_layer();
    steps_agree();
    valid_where_items_hold();
    declared_trees_are_valid();
    counts_are_within_where_none_is_over();
    replacing_calls_commutes_with_renumbering();
}

/// Proves that the remap of each module has an entry for each index that is named in the tree that
/// it renumbers (`primary`, `secondary`). The premises are that the input module is valid, and that
/// the functions `moved`, or `own`, can move.
pub fn maps_of_a_split_fit()
    ensures primary { (namespace : ℕ → List ℕ) (prefix : List ℕ) (m : Module) (moved : List ℕ) → IsValid m → CanMove m moved →
        IsTrue (fits_tree (primary_map m moved) (primary_tree namespace prefix m moved)) }
    ensures secondary { (names : SplitNames) (m : Module) (moved own : List ℕ) (before : ℕ) → IsValid m → CanMove m own →
        IsTrue (fits_tree (secondary_map m moved own) (secondary_tree names m moved own before)) }
{
    operands_pass_layer_by_layer();
    steps_agree();
    valid_where_items_hold();
    renumbering_keeps_typing();
    replacing_calls_commutes_with_renumbering();
}

/// Proves how many imports and functions the modules of a split have.
///
/// The primary module imports what the input module imports, and a placeholder for each function
/// that moves (`imports`). Each module, before its references are declared, has at most as many
/// functions as the input module and the functions that move: all of them for the primary module
/// (`primary`), its own for a secondary one (`secondary`). The premises of these two are that the
/// input module is valid and that the functions can move.
pub fn split_modules_are_counted()
    ensures imports { (namespace : ℕ → List ℕ) (prefix : List ℕ) (m : Module) (moved : List ℕ) → length (primary_with namespace prefix m moved).imports ≡ length m.imports + length moved }
    ensures primary { (namespace : ℕ → List ℕ) (prefix : List ℕ) (m : Module) (moved : List ℕ) → IsValid m → CanMove m moved →
        length (funcs_of (renumbered_tree (primary_map m moved) (primary_tree namespace prefix m moved))) ≤ length (funcs_of m) + length moved }
    ensures secondary { (names : SplitNames) (m : Module) (moved own : List ℕ) (before : ℕ) → IsValid m → CanMove m own →
        length (funcs_of (renumbered_tree (secondary_map m moved own) (secondary_tree names m moved own before))) ≤ length (funcs_of m) + length own }
{
    valid_where_items_hold();
}
