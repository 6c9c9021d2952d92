// The law that in both modules of a split each number is in the range of its type and each name
// is UTF-8, if that is so in the input module.

ghost use Rattle.std.specs.Prelude.{◌≡◌, ℕ, ◌^◌, ◌≤◌, ◌<◌, List, length, None, IsTrue, IsUtf8};
ghost use Rattle.wasm_tree.specs.declared.module.Module.{Module};
ghost use Rattle.wasm_tree.specs.MemoryZero.{memory_zero_funcs};
ghost use Rattle.wasm_tree.specs.Bounds.{IsBounded};
ghost use Rattle.wasm_valid.specs.Validity.{IsSingle, IsValid};
ghost use Rattle.wasm_write_proof.specs.Ranges.{InRange};
ghost use Rattle.module_limits.specs.Counts.{over_limit};
ghost use Rattle.split_spec.specs.declared.names.SplitNames.{SplitNames};
ghost use Rattle.split_spec.specs.Primary.{primary_with};
ghost use Rattle.split_spec.specs.Secondary.{secondary_with};

use module_limits::counts_are_within_where_none_is_over;
use wasm_valid::valid_code_names_memory_zero;
use wasm_valid_proof::{numbers_stay_in_range, valid_modules_are_in_range};

/// Proves that in both modules of a split each number is in the range of its type and each name is
/// UTF-8 (`primary`, `secondary`), and that their bodies name no memory but memory 0
/// (`primary_memory`, `secondary_memory`).
///
/// In all four the module that the split makes has to be valid and bounded, with at most one
/// memory. `primary` and `secondary` also need that the input module is bounded and has its numbers
/// in range and its names in UTF-8, that the names that the split is given are UTF-8, and that the
/// slots are below 2^31, so that an `i32.const` can have their numbers (WebAssembly Core 2.0,
/// section 5.4.7). Fewer than 2^31 functions move if no count of the primary module is above its
/// limit, because it imports a placeholder for each (`few`).
pub fn split_modules_are_in_range()
    ensures few { (namespace : ℕ → List ℕ) (prefix : List ℕ) (m : Module) (moved : List ℕ) → over_limit (primary_with namespace prefix m moved) ≡ None → length moved < 2 ^ 31 }
    ensures primary { (namespace : ℕ → List ℕ) (prefix : List ℕ) (m : Module) (moved : List ℕ) → ((slot : ℕ) → IsUtf8 (namespace slot)) → IsUtf8 prefix
        → InRange m → IsBounded m → length moved ≤ 2 ^ 31
        → IsValid (primary_with namespace prefix m moved) → IsSingle (primary_with namespace prefix m moved) → IsBounded (primary_with namespace prefix m moved)
        → InRange (primary_with namespace prefix m moved) }
    ensures primary_memory { (namespace : ℕ → List ℕ) (prefix : List ℕ) (m : Module) (moved : List ℕ)
        → IsValid (primary_with namespace prefix m moved) → IsSingle (primary_with namespace prefix m moved) → IsBounded (primary_with namespace prefix m moved)
        → IsTrue (memory_zero_funcs (primary_with namespace prefix m moved).funcs) }
    ensures secondary { (names : SplitNames) (m : Module) (moved own : List ℕ) (before : ℕ) → IsUtf8 names.import_namespace → IsUtf8 names.export_prefix
        → InRange m → IsBounded m → length moved ≤ 2 ^ 31 → before < 2 ^ 31
        → IsValid (secondary_with names m moved own before) → IsSingle (secondary_with names m moved own before) → IsBounded (secondary_with names m moved own before)
        → InRange (secondary_with names m moved own before) }
    ensures secondary_memory { (names : SplitNames) (m : Module) (moved own : List ℕ) (before : ℕ)
        → IsValid (secondary_with names m moved own before) → IsSingle (secondary_with names m moved own before) → IsBounded (secondary_with names m moved own before)
        → IsTrue (memory_zero_funcs (secondary_with names m moved own before).funcs) }
{
    valid_modules_are_in_range();
    numbers_stay_in_range();
    valid_code_names_memory_zero();
    counts_are_within_where_none_is_over();
}
