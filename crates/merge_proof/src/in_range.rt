// The law that the numbers of merged modules are in the ranges of their types.

ghost use Rattle.std.specs.Prelude.{List, IsTrue};
ghost use Rattle.wasm_tree.specs.MemoryZero.{memory_zero_funcs};
ghost use Rattle.wasm_tree.specs.Bounds.{IsBounded};
ghost use Rattle.wasm_valid.specs.Validity.{IsSingle, IsValid};
ghost use Rattle.base_lists.specs.Every.{Every};
ghost use Rattle.wasm_meaning.specs.Linking.{Part};
ghost use Rattle.merge_names.specs.declared.mode.Mode.{Mode};
ghost use Rattle.merge_spec.specs.Joined.{joined_module};
ghost use Rattle.wasm_write_proof.specs.Ranges.{InRange};

use wasm_valid::valid_code_names_memory_zero;
use wasm_valid_proof::{numbers_stay_in_range, valid_modules_are_in_range};

/// Let a merged module be valid and bounded, with at most one memory. Then its numbers are in range
/// and its names in UTF-8 if those of the parts are (`range`), because what it names exists and its
/// other numbers come from some part; and its bodies name no memory but memory 0 (`memory`).
pub fn merged_modules_are_in_range()
    ensures range { (parts : List Part) (mode : Mode) → Every (λ p. InRange p.«module») parts
        → IsValid (joined_module parts mode) → IsSingle (joined_module parts mode) → IsBounded (joined_module parts mode)
        → InRange (joined_module parts mode) }
    ensures memory { (parts : List Part) (mode : Mode) → IsValid (joined_module parts mode) → IsSingle (joined_module parts mode)
        → IsBounded (joined_module parts mode) → IsTrue (memory_zero_funcs (joined_module parts mode).funcs) }
{
    valid_modules_are_in_range();
    valid_code_names_memory_zero();
    numbers_stay_in_range();
}
