// A law: the numbers of what is left of a module are in the ranges of their types, if those of the
// module are.

ghost use Rattle.std.specs.Prelude.{IsTrue};
ghost use Rattle.wasm_tree.specs.declared.module.Module.{Module};
ghost use Rattle.wasm_tree.specs.MemoryZero.{memory_zero_funcs};
ghost use Rattle.wasm_tree.specs.Bounds.{IsBounded};
ghost use Rattle.wasm_valid.specs.Validity.{IsSingle, IsValid};
ghost use Rattle.wasm_write_proof.specs.Ranges.{InRange};
ghost use Rattle.dce_spec.specs.Marks.{Marks};
ghost use Rattle.dce_spec.specs.Swept.{swept};

use wasm_valid::valid_code_names_memory_zero;
use wasm_valid_proof::{numbers_stay_in_range, valid_modules_are_in_range};

/// Let what any marks leave of a module be valid and bounded, with at most one memory. Then its
/// numbers are in range and its names in UTF-8 if those of the module are (`range`), because what
/// it names exists and its other numbers come from the module; and its bodies name no memory but
/// memory 0 (`memory`).
pub fn swept_modules_are_in_range()
    ensures range { (k : Marks) (m : Module) → InRange m → IsValid (swept k m) → IsSingle (swept k m) → IsBounded (swept k m) → InRange (swept k m) }
    ensures memory { (k : Marks) (m : Module) → IsValid (swept k m) → IsSingle (swept k m) → IsBounded (swept k m) → IsTrue (memory_zero_funcs (swept k m).funcs) }
{
    valid_modules_are_in_range();
    numbers_stay_in_range();
    valid_code_names_memory_zero();
}
