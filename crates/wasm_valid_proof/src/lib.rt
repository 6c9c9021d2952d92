//! Laws that the numbers of modules are in the ranges of their types: of any valid module, and of
//! one with other indices or with references declared.
#![tactic(auto)]

ghost use Rattle.std.specs.Prelude.{List, IsTrue};
ghost use Rattle.wasm_tree.specs.declared.module.Module.{Module};
ghost use Rattle.wasm_tree.specs.Bounds.{IsBounded};
ghost use Rattle.wasm_valid.specs.Validity.{IsSingle, IsValid};
ghost use Rattle.wasm_write_proof.specs.Ranges.{InRange};
ghost use Rattle.wasm_valid_proof.specs.Numbers.{ConstantNumbersAreInRange, NumbersInRange, OwnNumbersAreInRange, RenumberedNumbersAreInRange, DeclaredNumbersAreInRange};

use wasm_tree::operands_pass_layer_by_layer;
use wasm_valid::valid_where_items_hold;
use wasm_write_proof::{encoded_operands_are_in_range, renumbering_keeps_numbers_in_range};

/// Let a module be valid and bounded, with at most one memory. Then it is in range if what validity
/// does not bound is: its numbers that are no indices of its index spaces, and its names. Each
/// index is in range because what it names exists.
pub fn valid_modules_are_in_range()
    ensures { (m : Module) → IsValid m → IsSingle m → IsBounded m → NumbersInRange m → InRange m }
{
    valid_where_items_hold();
    operands_pass_layer_by_layer();
    encoded_operands_are_in_range();
}

/// If a module is in range, so is what validity does not bound of it (`own`). That stays in range
/// when all indices are replaced by any map (`renumbered`), also in one constant expression
/// (`constants`), and when the functions are declared that `ref.func` names and nothing else
/// declares (`declared`).
pub fn numbers_stay_in_range()
    ensures own { OwnNumbersAreInRange }
    ensures renumbered { RenumberedNumbersAreInRange }
    ensures constants { ConstantNumbersAreInRange }
    ensures declared { DeclaredNumbersAreInRange }
{
    renumbering_keeps_numbers_in_range();
}
