// Laws of valid modules.

ghost use Rattle.std.specs.Prelude.{IsTrue};
ghost use Rattle.wasm_tree.specs.declared.module.Module.{Module};
ghost use Rattle.wasm_tree.specs.MemoryZero.{memory_zero_funcs};
ghost use Rattle.wasm_valid.specs.First.{ValidOrFirstInvalid};
ghost use Rattle.wasm_valid.specs.Validity.{IsValid, IsSingle, ValidWhereItemsHold};

use wasm_tree::operands_pass_layer_by_layer;
use wasm_valid_bodies::bodies_are_well_typed_or_not;

/// A module is valid exactly if each of its items is. The number of memories does not count here.
pub fn valid_where_items_hold()
    ensures { ValidWhereItemsHold }
{}

/// In a valid module with at most one memory, each memory index in the bodies is 0.
pub fn valid_code_names_memory_zero()
    ensures { (m : Module) → IsValid m → IsSingle m → IsTrue (memory_zero_funcs m.funcs) }
{
    operands_pass_layer_by_layer();
}

/// Every module is valid, or has a first invalid item (WebAssembly Core 2.0, section 3.4), with or
/// without the limit of one memory.
pub fn modules_are_valid_or_have_a_first_invalid_item()
    ensures { ValidOrFirstInvalid }
{
    bodies_are_well_typed_or_not();
}
