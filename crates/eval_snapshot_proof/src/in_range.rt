// Laws that the numbers of a snapshot are in the ranges of their types, as those of the module
// are.

ghost use Rattle.std.specs.Prelude.{Bool, List, ℕ, IsTrue};
ghost use Rattle.wasm_bytes.specs.Reading.{IsBytes};
ghost use Rattle.wasm_tree.specs.declared.module.Module.{Module};
ghost use Rattle.wasm_tree.specs.MemoryZero.{memory_zero_funcs};
ghost use Rattle.wasm_tree.specs.Bounds.{IsBounded};
ghost use Rattle.wasm_valid.specs.Validity.{IsSingle, IsValid};
ghost use Rattle.wasm_read_spec.specs.Files.{Spells};
ghost use Rattle.wasm_write_proof.specs.Ranges.{InRange};
ghost use Rattle.wasm_meaning.specs.State.{Text};
ghost use Rattle.eval_spec.specs.State.{State};
ghost use Rattle.eval_snapshot_proof.specs.Ranges.{BeginsInRange};
ghost use Rattle.eval_snapshot_spec.specs.After.{IsAfter};
ghost use Rattle.eval_snapshot_spec.specs.Snapshot.{snapshot};

use crate::numbers::evaluated_numbers_are_in_range;
use wasm_bytes::encoded_numbers_are_in_range;
use wasm_read_spec::framing_is_decided;
use wasm_valid::valid_code_names_memory_zero;
use wasm_valid_proof::{numbers_stay_in_range, valid_modules_are_in_range};

/// States that the snapshot of a valid module after evaluated constructors has its numbers in range
/// and its names in UTF-8, if the module has, its data segments hold bytes, its tables have fewer
/// than 2^32 slots, and the snapshot is valid, has at most one memory and is bounded (`range`). So
/// each i32 value of a global, and each offset in the memory, can be that of an `i32.const`
/// (WebAssembly Core 2.0, section 5.4.7). The bodies of such a snapshot name no memory but memory 0
/// (`memory`).
pub fn snapshots_are_in_range()
    ensures range { (m : Module) (s : State) (evaluated kept : List Text) → IsValid m → InRange m → BeginsInRange m → IsAfter m evaluated s
        → IsValid (snapshot m s evaluated kept) → IsSingle (snapshot m s evaluated kept) → IsBounded (snapshot m s evaluated kept) → InRange (snapshot m s evaluated kept) }
    ensures memory { (m : Module) (s : State) (evaluated kept : List Text)
        → IsValid (snapshot m s evaluated kept) → IsSingle (snapshot m s evaluated kept) → IsBounded (snapshot m s evaluated kept) → IsTrue (memory_zero_funcs (snapshot m s evaluated kept).funcs) }
{
    evaluated_numbers_are_in_range();
    valid_modules_are_in_range();
    numbers_stay_in_range();
    valid_code_names_memory_zero();
}

/// States that a tree that bytes encode has bytes in its data segments and fewer than 2^32 slots in
/// its tables (sections 5.5.7 and 5.5.14).
pub fn encoded_trees_begin_in_range()
    ensures { (bytes : List ℕ) (m : Module) (many : Bool) → IsBytes bytes → Spells bytes m many → BeginsInRange m }
{
    framing_is_decided();
    encoded_numbers_are_in_range();
}
