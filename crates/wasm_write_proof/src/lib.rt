//! Laws of the canonical encoding of a module: it encodes the module.
//!
//! Files:
//!
//! - `specs/Ranges`: What holds of each tree that a program has, because its numbers have types
//!   and its names are text: each number is in the range of its type, and each name is UTF-8.
//! - `specs/SmallSizes`: Each vector of a module and each size in its canonical encoding is below
//!   2^32 (Core 2.0, 5.1.3 and 5.5.2).
//! - `specs/TreeLimits`: What is limited in a file is within its limits in the tree: the counts of
//!   the module, the parameters and results of types, and the locals and nesting of functions.
#![tactic(auto)]

ghost use Rattle.std.specs.Prelude.{◌≡◌, true, ℕ, List, ◌<◌, ◌^◌, length, false, IsTrue};
ghost use Rattle.wasm_tree.specs.declared.module.Module.{Module as Tree};
ghost use Rattle.wasm_tree.specs.declared.space.Operand.{Operand as Named};
ghost use Rattle.wasm_tree.specs.MemoryZero.{is_memory_zero, memory_zero_funcs};
ghost use Rattle.wasm_read_spec.specs.Files.{Spells, Within};
ghost use Rattle.wasm_write_spec.specs.Plain.{plain};
ghost use Rattle.wasm_write_proof.specs.Ranges.{InRange, NumbersInside, NumbersStay, small_operand, spelled_operand};
ghost use Rattle.wasm_write_proof.specs.SmallSizes.{SmallSizes};
ghost use Rattle.wasm_write_proof.specs.TreeLimits.{WithinLimits};

use wasm_bytes::{encoded_numbers_are_in_range, shortest_encodings};
use wasm_read_spec::section_encodings_are_unambiguous;
use wasm_tree::operands_pass_layer_by_layer;

/// The canonical encoding of a tree encodes the tree if each number is in the range of its type,
/// each name is UTF-8, its bodies name no memory except memory 0, and its vectors and the encoded
/// sizes are below 2^32 (`spells`). If also its counts, its nesting and its locals are within the
/// limits, so is the encoding (`within`). Then, if the encoding has fewer than 2^32 bytes, `read`
/// returns the tree unless memory runs out.
pub fn canonical_encoding_encodes()
    ensures spells { (m : Tree) → InRange m → IsTrue (memory_zero_funcs m.funcs) → SmallSizes m → Spells (plain m) m false }
    ensures within { (m : Tree) → InRange m → IsTrue (memory_zero_funcs m.funcs) → SmallSizes m → WithinLimits m → Within (plain m) false }
{
    section_encodings_are_unambiguous();
    shortest_encodings();
    operands_pass_layer_by_layer();
}

/// In a tree that bytes encode, each number is in the range of its type, and each name is UTF-8.
/// (That its bodies name no memory except memory 0 is a law of wasm_read_spec.)
pub fn encoded_trees_are_in_range()
    ensures { (bytes : List ℕ) (m : Tree) → Spells bytes m false → InRange m }
{
    encoded_numbers_are_in_range();
    operands_pass_layer_by_layer();
}

/// If the canonical encoding of a tree has fewer than 2^32 bytes, as it has if `fits` returns true,
/// each vector of the tree and each encoded size is below 2^32.
pub fn trees_that_fit_have_small_sizes()
    ensures { (m : Tree) → length (plain m) < 2 ^ 32 → SmallSizes m }
{}

/// An operand that can be encoded in a module with at most one memory is below 2^32 and is no
/// memory except memory 0.
pub fn encoded_operands_are_in_range()
    ensures range { (o : Named) → spelled_operand o ≡ true → small_operand o ≡ true }
    ensures memory { (o : Named) → spelled_operand o ≡ true → is_memory_zero o ≡ true }
{}

/// The numbers of an instruction that are no operands (labels, locals, constants, alignments and
/// offsets) are in range exactly if its own are and those of the instructions inside it.
pub fn numbers_are_in_range_layer_by_layer()
    ensures { NumbersInside }
{}

/// Renumbering code does not change whether its numbers that are no operands (labels, locals,
/// constants, alignments and offsets) are in range.
pub fn renumbering_keeps_numbers_in_range()
    ensures { NumbersStay }
{}
