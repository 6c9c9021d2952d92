ghost use Rattle.std.specs.Prelude.{◌≡◌, ◌⊎◌, true, Ok, Err, None, IfOk, IfErr};
ghost use Rattle.merge_spec.specs.declared.faults.JoinFault.TheVariants.{NoMemory as OutOfMemory};
ghost use Rattle.merge_spec.specs.Faults.{link_fault};
ghost use Rattle.merge_spec.specs.Joined.{FewInAll, Joins};
ghost use Rattle.merge_spec.specs.Linked.{AreLinks};
ghost use Rattle.merge_spec.specs.Parts.{named_modules};
ghost use Rattle.merge_proof.specs.MergeEquivalence.{ObservationallyEquivalent};
ghost use Rattle.merge_spec.specs.View.{linked_world};
ghost use Rattle.merge_proof.specs.SequentialEquivalence.{SequentialInstantiationEquivalent};

use crate::linked::parts_hold;
use crate::tree::joined_tree;
use merge_names::Mode;
use merge_proof::{
    merged_module_equivalent, merged_modules_are_valid, sequential_instantiation_equivalent,
};
use merge_spec::{JoinFault, Links, Part};
use std::alloc::Global;
use wasm_bytes::Items;
use wasm_valid::Valid;

/// Joins linked parts into one module.
///
/// `links` must be what `merge_link::resolve` returned for `parts` (`links`, `linked`). There must
/// be fewer than 2^32 parts, and for each index space fewer than 2^32 imports and definitions in
/// all parts together, with one function more for the starts (`few`).
///
/// The types of the module are the distinct types of the parts, its imports are the staying
/// imports, and its functions, tables, memories, globals and segments are those that the parts
/// define, part by part. Each index is the one in the merged index spaces, and a constant
/// expression that reads a joined global becomes what it reads. If several parts have a start, the
/// start of the module is one more function, which calls theirs in the order of the parts. Exports
/// have the names that `mode` gives them, and functions that `ref.func` names are declared
/// (WebAssembly Core 2.0, sections 2.5 and 3.4.10).
///
/// The module is valid and observationally equivalent to the parts, linked by name and instantiated
/// at once, in at most four more steps (`equivalent`; section 4.5.4 for several modules together).
/// Sequential instantiation of the parts is observationally equivalent to instantiation at once
/// (`sequential`) if there is at least one part, each joined import leads to an earlier part, no
/// part after one with a start has an active segment, no segment traps, and the environment links
/// all parts at once.
///
/// Unless memory runs out, the call fails with `ExportConflict` exactly if `mode` is `Refuse` and
/// an export name repeats an earlier one, and reports the first that does; otherwise with `TooMany`
/// exactly if a count of the merged module is above its limit, and reports the first such count, in
/// the order types, imports, functions, tables, memories, globals, exports, element segments, data
/// segments. `NoMemory` means that memory ran out and says nothing about the parts. The call
/// consumes the parts, also if it fails.
pub fn join(
    alloc: Global,
    parts: Items<Part>,
    links: &Links,
    mode: Mode,
) -> Result<Valid, JoinFault>
    requires links { AreLinks (named_modules parts) links.now }
    requires linked { link_fault (named_modules parts) true ≡ None }
    requires few { FewInAll (named_modules parts) }
    ensures joined { IfOk result (λ valid. Joins (named_modules parts) mode (Ok valid)) }
    ensures equivalent { IfOk result (λ valid. ObservationallyEquivalent (named_modules parts) mode valid) }
    ensures sequential { IfOk result (λ valid. SequentialInstantiationEquivalent (linked_world (named_modules parts) mode)) }
    ensures fault { IfErr result (λ f. (f ≡ OutOfMemory) ⊎ Joins (named_modules parts) mode (Err f)) }
{
    merged_modules_are_valid();
    merged_module_equivalent();
    sequential_instantiation_equivalent();
    parts_hold(parts.as_slice());
    let tree = joined_tree(alloc, parts, links, mode)?;
    Ok(Valid::known(tree))
}
