ghost use Rattle.std.specs.Prelude.{◌≡◌, ◌⊎◌, Ok, Err, IfOk, IfErr};
ghost use Rattle.dce_spec.specs.Closed.{AreClosed};
ghost use Rattle.dce_spec.specs.Swept.{renumbered_kept};
ghost use Rattle.wasm_tree.specs.Bounds.{IsBounded};
ghost use Rattle.wasm_tree.specs.declared.module.Module.{Module as Tree};
ghost use Rattle.wasm_valid.specs.Validity.{IsValid};
ghost use Rattle.dce_proof.specs.SweptModuleEquivalence.{ObservationallyEquivalent};
ghost use Rattle.dce_sweep.specs.declared.faults.SweepFault.TheVariants.{NoMemory as OutOfMemory};
ghost use Rattle.dce_spec.specs.Reached.{marks_of};
ghost use Rattle.dce_sweep.specs.Sweeps.{Sweeps};

use crate::faults::SweepFault;
use crate::kept::kept_module;
use crate::places::sweep_map;
use dce_graph::Reached;
use dce_proof::{swept_module_equivalent, swept_modules_are_valid, what_is_kept_fits};
use index_remap::{declare_refs, renumber_in_place};
use module_limits::over_limit;
use std::alloc::Global;
use wasm_bytes::NoMemory;
use wasm_tree::Module;
use wasm_valid::Valid;

// Returns what is kept of the module, with its new indices.
fn renumbered(alloc: Global, from: Module, marks: &Reached) -> Result<Module, NoMemory>
    requires valid { IsValid from }
    requires bounded { IsBounded from }
    requires closed { AreClosed (marks_of marks.now) from }
    ensures { IfOk result (λ tree. tree ≡ renumbered_kept (marks_of marks.now) from) }
{
    what_is_kept_fits();
    let map = sweep_map(alloc, &from, marks)?;
    let mut tree = kept_module(alloc, from, marks)?;
    renumber_in_place(&mut tree, &map);
    Ok(tree)
}

/// Removes from a module what is not marked. What is marked must name only what is marked
/// (`closed`), so that the result is valid.
///
/// Functions, globals, imports and exports that are not marked are left out, the others keep their
/// order, and each index becomes the one in what is left. Types, tables, memories and segments
/// stay, but a declarative segment keeps only the items that are `ref.func` of a kept function.
/// Functions that `ref.func` names in a body and that nothing else declares any more are declared
/// in one more element segment, the last (WebAssembly Core 2.0, sections 2.5 and 3.4.10). What is
/// kept is moved, and its indices are replaced in place; only the items that a declarative segment
/// keeps are copied.
///
/// The result is observationally equivalent, step by step, to the whole module with a view of only
/// the kept exports, in every environment that links the latter (`behaves`).
///
/// Unless memory runs out, the call fails exactly if a count of the result is above its limit, with
/// `TooMany`, and reports the first such count, in the order types, imports, functions, tables,
/// memories, globals, exports, element segments, data segments. `NoMemory` means that memory ran
/// out and says nothing about the module. The call consumes the input, also if it fails.
pub fn sweep(alloc: Global, input: Valid, marks: &Reached) -> Result<Valid, SweepFault>
    requires closed { AreClosed (marks_of marks.now) input }
    ensures swept { IfOk result (λ valid. Sweeps (marks_of marks.now) input (Ok valid)) }
    ensures fault { IfErr result (λ f. (f ≡ OutOfMemory) ⊎ Sweeps (marks_of marks.now) input (Err f)) }
    ensures behaves { IfOk result (λ valid. ObservationallyEquivalent (marks_of marks.now) input valid) }
{
    swept_modules_are_valid();
    swept_module_equivalent();
    what_is_kept_fits();
    let mut module = renumbered(alloc, input.into_module(), marks)?;
    declare_refs(alloc, &mut module)?;
    match over_limit(&module) {
        Some(which) => Err(SweepFault::TooMany { which }),
        None => Ok(Valid::known(module)),
    }
}
