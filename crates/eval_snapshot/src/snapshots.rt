ghost use Rattle.std.specs.Prelude.{◌≡◌, ◌⊎◌, ◌<◌, ◌^◌, Some, Ok, Err, IfOk, IfErr};
ghost use Rattle.wasm_tree.specs.Bounds.{IsBounded};
ghost use Rattle.wasm_valid.specs.Validity.{IsValid};
ghost use Rattle.module_limits.specs.Counts as counts;
ghost use Rattle.eval_machine.specs.Kept.{MachineFits, state_in};
ghost use Rattle.eval_snapshot_spec.specs.Snapshot as spec;
ghost use Rattle.eval_snapshot_spec.specs.After.{IsAfter};
ghost use Rattle.eval_snapshot_proof.specs.EquivalenceLaws.{ObservationallyEquivalent};
ghost use Rattle.eval_snapshot.specs.Outcome.{SnapshotGives, first_counts as first_counts_of};
ghost use Rattle.eval_snapshot.specs.declared.faults.SnapshotFault.TheVariants.{NoMemory as OutOfMemory, TooMany as OverLimit};

use crate::faults::SnapshotFault;
use crate::in_range::begins_in_range;
use crate::tree::tree;
use eval_machine::Machine;
use eval_snapshot_proof::{evaluated_states_suit, snapshot_equivalent, snapshots_are_valid};
use index_remap::declare_refs;
use module_limits::over_limit;
use std::alloc::Global;
use wasm_bytes::{Items, Name};
use wasm_tree::{Module, Which};
use wasm_valid::Valid;

// Returns the first of the counts of types, imports and functions that is above its limit. If none
// is, a u32 can count the functions.
fn first_counts(module: &Module) -> Option<Which>
    ensures { result ≡ first_counts_of «module».now }
{
    if module.types.len() > Which::Types.limit() as usize {
        return Some(Which::Types);
    }
    if module.imports.len() > Which::Imports.limit() as usize {
        return Some(Which::Imports);
    }
    if module.funcs.len() > Which::Functions.limit() as usize {
        return Some(Which::Functions);
    }
    None
}

// Returns the module with the state that these constructors left, or the fault.
fn declared_tree(
    alloc: Global,
    from: Module,
    machine: &Machine,
    evaluated: &[Name],
    kept: &[Name],
) -> Result<Module, SnapshotFault>
    requires fits { MachineFits from machine.now }
    requires valid { IsValid from }
    requires bounded { IsBounded from }
    ensures tree { IfOk result (λ tree. tree ≡ spec.declared_snapshot from (state_in from machine.now) evaluated.now kept.now) }
    ensures fault { IfErr result (λ f. (f ≡ OutOfMemory) ⊎ ((w : _) × (f ≡ OverLimit w) ×
        (counts.over_limit (spec.declared_snapshot from (state_in from machine.now) evaluated.now kept.now) ≡ Some w))) }
{
    let mut tree = tree(alloc, from, machine, evaluated, kept)?;
    if let Some(which) = first_counts(&tree) {
        return Err(SnapshotFault::TooMany { which });
    }
    declare_refs(alloc, &mut tree)?;
    Ok(tree)
}

// Returns the same as `declared_tree`, or the module unchanged if no constructor was evaluated.
fn tree_after(
    alloc: Global,
    from: Module,
    machine: &Machine,
    evaluated: &[Name],
    kept: &[Name],
) -> Result<Module, SnapshotFault>
    requires fits { MachineFits from machine.now }
    requires valid { IsValid from }
    requires bounded { IsBounded from }
    ensures tree { IfOk result (λ tree. tree ≡ spec.snapshot from (state_in from machine.now) evaluated.now kept.now) }
    ensures fault { IfErr result (λ f. (f ≡ OutOfMemory) ⊎ SnapshotGives from (state_in from machine.now) evaluated.now kept.now (Err f)) }
{
    if evaluated.len() == 0 {
        return Ok(from);
    }
    declared_tree(alloc, from, machine, evaluated, kept)
}

/// Returns the snapshot of `input`: the module that begins in the state that the `evaluated`
/// constructors left in `machine`. If no constructor was evaluated, it is `input` unchanged, with
/// its start.
///
/// `machine` must have been booted with `input`, and then have run the constructors that
/// `evaluated` names by their exports, these and no others, in this order, each to its end (`fits`,
/// `after`). What a stopped constructor did was undone, and it is not among `evaluated`.
///
/// Each defined global is initialised with its value; if the value is unknown, the global keeps its
/// initialiser. The contents of the memory that the module defines become active data segments, in
/// which fewer than 256 zero bytes are in a row. If a body has `memory.init` or `data.drop`, the
/// old segments come first, at their indices: a passive one that was not dropped stays, and every
/// other becomes passive and empty. If no body does, they are left out. The start is removed. The
/// export of an evaluated constructor is removed too, unless its name is in `kept`: then it denotes
/// an additional function, the last one, with an empty body and the first type without parameters
/// and results. Functions that a `ref.func` in a body names and that nothing else declares any more
/// are declared by an additional element segment, the last one (WebAssembly Core 2.0, sections 2.5
/// and 3.4.10).
///
/// In each environment that links `input`, the snapshot is observationally equivalent, step by
/// step, to `input` after these constructors (`behaves`).
///
/// If memory runs out, the error is `NoMemory`, which says nothing about the snapshot. Otherwise
/// the error is `TooMany` exactly if a count of the snapshot is above its limit; it has the first
/// such count in the order types, imports, functions, tables, memories, globals, exports, element
/// segments, data segments. The call consumes `input`, also if it fails.
pub fn snapshot(
    alloc: Global,
    input: Valid,
    machine: &Machine,
    evaluated: &Items<Name>,
    kept: &Items<Name>,
) -> Result<Valid, SnapshotFault>
    requires fits { MachineFits input machine.now }
    requires after { IsAfter input evaluated.now (state_in input machine.now) }
    ensures tree { IfOk result (λ valid. SnapshotGives input (state_in input machine.now) evaluated.now kept.now (Ok valid)) }
    // In each environment that links the input, an embedder sees of the result what it sees of the
    // input after these constructors.
    ensures behaves { IfOk result (λ valid. ObservationallyEquivalent input evaluated.now kept.now valid) }
    ensures fault { IfErr result (λ f. (f ≡ OutOfMemory) ⊎ SnapshotGives input (state_in input machine.now) evaluated.now kept.now (Err f)) }
{
    snapshots_are_valid();
    evaluated_states_suit();
    snapshot_equivalent();
    begins_in_range(input.module());
    let made = tree_after(
        alloc,
        input.into_module(),
        machine,
        evaluated.as_slice(),
        kept.as_slice(),
    )?;
    match over_limit(&made) {
        Some(which) => Err(SnapshotFault::TooMany { which }),
        None => Ok(Valid::known(made)),
    }
}
