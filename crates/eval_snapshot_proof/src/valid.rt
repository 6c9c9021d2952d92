// Laws of snapshots: that of a valid module is valid, and what it has of the module.

ghost use Rattle.std.specs.Prelude.{◌≡◌, List, None};
ghost use Rattle.wasm_tree.specs.declared.module.Module.{Module};
ghost use Rattle.wasm_tree.specs.Bounds.{IsBounded};
ghost use Rattle.wasm_valid.specs.Validity.{IsSingle, IsValid};
ghost use Rattle.wasm_meaning.specs.State.{Text};
ghost use Rattle.eval_spec.specs.State.{State};
ghost use Rattle.eval_snapshot_spec.specs.Snapshot.{snapshot, too_much};
ghost use Rattle.eval_snapshot_proof.specs.GlobalsAndSegments.{DataOperandsPass, EachGlobalIsLeft, AsManySegmentsAreLeft};
ghost use Rattle.eval_snapshot_proof.specs.SuitableStates.{HasEmptyTypeFor, Suits};

use index_remap_proof::declared_trees_are_valid;
use module_limits::counts_are_within_where_none_is_over;
use wasm_tree::operands_pass_layer_by_layer;
use wasm_valid::valid_where_items_hold;

/// States that the snapshot of a valid module, in a state that suits it, is valid (`valid`,
/// WebAssembly Core 2.0, section 3.4) and, if the module is bounded and none of the snapshot's
/// counts is above its limit, bounded (`bounded`); both require a type for the empty function, if a
/// constructor was evaluated. It has at most one memory if the module has (`single`).
pub fn snapshots_are_valid()
    ensures valid { (m : Module) (s : State) (evaluated kept : List Text) → IsValid m → Suits m s → HasEmptyTypeFor m evaluated → IsValid (snapshot m s evaluated kept) }
    ensures single { (m : Module) (s : State) (evaluated kept : List Text) → IsSingle m → IsSingle (snapshot m s evaluated kept) }
    ensures bounded { (m : Module) (s : State) (evaluated kept : List Text) → IsValid m → Suits m s → HasEmptyTypeFor m evaluated → IsBounded m → too_much m s evaluated kept ≡ None →
        IsBounded (snapshot m s evaluated kept) }
{
    operands_pass_layer_by_layer();
    valid_where_items_hold();
    declared_trees_are_valid();
    counts_are_within_where_none_is_over();
}

/// States what is left of a module's globals and data segments.
///
/// - `globals`: each global that is left is what is left of the global at its place.
/// - `segments`: what is left of a list of data segments is a list of the same length.
/// - `code`: if code does not use data segments, none of its operands names one.
pub fn snapshots_have_what_is_left()
    ensures globals { EachGlobalIsLeft }
    ensures segments { AsManySegmentsAreLeft }
    ensures code { DataOperandsPass }
{
    operands_pass_layer_by_layer();
}
