// The faults of a split that are reported before anything is built.

ghost use Rattle.std.specs.Prelude.{◌≡◌, ◌⊎◌, ◌<◌, ◌^◌, Some, length, IfErr, IsOk};
ghost use Rattle.wasm_tree.specs.Bounds.{IsBounded};
ghost use Rattle.split_proof.specs.Premises.{CanMove};
ghost use Rattle.split_spec.specs.declared.faults.SplitFault.TheVariants.{NoMemory as OutOfMemory};
ghost use Rattle.split_spec.specs.FaultOrder.{split_fault};
ghost use Rattle.split_spec.specs.Primary as spec;
ghost use Rattle.wasm_tree.specs.Spaces.{funcs_of};
ghost use Rattle.split_slots.specs.SurveysAndDrafts as surveyed;
ghost use Rattle.std.specs.List.Sorted.{IsStrictlyIncreasing};

use crate::early_counts::first_counts;
use crate::fault_checks::{namespace_taken, too_many_params};
use crate::taken_export_names::prefix_taken;
use split_proof::split_modules_are_counted;
use split_spec::{SplitFault, SplitNames};
use std::alloc::Global;
use wasm_tree::{Export, Module, Which};

// Returns the first quantity that is above its limit: the parameters of the moved functions, then
// the counts that `first_counts` tests.
fn first_too_many(module: &Module, types: &[u32], moved: &[u32]) -> Option<Which>
    requires types { types.now ≡ funcs_of «module».now }
    requires imports { length «module».now.imports < 2 ^ 32 }
    requires few { length moved.now < 2 ^ 32 }
    ensures { result ≡ surveyed.first_too_many «module».now moved.now }
{
    if too_many_params(module.types.as_slice(), types, moved) {
        return Some(Which::Trampolines);
    }
    first_counts(module, moved.len())
}

/// Refuses a split for the first fault, if it can be found before anything is built. After `Ok` the
/// functions of the module and the slots together are fewer than 2^31.
pub(crate) fn refuse(
    alloc: Global,
    module: &Module,
    types: &[u32],
    moved: &[u32],
    added: &[Export],
    names: &SplitNames,
) -> Result<(), SplitFault>
    requires types { types.now ≡ funcs_of «module».now }
    requires bounded { IsBounded «module».now }
    requires can { CanMove «module».now moved.now }
    requires ascend { IsStrictlyIncreasing moved.now }
    requires added { added.now ≡ spec.added_exports names.now.export_prefix «module».now moved.now }
    ensures none { IsOk result → surveyed.MaySplit names.now «module».now moved.now }
    ensures fault { IfErr result (λ e. (e ≡ OutOfMemory) ⊎ (split_fault names.now «module».now moved.now ≡ Some e)) }
{
    split_modules_are_counted();
    if let Some(import) = namespace_taken(module.imports.as_slice(), &names.placeholder_namespace) {
        return Err(SplitFault::NamespaceTaken { import });
    }
    if let Some(name) = prefix_taken(alloc, module.exports.as_slice(), added)? {
        return Err(SplitFault::PrefixTaken { name });
    }
    match first_too_many(module, types, moved) {
        Some(which) => Err(SplitFault::TooMany { which }),
        None => Ok(()),
    }
}
