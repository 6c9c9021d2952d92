// The public call `split`: survey, refusals, drafts, both finished modules.

ghost use Rattle.std.specs.Prelude.{◌≡◌, ◌⊎◌, Err, None, Some, option_map, IfErr, IfOk, IsOk};
ghost use Rattle.std.specs.List.Sorted.{IsStrictlyIncreasing};
ghost use Rattle.std.specs.Option.{option_or};
ghost use Rattle.wasm_tree.specs.Bounds.{IsBounded};
ghost use Rattle.wasm_valid.specs.Validity.{IsValid};
ghost use Rattle.module_limits.specs.Counts as counts;
ghost use Rattle.split_plan.specs.PlannedMoves.{IsPlan};
ghost use Rattle.split_proof.specs.Premises.{CanMove};
ghost use Rattle.split_proof.specs.SplitLaws.{AlwaysLoads, ObservationallyEquivalent, most_params};
ghost use Rattle.split_proof.specs.SplitWorlds.{pair_in_place};
ghost use Rattle.split_spec.specs.declared.faults.SplitFault.{SplitFault as Fault};
ghost use Rattle.split_spec.specs.declared.faults.SplitFault.TheVariants.{NoMemory as OutOfMemory, TooMany};
ghost use Rattle.split_spec.specs.FaultOrder.{split_fault};
ghost use Rattle.split_spec.specs.Primary.{added_exports as exports_of, primary as primary_of};
ghost use Rattle.split_spec.specs.Secondary.{secondary as secondary_of};
ghost use Rattle.split_slots.specs.SurveysAndDrafts.{AreDrafts, CanFinish, IsSurvey, MaySplit, made};

use crate::early_faults::refuse;
use crate::exports::added_exports;
use crate::input_survey::{Survey, surveyed};
use crate::module_drafts::{Draft, Drafts, drafted};
use crate::own_indices::finished;
use split_plan::Plan;
use split_proof::{
    maps_of_a_split_fit, pairs_can_be_split, primary_modules_are_valid,
    secondary_modules_are_valid, secondary_modules_load, split_module_equivalent,
    split_modules_are_counted,
};
use split_spec::{SplitFault, SplitNames};
use std::alloc::Global;
use wasm_bytes::Items;
use wasm_tree::{Export, Module};
use wasm_valid::Valid;

/// The two modules of a split.
#[derive(Drop)]
pub struct Pair {
    /// The primary module. It is instantiated first, with placeholders in the slots.
    pub primary: Valid,
    /// The secondary module. Its instantiation puts the moved functions into their slots.
    pub secondary: Valid,
}

// Renumbers a draft, declares its references and tests its counts.
fn finish(alloc: Global, draft: Draft) -> Result<Valid, SplitFault>
    requires { CanFinish draft }
    ensures value { IfOk result (λ valid. valid ≡ made draft) }
    ensures none { IsOk result → counts.over_limit (made draft) ≡ None }
    ensures fault { IfErr result (λ e. (e ≡ OutOfMemory) ⊎ (option_map TooMany (counts.over_limit (made draft)) ≡ Some e)) }
{
    let tree = finished(alloc, draft.tree, &draft.map)?;
    Ok(Valid::known(tree))
}

// Finishes the secondary module, when the primary module is finished already.
fn finish_second(alloc: Global, primary: Valid, draft: Draft) -> Result<Pair, SplitFault>
    requires { CanFinish draft }
    ensures primary { IfOk result (λ pair. pair.primary ≡ primary) }
    ensures secondary { IfOk result (λ pair. pair.secondary ≡ made draft) }
    ensures none { IsOk result → counts.over_limit (made draft) ≡ None }
    ensures fault { IfErr result (λ e. (e ≡ OutOfMemory) ⊎ (option_map TooMany (counts.over_limit (made draft)) ≡ Some e)) }
{
    let secondary = finish(alloc, draft)?;
    Ok(Pair { primary, secondary })
}

// Finishes both modules; the error is that of the primary module, else that of the secondary
// module.
fn finish_both(alloc: Global, drafts: Drafts) -> Result<Pair, SplitFault>
    requires primary { CanFinish drafts.primary }
    requires secondary { CanFinish drafts.secondary }
    ensures primary { IfOk result (λ pair. pair.primary ≡ made drafts.primary) }
    ensures secondary { IfOk result (λ pair. pair.secondary ≡ made drafts.secondary) }
    ensures none { IsOk result → option_or (counts.over_limit (made drafts.primary)) (counts.over_limit (made drafts.secondary)) ≡ None }
    ensures fault { IfErr result (λ e. (e ≡ OutOfMemory) ⊎ (option_map TooMany (option_or (counts.over_limit (made drafts.primary)) (counts.over_limit (made drafts.secondary))) ≡ Some e)) }
{
    let Drafts { primary, secondary } = drafts;
    let primary = finish(alloc, primary)?;
    finish_second(alloc, primary, secondary)
}

// Returns the exports to add, or the first fault that is reported before anything is built.
fn exports_added(
    alloc: Global,
    module: &Module,
    moved: &[u32],
    survey: &Survey,
    names: &SplitNames,
) -> Result<Items<Export>, SplitFault>
    requires bounded { IsBounded «module».now }
    requires can { CanMove «module».now moved.now }
    requires ascend { IsStrictlyIncreasing moved.now }
    requires survey { IsSurvey «module».now moved.now survey.now }
    ensures added { IfOk result (λ added. added ≡ exports_of names.now.export_prefix «module».now moved.now) }
    ensures none { IsOk result → MaySplit names.now «module».now moved.now }
    ensures fault { IfErr result (λ e. (e ≡ OutOfMemory) ⊎ (split_fault names.now «module».now moved.now ≡ Some e)) }
{
    let added = added_exports(alloc, &names.export_prefix, &survey.marks, survey.table)?;
    let types = survey.types.as_slice();
    refuse(alloc, module, types, moved, added.as_slice(), names)?;
    Ok(added)
}

// Drafts both modules from `survey`, or returns the first fault that is reported before anything is
// built.
fn drafts_by(
    alloc: Global,
    module: Module,
    moved: &[u32],
    survey: &Survey,
    names: &SplitNames,
) -> Result<Drafts, SplitFault>
    requires bounded { IsBounded «module» }
    requires can { CanMove «module» moved.now }
    requires ascend { IsStrictlyIncreasing moved.now }
    requires survey { IsSurvey «module» moved.now survey.now }
    ensures drafts { IfOk result (λ drafts. AreDrafts names.now «module» moved.now drafts) }
    ensures none { IsOk result → MaySplit names.now «module» moved.now }
    ensures fault { IfErr result (λ e. (e ≡ OutOfMemory) ⊎ (split_fault names.now «module» moved.now ≡ Some e)) }
{
    let mut added = exports_added(alloc, &module, moved, survey, names)?;
    let drafts = drafted(alloc, module, moved, survey, &mut added, names)?;
    Ok(drafts)
}

// Surveys the module, then works as `drafts_by`.
fn drafts_of(
    alloc: Global,
    module: Module,
    moved: &[u32],
    names: &SplitNames,
) -> Result<Drafts, SplitFault>
    requires valid { IsValid «module» }
    requires bounded { IsBounded «module» }
    requires can { CanMove «module» moved.now }
    requires ascend { IsStrictlyIncreasing moved.now }
    ensures drafts { IfOk result (λ drafts. AreDrafts names.now «module» moved.now drafts) }
    ensures none { IsOk result → MaySplit names.now «module» moved.now }
    ensures fault { IfErr result (λ e. (e ≡ OutOfMemory) ⊎ (split_fault names.now «module» moved.now ≡ Some e)) }
{
    let survey = surveyed(alloc, &module, moved)?;
    drafts_by(alloc, module, moved, &survey, names)
}

// Makes both modules, or returns the first fault.
fn pair_of(
    alloc: Global,
    module: Module,
    moved: &[u32],
    names: &SplitNames,
) -> Result<Pair, SplitFault>
    requires valid { IsValid «module» }
    requires bounded { IsBounded «module» }
    requires can { CanMove «module» moved.now }
    requires ascend { IsStrictlyIncreasing moved.now }
    ensures primary { IfOk result (λ pair. pair.primary ≡ primary_of names.now «module» moved.now) }
    ensures secondary { IfOk result (λ pair. pair.secondary ≡ secondary_of names.now «module» moved.now) }
    ensures none { IsOk result → split_fault names.now «module» moved.now ≡ None }
    ensures fault { IfErr result (λ e. (e ≡ OutOfMemory) ⊎ (split_fault names.now «module» moved.now ≡ Some e)) }
    ensures equivalent { IfOk result (λ pair. ObservationallyEquivalent «module» (pair_in_place names.now «module» moved.now pair.primary pair.secondary) (most_params «module» moved.now)) }
    ensures loads { IfOk result (λ pair. AlwaysLoads (pair_in_place names.now «module» moved.now pair.primary pair.secondary)) }
{
    split_modules_are_counted();
    maps_of_a_split_fit();
    primary_modules_are_valid();
    secondary_modules_are_valid();
    pairs_can_be_split();
    split_module_equivalent();
    secondary_modules_load();
    let drafts = drafts_of(alloc, module, moved, names)?;
    finish_both(alloc, drafts)
}

/// Splits a module by a plan into a primary and a secondary module. `plan` must be a plan of
/// `input`, as `split_plan::plan` returns it.
///
/// The slot of a function in `plan.moved` is its place in that list. The primary module keeps
/// everything else, calls the moved functions through their slots, and has a trampoline for each
/// moved function that anything but a call names. At first its slots hold functions that it imports
/// from the placeholder namespace. The secondary module defines the moved functions, imports what
/// they name from the primary module, under names that begin with the export prefix, and puts them
/// into their slots when it is instantiated (WebAssembly Core 2.0, sections 2.5 and 4.5.4). Both
/// are what `split_spec` defines (`primary`, `secondary`). No body is copied.
///
/// Through the exports that `input` has, both modules under a loader are observationally equivalent
/// to `input`, in every environment (`equivalent`, which has the bounds on steps). The loader
/// instantiates the secondary module at the first call of a placeholder, and answers each call of a
/// placeholder by the function that is then in its slot. Wherever in a run it loads the secondary
/// module, that module links and none of its segments traps (`loads`).
///
/// The error is the first of these faults, and there is an error exactly if there is such a fault,
/// unless memory runs out (`fault`, `first`, `none`):
///
/// - `NamespaceTaken`, if an import of `input` has the placeholder namespace;
/// - `PrefixTaken`, if an export of `input` has the name of an added export;
/// - `TooMany`, if the moved functions have more parameters together than the limit on trampolines,
///   or else a count of the primary module is above its limit, or else one of the secondary module.
///   The counts of each module are tested in the order types, imports, functions, tables, memories,
///   globals, exports, element segments, data segments.
///
/// `NoMemory` means that memory ran out, and says nothing of `input`. `input` is consumed in each
/// case.
pub fn split(
    alloc: Global,
    input: Valid,
    plan: &Plan,
    names: &SplitNames,
) -> Result<Pair, SplitFault>
    requires plan { IsPlan input plan.now }
    ensures primary { IfOk result (λ pair. pair.primary ≡ primary_of names.now input plan.now.moved) }
    ensures secondary { IfOk result (λ pair. pair.secondary ≡ secondary_of names.now input plan.now.moved) }
    ensures equivalent { IfOk result (λ pair. ObservationallyEquivalent input (pair_in_place names.now input plan.now.moved pair.primary pair.secondary) (most_params input plan.now.moved)) }
    ensures loads { IfOk result (λ pair. AlwaysLoads (pair_in_place names.now input plan.now.moved pair.primary pair.secondary)) }
    ensures none { IsOk result → split_fault names.now input plan.now.moved ≡ None }
    ensures fault { IfErr result (λ e. (e ≡ OutOfMemory) ⊎ (split_fault names.now input plan.now.moved ≡ Some e)) }
    ensures first { (e : Fault) → split_fault names.now input plan.now.moved ≡ Some e → (result ≡ Err e) ⊎ (result ≡ Err OutOfMemory) }
{
    pair_of(alloc, input.into_module(), plan.moved.as_slice(), names)
}
