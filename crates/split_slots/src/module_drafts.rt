// Drafts: both modules of a split, still in the indices of the input module.

ghost use Rattle.std.specs.Prelude.{◌≡◌, ◌+◌, ◌∷◌, ◌<◌, ◌≤◌, ◌^◌, [], length, map as each, None, IfOk, OnOk};
ghost use Rattle.std.specs.List.Sorted.{IsStrictlyIncreasing};
ghost use Rattle.base_lists.specs.Places.{numbers};
ghost use Rattle.wasm_tree.specs.Bounds.{IsBounded};
ghost use Rattle.split_proof.specs.Premises.{CanMove};
ghost use Rattle.split_spec.specs.Primary.{added_exports, primary_tree};
ghost use Rattle.split_spec.specs.Secondary as secondary;
ghost use Rattle.split_spec.specs.SplitSlots as spec;
ghost use Rattle.split_slots.specs.DividedDefinitions.{own_func};
ghost use Rattle.split_slots.specs.InstructionReplacements.{FewSlots};
ghost use Rattle.split_slots.specs.SurveysAndDrafts.{AreDrafts, FewFuncs, IsFrame, IsSurvey};

use crate::call_replacement::Calls;
use crate::imports_from_primary::secondary_imports;
use crate::index_maps::{primary_map, secondary_map};
use crate::input_survey::Survey;
use crate::primary_module::part_module;
use crate::secondary_module::{replace_in_each, secondary_tree};
use crate::types::copy_types;
use index_remap::Remap;
use split_spec::SplitNames;
use std::alloc::Global;
use wasm_bytes::{Items, NoMemory};
use wasm_tree::{Export, Func, FuncType, Import, Module};

/// A module in the indices of the input module, and the remap to its own indices.
#[derive(Drop)]
pub(crate) struct Draft {
    pub(crate) tree: Module,
    pub(crate) map: Remap,
}

#[derive(Drop)]
pub(crate) struct Drafts {
    pub(crate) primary: Draft,
    pub(crate) secondary: Draft,
}

/// The types and the imports of the secondary module, and its remap.
#[derive(Drop)]
pub(crate) struct Frame {
    pub(crate) types: Items<FuncType>,
    pub(crate) imports: Items<Import>,
    pub(crate) map: Remap,
}

// Makes the types, the imports and the remap of the secondary module.
fn frame_of(
    alloc: Global,
    module: &Module,
    moved: &[u32],
    survey: &Survey,
    names: &SplitNames,
) -> Result<Frame, NoMemory>
    requires bounded { IsBounded «module».now }
    requires few { FewFuncs «module».now moved.now }
    requires survey { IsSurvey «module».now moved.now survey.now }
    ensures { IfOk result (λ frame. IsFrame names.now «module».now moved.now frame) }
{
    let count = moved.len() as u32;
    let map = secondary_map(alloc, module.types.as_slice(), &survey.marks, count)?;
    let imports = secondary_imports(alloc, names, module, &survey.marks, count)?;
    let types = copy_types(alloc, module.types.as_slice())?;
    Ok(Frame {
        types,
        imports,
        map,
    })
}

// Makes the draft of the secondary module that defines the functions `own`.
fn secondary_draft(
    alloc: Global,
    frame: Frame,
    own: Items<Func>,
    calls: &Calls<'_>,
) -> Result<Draft, NoMemory>
    requires few { FewSlots calls.now }
    requires own { calls.now.base + length own ≤ 2 ^ 32 }
    ensures tree { IfOk result (λ draft. draft.tree ≡ record {
      types = frame.types;
      imports = frame.imports;
      funcs = each (own_func calls.now) own;
      tables = [];
      mems = [];
      globals = [];
      exports = [];
      start = None;
      elems = spec.slot_segment calls.now.table 0 (numbers calls.now.base (length own)) ∷ [];
      datas = [];
    }) }
    ensures map { IfOk result (λ draft. draft.map ≡ frame.map) }
{
    let mut own = own;
    replace_in_each(alloc, &mut own, calls)?;
    let tree = secondary_tree(
        alloc,
        frame.types,
        frame.imports,
        own,
        calls.table,
        calls.base,
    )?;
    Ok(Draft {
        tree,
        map: frame.map,
    })
}

// Makes `tree` the primary module, still in the indices of the input module, and returns the draft
// of the secondary module.
fn parted(
    alloc: Global,
    tree: &mut Module,
    moved: &[u32],
    survey: &Survey,
    added: &mut Items<Export>,
    names: &SplitNames,
) -> Result<Draft, NoMemory>
    requires bounded { IsBounded tree.old }
    requires can { CanMove tree.old moved.now }
    requires ascend { IsStrictlyIncreasing moved.now }
    requires few { FewFuncs tree.old moved.now }
    requires survey { IsSurvey tree.old moved.now survey.now }
    requires added { added.old ≡ added_exports names.now.export_prefix tree.old moved.now }
    ensures primary { OnOk result (tree.new ≡ primary_tree (λ slot. names.now.placeholder_namespace) names.now.export_prefix tree.old moved.now) }
    ensures secondary { IfOk result (λ draft. draft.tree ≡ secondary.secondary_tree names.now tree.old moved.now moved.now 0) }
    ensures map { IfOk result (λ draft. draft.map ≡ secondary.secondary_map tree.old moved.now moved.now) }
{
    let base = tree.func_space() as u32;
    let frame = frame_of(alloc, tree, moved, survey, names)?;
    let own = part_module(alloc, tree, moved, survey, added, names)?;
    let calls = Calls {
        types: survey.types.as_slice(),
        slots: &survey.slots,
        table: survey.table,
        base,
        first: 0,
        end: moved.len() as u32,
    };
    secondary_draft(alloc, frame, own, &calls)
}

/// Returns the drafts of both modules. The definitions of the moved functions are moved, not
/// copied.
pub(crate) fn drafted(
    alloc: Global,
    module: Module,
    moved: &[u32],
    survey: &Survey,
    added: &mut Items<Export>,
    names: &SplitNames,
) -> Result<Drafts, NoMemory>
    requires bounded { IsBounded «module» }
    requires can { CanMove «module» moved.now }
    requires ascend { IsStrictlyIncreasing moved.now }
    requires few { FewFuncs «module» moved.now }
    requires survey { IsSurvey «module» moved.now survey.now }
    requires added { added.old ≡ added_exports names.now.export_prefix «module» moved.now }
    ensures { IfOk result (λ drafts. AreDrafts names.now «module» moved.now drafts) }
{
    let mut tree = module;
    let count = moved.len() as u32;
    let map = primary_map(alloc, &tree, survey.left.as_slice(), count)?;
    let secondary = parted(alloc, &mut tree, moved, survey, added, names)?;
    let primary = Draft { tree, map };
    Ok(Drafts { primary, secondary })
}
