// What stays in the primary module, and what is added to it.

ghost use Rattle.std.specs.Prelude.{◌≡◌, ◌+◌, ◌++◌, ◌∷◌, ◌<◌, ◌≤◌, ◌^◌, [], drop, length, IfOk, OnOk};
ghost use Rattle.std.specs.List.Sorted.{IsStrictlyIncreasing};
ghost use Rattle.base_kept.specs.Kept.{kept};
ghost use Rattle.base_lists.specs.Every.{Every};
ghost use Rattle.base_lists.specs.Places.{numbers};
ghost use Rattle.wasm_tree.specs.Bounds.{IsBounded};
ghost use Rattle.split_proof.specs.Premises.{CanMove};
ghost use Rattle.split_spec.specs.Primary.{added_exports, primary_tree};
ghost use Rattle.split_spec.specs.SplitSlots as spec;
ghost use Rattle.split_slots.specs.DividedDefinitions.{EachFewParams, own_funcs, parted_funcs};
ghost use Rattle.split_slots.specs.PlaceholderList.{placeholders_of};
ghost use Rattle.split_slots.specs.InstructionReplacements.{FewSlots};
ghost use Rattle.split_slots.specs.SurveysAndDrafts.{FewFuncs, IsSurvey};

use crate::call_replacement::Calls;
use crate::function_division::part_funcs;
use crate::input_survey::Survey;
use crate::slot_table_items::{add_placeholders, slot_segment, slot_table_type};
use base_kept::keep_marked;
use split_spec::SplitNames;
use std::alloc::Global;
use std::mem;
use wasm_bytes::{Items, Name, NoMemory};
use wasm_tree::{Export, Func, FuncType, Module};

// Divides the defined functions, which begin at index `first`, and returns the moved ones. `funcs`
// keeps what `left` marks: trampolines in place of moved functions, and the other functions with
// their calls replaced.
fn part(
    alloc: Global,
    funcs: &mut Items<Func>,
    first: u32,
    types: &[FuncType],
    left: &[bool],
    calls: &Calls<'_>,
) -> Result<Items<Func>, NoMemory>
    requires few { FewSlots calls.now }
    requires params { EachFewParams types.now funcs.old }
    requires there { first + length funcs.old ≤ length left.now }
    requires counted { first + length funcs.old ≤ 2 ^ 32 }
    ensures left { OnOk result (funcs.new ≡ kept (drop first left.now) (parted_funcs types.now calls.now first funcs.old)) }
    ensures own { IfOk result (λ own. own ≡ own_funcs calls.now first funcs.old) }
{
    let own = part_funcs(alloc, funcs, first, types, calls)?;
    let all = mem::replace(funcs, Items::new(alloc));
    *funcs = keep_marked(alloc, all, &left[first as usize..])?;
    Ok(own)
}

// Adds the placeholders, the slot table, the exports, and the segment that puts the placeholders
// into the slots; `types` has the type index of each function.
fn add_parts(
    alloc: Global,
    tree: &mut Module,
    types: &[u32],
    moved: &[u32],
    table: u32,
    namespace: &Name,
    added: &mut Items<Export>,
) -> Result<(), NoMemory>
    requires typed { Every (λ func. func < length types.now) moved.now }
    requires few { length types.now + length moved.now < 2 ^ 32 }
    ensures { OnOk result (tree.new ≡ record tree.old {
      imports = tree.old.imports ++ placeholders_of namespace.now types.now 0 moved.now;
      tables = tree.old.tables ++ spec.slot_table_type (length moved.now) ∷ [];
      exports = tree.old.exports ++ added.old;
      elems = tree.old.elems ++ spec.slot_segment table 0 (numbers (length types.now) (length moved.now)) ∷ [];
    }) }
{
    add_placeholders(alloc, &mut tree.imports, namespace, types, moved)?;
    tree.tables.keep(slot_table_type(moved.len() as u32))?;
    tree.exports.append(added)?;
    let segment = slot_segment(alloc, table, types.len() as u32, moved.len())?;
    tree.elems.keep(segment)
}

/// Makes `tree` the primary module, still in the indices of the input module, and returns the
/// definitions of the moved functions.
pub(crate) fn part_module(
    alloc: Global,
    tree: &mut Module,
    moved: &[u32],
    survey: &Survey,
    added: &mut Items<Export>,
    names: &SplitNames,
) -> Result<Items<Func>, NoMemory>
    requires bounded { IsBounded tree.old }
    requires can { CanMove tree.old moved.now }
    requires ascend { IsStrictlyIncreasing moved.now }
    requires few { FewFuncs tree.old moved.now }
    requires survey { IsSurvey tree.old moved.now survey.now }
    requires added { added.old ≡ added_exports names.now.export_prefix tree.old moved.now }
    ensures tree { OnOk result (tree.new ≡ primary_tree (λ slot. names.now.placeholder_namespace) names.now.export_prefix tree.old moved.now) }
    ensures own { IfOk result (λ own. own ≡ spec.defined_at tree.old moved.now) }
{
    let first = tree.imported_funcs() as u32;
    let table = survey.table;
    let types = survey.types.as_slice();
    let left = survey.left.as_slice();
    let calls = Calls {
        types,
        slots: &survey.slots,
        table,
        base: tree.func_space() as u32,
        first: 0,
        end: 0,
    };
    let own = part(
        alloc,
        &mut tree.funcs,
        first,
        tree.types.as_slice(),
        left,
        &calls,
    )?;
    let namespace = &names.placeholder_namespace;
    add_parts(alloc, tree, types, moved, table, namespace, added)?;
    Ok(own)
}
