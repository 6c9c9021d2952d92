// What the split looks up in the input module before it changes anything.

ghost use Rattle.std.specs.Prelude.{◌≡◌, IfOk};
ghost use Rattle.std.specs.List.Sorted.{IsStrictlyIncreasing};
ghost use Rattle.wasm_tree.specs.Bounds.{IsBounded};
ghost use Rattle.wasm_valid.specs.Validity.{IsValid};
ghost use Rattle.split_proof.specs.Premises.{CanMove};
ghost use Rattle.split_slots.specs.SurveysAndDrafts.{IsSurvey};

use crate::named_entities::{Marks, named_marks};
use crate::needed_trampolines::needed_marks;
use crate::primary_function_indices::left_marks;
use crate::slots::slots_of;
use crate::types::func_types;
use index_remap_proof::well_typed_bodies_name_declared_functions;
use std::alloc::Global;
use wasm_bytes::{Items, NoMemory};
use wasm_tree::Module;
use wasm_valid::valid_where_items_hold;

/// What is known of the input module.
#[derive(Drop)]
pub(crate) struct Survey {
    /// The type index of each function.
    pub(crate) types: Items<u32>,
    /// For each function its slot, or `None` if it does not move.
    pub(crate) slots: Vec<Option<u32>>,
    /// For each function, whether the primary module has it or a trampoline in its place.
    pub(crate) left: Items<bool>,
    /// What the moved functions name, leaving out calls of moved functions.
    pub(crate) marks: Marks,
    /// The index of the slot table, which comes after the tables of the module.
    pub(crate) table: u32,
}

/// Surveys the module for the split that moves the functions of `moved`.
pub(crate) fn surveyed(alloc: Global, module: &Module, moved: &[u32]) -> Result<Survey, NoMemory>
    requires valid { IsValid «module».now }
    requires bounded { IsBounded «module».now }
    requires can { CanMove «module».now moved.now }
    requires ascend { IsStrictlyIncreasing moved.now }
    ensures { IfOk result (λ survey. IsSurvey «module».now moved.now survey) }
{
    valid_where_items_hold();
    well_typed_bodies_name_declared_functions();
    let types = func_types(alloc, module)?;
    let slots = slots_of(alloc, types.len(), moved)?;
    let needed = needed_marks(alloc, module)?;
    let left = left_marks(alloc, &slots, &needed)?;
    let marks = named_marks(alloc, module, moved, &slots)?;
    Ok(Survey {
        types,
        slots,
        left,
        marks,
        table: module.table_space() as u32,
    })
}
