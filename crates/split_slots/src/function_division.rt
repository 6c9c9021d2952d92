// Divides the defined functions: each moved function is taken out and leaves a trampoline, and the
// others call the moved ones through their slots.

ghost use Rattle.std.specs.Prelude.{◌≡◌, ◌+◌, ◌++◌, ◌∷◌, ◌<◌, ◌≤◌, ◌^◌, ℕ, [], cond, is_some, length, slice_get, Some, OnOk, IfOk};
ghost use Rattle.std.specs.Option.{option_map_or};
ghost use Rattle.split_slots.specs.SlotLookup.{slot_at};
ghost use Rattle.split_slots.specs.InstructionReplacements.{FewSlots};
ghost use Rattle.split_slots.specs.DividedDefinitions.{EachFewParams, FewParams, own_funcs, parted_func, parted_funcs, trampoline_of};

use crate::call_replacement::{Calls, replace_calls};
use crate::slots::slot_at;
use crate::trampolines::trampoline_body;
use std::alloc::Global;
use std::mem;
use wasm_bytes::{Items, NoMemory};
use wasm_tree::{Func, FuncType, ValType};

fn params_at(types: &[FuncType], ty: u32) -> &[ValType]
    ensures { result.now ≡ option_map_or (λ t. t.params) (slice_get types.now ty) [] }
{
    match types.get(ty as usize) {
        Some(ty) => ty.params.as_slice(),
        None => &[],
    }
}

// Takes the function out and leaves a trampoline in its place.
fn move_out(
    alloc: Global,
    func: &mut Func,
    types: &[FuncType],
    table: u32,
    slot: u32,
) -> Result<Func, NoMemory>
    requires params { FewParams types.now func.old }
    requires slot { slot < 2 ^ 31 }
    ensures moved { IfOk result (λ moved. moved ≡ func.old) }
    ensures left { OnOk result (func.new ≡ trampoline_of types.now table func.old slot) }
{
    let body = trampoline_body(alloc, params_at(types, func.ty), func.ty, table, slot)?;
    Ok(Func {
        ty: func.ty,
        locals: mem::replace(&mut func.locals, Items::new(alloc)),
        body: mem::replace(&mut func.body, body),
    })
}

// If the function has a slot, moves it to `own` and leaves a trampoline; else replaces its calls.
fn part_one(
    alloc: Global,
    func: &mut Func,
    slot: Option<u32>,
    types: &[FuncType],
    calls: &Calls<'_>,
    own: &mut Items<Func>,
) -> Result<(), NoMemory>
    requires few { FewSlots calls.now }
    requires params { FewParams types.now func.old }
    requires slot { (s : ℕ) → slot ≡ Some s → s < 2 ^ 31 }
    ensures left { OnOk result (func.new ≡ parted_func types.now calls.now slot func.old) }
    ensures own { OnOk result (own.new ≡ own.old ++ cond (is_some slot) (func.old ∷ []) []) }
{
    match slot {
        None => replace_calls(alloc, &mut func.body, calls),
        Some(slot) => {
            let moved = move_out(alloc, func, types, calls.table, slot)?;
            own.keep(moved)
        }
    }
}

/// Divides the defined functions, of which the first has the index `first`: returns those that have
/// slots, unchanged, leaves a trampoline for each, and replaces the calls in the others.
pub(crate) fn part_funcs(
    alloc: Global,
    funcs: &mut Items<Func>,
    first: u32,
    types: &[FuncType],
    calls: &Calls<'_>,
) -> Result<Items<Func>, NoMemory>
    requires few { FewSlots calls.now }
    requires params { EachFewParams types.now funcs.old }
    requires there { first + length funcs.old ≤ 2 ^ 32 }
    ensures left { OnOk result (funcs.new ≡ parted_funcs types.now calls.now first funcs.old) }
    ensures own { IfOk result (λ own. own ≡ own_funcs calls.now first funcs.old) }
{
    let mut own = Items::new(alloc);
    for at in 0..funcs.len() {
        if let Some(func) = funcs.get_mut(at) {
            let slot = slot_at(calls.slots, first + at as u32);
            part_one(alloc, func, slot, types, calls, &mut own)?;
        }
    }
    Ok(own)
}
