// The secondary module, still in the indices of the input module.

ghost use Rattle.std.specs.Prelude.{◌≡◌, ◌∷◌, ◌+◌, ◌≤◌, ◌^◌, [], length, map, None, IfOk, OnOk};
ghost use Rattle.base_lists.specs.Places.{numbers};
ghost use Rattle.split_spec.specs.SplitSlots.{slot_segment};
ghost use Rattle.split_slots.specs.DividedDefinitions.{own_func};
ghost use Rattle.split_slots.specs.InstructionReplacements.{FewSlots};

use crate::call_replacement::{Calls, replace_calls};
use crate::slot_table_items::slot_segment;
use std::alloc::Global;
use wasm_bytes::{Items, NoMemory};
use wasm_tree::{Func, FuncType, Import, Module};

fn replace_in(alloc: Global, func: &mut Func, calls: &Calls<'_>) -> Result<(), NoMemory>
    requires few { FewSlots calls.now }
    ensures { OnOk result (func.new ≡ own_func calls.now func.old) }
{
    replace_calls(alloc, &mut func.body, calls)
}

/// Replaces the calls in each of the functions.
pub(crate) fn replace_in_each(
    alloc: Global,
    own: &mut Items<Func>,
    calls: &Calls<'_>,
) -> Result<(), NoMemory>
    requires few { FewSlots calls.now }
    ensures { OnOk result (own.new ≡ map (own_func calls.now) own.old) }
{
    for at in 0..own.len() {
        if let Some(func) = own.get_mut(at) {
            replace_in(alloc, func, calls)?;
        }
    }
    Ok(())
}

/// Returns the module that defines the functions, with a segment that puts them into the first
/// slots; `base` is the index of the first of them.
pub(crate) fn secondary_tree(
    alloc: Global,
    types: Items<FuncType>,
    imports: Items<Import>,
    funcs: Items<Func>,
    table: u32,
    base: u32,
) -> Result<Module, NoMemory>
    requires { base + length funcs ≤ 2 ^ 32 }
    ensures { IfOk result (λ tree. tree ≡ record {
      types = types;
      imports = imports;
      funcs = funcs;
      tables = [];
      mems = [];
      globals = [];
      exports = [];
      start = None;
      elems =
          slot_segment table 0 (numbers base (length funcs)) ∷ [];
      datas = [];
    }) }
{
    let mut elems = Items::new(alloc);
    elems.keep(slot_segment(alloc, table, base, funcs.len())?)?;
    Ok(Module {
        types,
        imports,
        funcs,
        elems,
        ..Module::empty(alloc)
    })
}
