// The globals, memory and data segments of a module before any segment is copied (WebAssembly Core
// 2.0, section 4.5.3).

ghost use Rattle.std.specs.Prelude.{◌≡◌, ◌+◌, ◌*◌, ◌≤◌, ◌++◌, ℕ, Some, cond, IfOk, length, map, min, slice_get};
ghost use Rattle.base_lists.specs.Options.{all_there};
ghost use Rattle.wasm_tree.specs.declared.module.GlobalDef.{GlobalDef};
ghost use Rattle.wasm_tree.specs.declared.module.Module.{Module};
ghost use Rattle.wasm_tree.specs.Spaces.{imported_globals};
ghost use Rattle.wasm_valid.specs.Constants.{const_type};
ghost use Rattle.wasm_meaning.specs.Values.{zero_of};
ghost use Rattle.wasm_meaning.specs.World.{global_with};
ghost use Rattle.eval_spec.specs.Instantiation.{imported_store, value_in};
ghost use Rattle.eval_spec.specs.declared.limits.TheConstants.{MOST_BLOCKS};
ghost use Rattle.eval_machine.specs.InstantiationParts.{AreFirst, IsBlank, LimitsFew, standing_of};
ghost use Rattle.eval_machine.specs.DenotedValues.{global_of, val_of};
ghost use Rattle.eval_machine.specs.Kept.{IsUnmarked, MemoryFits, counts_of};
ghost use Rattle.eval_machine.specs.declared.globals.Standing.TheVariants.{Imported};

use crate::globals::{GlobalSlot, Globals, Standing};
use crate::kept::ImportCounts;
use crate::slots::null;
use crate::value::Value;
use block_pool::{Paged, Pool};
use eval_spec::MOST_BLOCKS;
use std::alloc::Global;
use wasm_bytes::{Items, NoMemory};
use wasm_tree::{ConstExpr, GlobalDef, GlobalType, Module};

pub(crate) fn import_counts(input: &Module) -> ImportCounts
    ensures { result ≡ counts_of input.now }
{
    ImportCounts {
        funcs: input.imported_funcs(),
        tables: input.imported_tables(),
        memories: input.imported_memories(),
    }
}

// Returns the value of an initialiser. The value of a `global.get` is unknown, so it is replaced by
// the zero or null of the type.
fn initial_value(def: GlobalDef) -> Value
    ensures { (m : Module) → const_type m def.init ≡ Some def.ty.ty → value_in m def.init ≡ Some (val_of result) }
{
    match def.init {
        ConstExpr::I32(value) => Value::narrow(value),
        ConstExpr::I64(value) => Value::wide(value),
        ConstExpr::Null(ty) => null(ty),
        ConstExpr::Func(func) => Value::Func(Some(func)),
        ConstExpr::Global(_) => Value::zero(def.ty.ty),
    }
}

fn initial_standing(init: ConstExpr) -> Standing
    ensures { result ≡ standing_of init }
{
    match init {
        ConstExpr::Global(_) => Standing::Unset,
        _ => Standing::Known,
    }
}

fn defined_slot(def: &GlobalDef) -> GlobalSlot
    ensures ty { result.ty ≡ def.now.ty }
    ensures standing { result.standing ≡ standing_of def.now.init }
    ensures value { (m : Module) → const_type m def.now.init ≡ Some def.now.ty.ty → value_in m def.now.init ≡ Some (val_of result.value) }
{
    GlobalSlot {
        ty: def.ty,
        value: initial_value(*def),
        standing: initial_standing(def.init),
    }
}

fn imported_slot(ty: GlobalType) -> GlobalSlot
    ensures ty { result.ty ≡ ty }
    ensures standing { result.standing ≡ Imported }
    ensures value { val_of result.value ≡ zero_of ty.ty }
{
    GlobalSlot {
        ty,
        value: Value::zero(ty.ty),
        standing: Standing::Imported,
    }
}

fn defined_slots(alloc: Global, input: &Module) -> Result<Items<GlobalSlot>, NoMemory>
    requires { (n : ℕ) (g : GlobalDef) → slice_get input.now.globals n ≡ Some g → const_type input.now g.init ≡ Some g.ty.ty }
    ensures globals { IfOk result (λ gs. all_there (global_with (value_in input.now)) input.now.globals ≡ Some (map global_of gs)) }
    ensures standings { IfOk result (λ gs. map (λ g. g.standing) gs ≡ map (λ g. standing_of g.init) input.now.globals) }
{
    let mut slots = Items::new(alloc);
    let defs = input.globals.as_slice();
    for i in 0..defs.len() {
        slots.keep(defined_slot(&defs[i]))?;
    }
    Ok(slots)
}

fn imported_slots(alloc: Global, input: &Module) -> Result<Items<GlobalSlot>, NoMemory>
    ensures globals { IfOk result (λ gs. map global_of gs ≡ (imported_store input.now).globals) }
    ensures standings { IfOk result (λ gs. map (λ g. g.standing) gs ≡ map (λ t. Imported) (imported_globals input.now.imports)) }
{
    let mut slots = Items::new(alloc);
    let imports = input.imports.as_slice();
    for i in 0..imports.len() {
        match imports[i].desc.global() {
            Some(ty) => slots.keep(imported_slot(ty))?,
            None => {}
        }
    }
    Ok(slots)
}

/// Returns the globals of a valid module. Imported globals, and globals whose initialiser reads
/// one, are unknown.
pub(crate) fn first_globals(alloc: Global, input: &Module) -> Result<Globals, NoMemory>
    requires { (n : ℕ) (g : GlobalDef) → slice_get input.now.globals n ≡ Some g → const_type input.now g.init ≡ Some g.ty.ty }
    ensures { IfOk result (λ gs. AreFirst input.now gs) }
{
    let mut slots = imported_slots(alloc, input)?;
    let mut own = defined_slots(alloc, input)?;
    slots.append(&mut own)?;
    Ok(Globals::of(slots))
}

// Returns how many blocks of a memory of `pages` pages may be written.
fn most_blocks(pages: u32) -> u32
    requires { pages ≤ 65536 }
    ensures { result ≡ min MOST_BLOCKS (16 * pages) }
{
    let blocks = 16 * pages;
    if MOST_BLOCKS < blocks {
        return MOST_BLOCKS;
    }
    blocks
}

/// Returns the pages of the memory that the module defines, if it defines one: zero bytes, and room
/// for as many written blocks as an evaluation may write.
pub(crate) fn blank_memory(alloc: Global, input: &Module) -> Result<Option<Paged>, NoMemory>
    requires { LimitsFew input.now.mems }
    ensures { IfOk result (λ p. IsBlank input.now.mems p) }
{
    let Some(limits) = input.mems.get(0) else {
        return Ok(None);
    };
    let size = 65536 * u64::from(limits.min);
    let most = most_blocks(limits.min);
    let mut pool = Pool::new(alloc);
    // A block that is written while a mark is set keeps its old version in a second block.
    pool.reserve(2 * most as usize)?;
    let paged = Paged::new(alloc, pool, size, most)?;
    Ok(Some(paged))
}
