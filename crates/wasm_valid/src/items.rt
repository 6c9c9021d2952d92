// When each item is valid (WebAssembly Core 2.0, sections 3.2 and 3.4).

ghost use Rattle.std.specs.Prelude.{◌≡◌, ◌↔◌, Some, IfOk, IsTrue, ℕ, false, unwrap_or, slice_get};
ghost use Rattle.wasm_tree.specs.Bounds.{IsBounded};
ghost use Rattle.wasm_tree.specs.declared.module.ConstExpr.{ConstExpr};
ghost use Rattle.wasm_tree.specs.declared.types.ValType.TheVariants.{Ref};
ghost use Rattle.wasm_valid.specs.Constants.{const_type};
ghost use Rattle.wasm_valid.specs.Validity.{LimitsHold, PagesHold, ImportHolds, InSpace, ElemModeHolds, DataModeHolds, HoldsAt};

use crate::constants::has_type;
use crate::kinds::ItemKind;
use crate::spaces::Spaces;
use std::alloc::{AllocError, Global};
use wasm_tree::{
    ConstExpr, DataMode, ElemMode, ExportDesc, ImportDesc, Limits, Module, RefType, ValType,
};
use wasm_valid_bodies::{Locals, Scope, Stacks, is_well_typed_body};

const MOST_PAGES: u32 = 65_536;

fn limits_hold(limits: &Limits) -> bool
    ensures { IsTrue result ↔ LimitsHold limits.now }
{
    match limits.max {
        Some(max) => limits.min <= max,
        None => true,
    }
}

fn pages_hold(limits: &Limits) -> bool
    ensures { IsTrue result ↔ PagesHold limits.now }
{
    let most = match limits.max {
        Some(max) => max,
        None => MOST_PAGES,
    };
    limits.min <= most && most <= MOST_PAGES
}

fn import_desc_holds(module: &Module, desc: &ImportDesc) -> bool
    ensures { IsTrue result ↔ ImportHolds «module».now desc.now }
{
    match desc {
        ImportDesc::Func(ty) => (*ty as usize) < module.types.len(),
        ImportDesc::Table(ty) => limits_hold(&ty.limits),
        ImportDesc::Memory(limits) => pages_hold(limits),
        ImportDesc::Global(_) => true,
    }
}

/// Returns whether the import is valid.
pub fn import_holds(module: &Module, place: usize) -> bool
    ensures { IsTrue result ↔ HoldsAt «module».now ItemKind.Import place }
{
    match module.imports.get(place) {
        Some(import) => import_desc_holds(module, &import.desc),
        None => false,
    }
}

/// Returns whether the type index of the defined function is in range.
pub fn func_holds(module: &Module, place: usize) -> bool
    ensures { IsTrue result ↔ HoldsAt «module».now ItemKind.Func place }
{
    match module.funcs.get(place) {
        Some(func) => (func.ty as usize) < module.types.len(),
        None => false,
    }
}

/// Returns whether the limits of the defined table are valid.
pub fn table_holds(module: &Module, place: usize) -> bool
    ensures { IsTrue result ↔ HoldsAt «module».now ItemKind.Table place }
{
    match module.tables.get(place) {
        Some(table) => limits_hold(&table.limits),
        None => false,
    }
}

/// Returns whether the limits of the defined memory are valid.
pub fn memory_holds(module: &Module, place: usize) -> bool
    ensures { IsTrue result ↔ HoldsAt «module».now ItemKind.Memory place }
{
    match module.mems.get(place) {
        Some(limits) => pages_hold(limits),
        None => false,
    }
}

/// Returns whether the initialiser of the defined global has its type.
pub fn global_holds(spaces: &Spaces<'_>, place: usize) -> bool
    ensures { IsTrue result ↔ HoldsAt spaces.now.module.now ItemKind.Global place }
{
    match spaces.module.globals.get(place) {
        Some(global) => has_type(spaces, &global.init, global.ty.ty),
        None => false,
    }
}

fn is_in_space(spaces: &Spaces<'_>, desc: &ExportDesc) -> bool
    ensures { IsTrue result ↔ InSpace spaces.now.module.now desc.now }
{
    match desc {
        ExportDesc::Func(func) => (*func as usize) < spaces.funcs.len(),
        ExportDesc::Table(table) => (*table as usize) < spaces.tables.len(),
        ExportDesc::Memory(memory) => (*memory as usize) < spaces.memories,
        ExportDesc::Global(global) => (*global as usize) < spaces.globals.len(),
    }
}

fn came_before(spaces: &Spaces<'_>, place: usize) -> bool
    ensures { result ≡ unwrap_or (slice_get spaces.now.repeated.items place) false }
{
    match spaces.repeated.get(place) {
        Some(repeated) => *repeated,
        None => false,
    }
}

/// Returns whether what is exported exists, and no earlier export has the same name.
pub fn export_holds(spaces: &Spaces<'_>, place: usize) -> bool
    ensures { IsTrue result ↔ HoldsAt spaces.now.module.now ItemKind.Export place }
{
    let Some(export) = spaces.module.exports.get(place) else {
        return false;
    };
    if came_before(spaces, place) {
        return false;
    }
    is_in_space(spaces, &export.desc)
}

/// Returns whether the start is a function of type [] to [].
pub fn start_holds(module: &Module) -> bool
    ensures { IsTrue result ↔ HoldsAt «module».now ItemKind.Start 0 }
{
    let Some(start) = module.start else {
        return false;
    };
    match module.type_of_func(start) {
        Some(ty) => ty.params.len() == 0 && ty.results.len() == 0,
        None => false,
    }
}

fn consts_hold(spaces: &Spaces<'_>, ty: RefType, items: &[ConstExpr]) -> bool
    ensures { IsTrue result ↔ ((j : ℕ) (e : ConstExpr) → slice_get items.now j ≡ Some e → const_type spaces.now.module.now e ≡ Some (Ref ty)) }
{
    for item in items {
        if !has_type(spaces, item, ValType::Ref(ty)) {
            return false;
        }
    }
    true
}

fn elem_mode_holds(spaces: &Spaces<'_>, ty: RefType, mode: &ElemMode) -> bool
    ensures { IsTrue result ↔ ElemModeHolds spaces.now.module.now ty mode.now }
{
    match mode {
        ElemMode::Active { table, offset } => match spaces.tables.get(*table as usize) {
            Some(found) => *found == ty && has_type(spaces, offset, ValType::I32),
            None => false,
        },
        ElemMode::Passive => true,
        ElemMode::Declarative => true,
    }
}

/// Returns whether the items, the table and the offset of the element segment are valid.
pub fn elem_holds(spaces: &Spaces<'_>, place: usize) -> bool
    ensures { IsTrue result ↔ HoldsAt spaces.now.module.now ItemKind.Elem place }
{
    match spaces.module.elems.get(place) {
        Some(segment) => consts_hold(spaces, segment.ty, segment.items.as_slice())
            && elem_mode_holds(spaces, segment.ty, &segment.mode),
        None => false,
    }
}

/// Returns whether the memory and the offset of the data segment are valid.
pub fn segment_holds(spaces: &Spaces<'_>, place: usize) -> bool
    ensures { IsTrue result ↔ HoldsAt spaces.now.module.now ItemKind.Segment place }
{
    match spaces.module.datas.get(place) {
        Some(segment) => match &segment.mode {
            DataMode::Active { memory, offset } => (*memory as usize) < spaces.memories
                && has_type(spaces, offset, ValType::I32),
            DataMode::Passive => true,
        },
        None => false,
    }
}

/// Returns whether the body is well typed.
pub fn body_holds<'a>(
    alloc: Global,
    spaces: &'a Spaces<'a>,
    stacks: &mut Stacks<'a>,
    place: usize,
) -> Result<bool, AllocError>
    requires { IsBounded spaces.now.module.now }
    ensures { IfOk result (λ ok. IsTrue ok ↔ HoldsAt spaces.now.module.now ItemKind.Body place) }
{
    let module = spaces.module;
    let Some(func) = module.funcs.get(place) else {
        return Ok(false);
    };
    let Some(ty) = module.types.get(func.ty as usize) else {
        return Ok(false);
    };
    let locals = Locals::new(alloc, ty.params.as_slice(), func.locals.as_slice())?;
    let scope = Scope {
        types: module.types.as_slice(),
        funcs: &spaces.funcs,
        tables: &spaces.tables,
        memories: spaces.memories,
        globals: &spaces.globals,
        elems: &spaces.elems,
        datas: module.datas.len(),
        named: &spaces.named,
        locals,
        results: ty.results.as_slice(),
    };
    is_well_typed_body(alloc, &scope, stacks, func.body.as_slice())
}
