ghost use Rattle.std.specs.Prelude.{◌≡◌, ◌<◌, [], None, length, IfOk, OnOk, IsTrue};
ghost use Rattle.std.specs.List.{list_all};
ghost use Rattle.index_remap.specs.Renumbered.{fits_export, fits_func, fits_tree};
ghost use Rattle.index_remap.specs.declared.remap.Remap.{Remap as Maps};

use crate::shared::expect_alike;
use index_remap::{Remap, renumber, renumber_in_place};
use std::alloc::Global;
use std::test::Fail;
use wasm_bytes::{Items, Name, NoMemory};
use wasm_tree::{Export, ExportDesc, Func, FuncType, Instr, Module, ValType};

// Adds the type [] to [i32].
fn add_type(alloc: Global, types: &mut Items<FuncType>) -> Result<(), NoMemory> {
    let results = Items::from_slice(alloc, &[ValType::I32])?;
    types.keep(FuncType {
        params: Items::new(alloc),
        results,
    })
}

// Adds a function of type 0, whose body is `i32.const 7`.
fn add_func(alloc: Global, funcs: &mut Items<Func>) -> Result<(), NoMemory>
    requires { funcs.old ≡ [] }
    ensures { OnOk result ((map : Maps) → 0 < length map.types → IsTrue (list_all (fits_func map) funcs.new)) }
{
    let mut body = Items::new(alloc);
    body.keep(Instr::I32Const(7))?;
    funcs.keep(Func {
        ty: 0,
        locals: Items::new(alloc),
        body,
    })
}

// Exports function 0 as `f`.
fn add_export(alloc: Global, exports: &mut Items<Export>) -> Result<(), NoMemory>
    requires { exports.old ≡ [] }
    ensures { OnOk result ((map : Maps) → 0 < length map.funcs → IsTrue (list_all (fits_export map) exports.new)) }
{
    let name = Name::from_text(alloc, "f")?;
    exports.keep(Export {
        name,
        desc: ExportDesc::Func(0),
    })
}

// Puts a function of type [] to [i32], exported as `f`, whose body is `i32.const 7`, into the empty
// module.
fn add_seven(alloc: Global, module: &mut Module) -> Result<(), NoMemory>
    requires { «module».old ≡ record { types = []; imports = []; funcs = []; tables = []; mems = []; globals = []; exports = []; start = None; elems = []; datas = [] } }
    ensures { OnOk result ((map : Maps) → 0 < length map.types → 0 < length map.funcs → IsTrue (fits_tree map «module».new)) }
{
    add_type(alloc, &mut module.types)?;
    add_func(alloc, &mut module.funcs)?;
    add_export(alloc, &mut module.exports)
}

// Function 0 becomes 1, and type 0 stays.
fn moved(alloc: Global) -> Result<Remap, NoMemory>
    ensures types { IfOk result (λ map. 0 < length map.types) }
    ensures funcs { IfOk result (λ map. 0 < length map.funcs) }
{
    let types = Items::from_slice(alloc, &[0])?;
    let funcs = Items::from_slice(alloc, &[1])?;
    Ok(Remap {
        types,
        funcs,
        tables: Items::new(alloc),
        mems: Items::new(alloc),
        globals: Items::new(alloc),
        elems: Items::new(alloc),
        datas: Items::new(alloc),
    })
}

// Of type 0: how many parameters and results there are, and the first result.
fn type_shown(module: &Module) -> Option<(usize, usize, Option<ValType>)> {
    let ty = module.types.get(0)?;
    Some((
        ty.params.len(),
        ty.results.len(),
        ty.results.get(0).copied(),
    ))
}

// Of function 0: its type, how many groups of locals it has, how many instructions, and the constant of the first.
fn func_shown(module: &Module) -> Option<(u32, usize, usize, i32)> {
    let func = module.funcs.get(0)?;
    match func.body.get(0)? {
        Instr::I32Const(value) => Some((func.ty, func.locals.len(), func.body.len(), *value)),
        _ => None,
    }
}

// Whether export 0 is this function under the name f.
fn exports_f(module: &Module, func: u32) -> bool {
    match module.exports.get(0) {
        Some(export) => export.name.as_str() == "f" && export.desc == ExportDesc::Func(func),
        None => false,
    }
}

// How many types, functions and exports there are, and how much of all else.
fn counts(module: &Module) -> (usize, usize, usize, usize) {
    let spaces = [module.imports.len(), module.tables.len(), module.mems.len()];
    let others = [module.globals.len(), module.elems.len(), module.datas.len()];
    let is_empty = spaces == [0, 0, 0] && others == [0, 0, 0] && module.start.is_none();
    let rest = if is_empty { 0 } else { 1 };
    (
        module.types.len(),
        module.funcs.len(),
        module.exports.len(),
        rest,
    )
}

// Names the first thing in a module that is not as it is to be once function 0 is 1, or nothing.
fn unlike_moved(module: &Module) -> &'static str {
    if !exports_f(module, 1) {
        return "the export";
    }
    if type_shown(module) != Some((0, 1, Some(ValType::I32))) {
        return "the type";
    }
    if func_shown(module) != Some((0, 0, 1, 7)) {
        return "the function";
    }
    if counts(module) != (1, 1, 1, 0) {
        return "how much there is";
    }
    ""
}

// The same of a copy of the module that is renumbered.
fn unlike_copied(alloc: Global, module: &Module, map: &Remap) -> Result<&'static str, NoMemory>
    requires entries { IsTrue (fits_tree map.now «module».now) }
{
    let new = renumber(alloc, module, map)?;
    let unlike = unlike_moved(&new);
    drop(new);
    Ok(unlike)
}

// The same of the module that is renumbered in its place.
fn unlike_in_place(module: &mut Module, map: &Remap) -> &'static str
    requires entries { IsTrue (fits_tree map.now «module».old) }
{
    renumber_in_place(module, map);
    unlike_moved(module)
}

fn unlike_seven_copied(alloc: Global) -> Result<&'static str, NoMemory> {
    let map = moved(alloc)?;
    let mut module = Module::empty(alloc);
    let unlike = match add_seven(alloc, &mut module) {
        Ok(()) => unlike_copied(alloc, &module, &map),
        Err(failed) => Err(failed),
    };
    drop(module);
    drop(map);
    unlike
}

fn unlike_seven_in_place(alloc: Global) -> Result<&'static str, NoMemory> {
    let map = moved(alloc)?;
    let mut module = Module::empty(alloc);
    let unlike = match add_seven(alloc, &mut module) {
        Ok(()) => Ok(unlike_in_place(&mut module, &map)),
        Err(failed) => Err(failed),
    };
    drop(module);
    drop(map);
    unlike
}

#[test]
fn only_the_export_names_another_function(rt: HostRuntime) -> Result<(), Fail> {
    expect_alike(unlike_seven_copied(rt.alloc()))
}

#[test]
fn in_place_it_becomes_what_the_copy_is(rt: HostRuntime) -> Result<(), Fail> {
    expect_alike(unlike_seven_in_place(rt.alloc()))
}
