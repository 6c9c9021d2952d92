ghost use Rattle.std.specs.Prelude.{◌≡◌, ◌<◌, ◌^◌, [], length, IfOk, OnOk};
ghost use Rattle.wasm_tree.specs.Spaces.{funcs_of};

use crate::shared::expect_alike;
use index_remap::declare_refs;
use std::alloc::Global;
use std::test::Fail;
use wasm_bytes::{Items, Name, NoMemory};
use wasm_tree::{
    BlockType, ConstExpr, ElemMode, ElemSeg, Export, ExportDesc, Func, Instr, Module, RefType,
};

// Adds `ref.func 1` in a block, and then `ref.func 0`.
fn add_both(alloc: Global, body: &mut Items<Instr>) -> Result<(), NoMemory> {
    let mut inner = Items::new(alloc);
    inner.keep(Instr::RefFunc(1))?;
    body.keep(Instr::Block(BlockType::Empty, inner))?;
    body.keep(Instr::RefFunc(0))
}

fn func(alloc: Global, body: Items<Instr>) -> Func {
    Func {
        ty: 0,
        locals: Items::new(alloc),
        body,
    }
}

// Adds two functions, of which the first names both.
fn add_two(alloc: Global, funcs: &mut Items<Func>) -> Result<(), NoMemory>
    requires { funcs.old ≡ [] }
    ensures { OnOk result (length funcs.new ≡ 2) }
{
    let mut body = Items::new(alloc);
    add_both(alloc, &mut body)?;
    funcs.keep(func(alloc, body))?;
    funcs.keep(func(alloc, Items::new(alloc)))
}

// Adds a function whose body names it.
fn add_one(alloc: Global, funcs: &mut Items<Func>) -> Result<(), NoMemory>
    requires { funcs.old ≡ [] }
    ensures { OnOk result (length funcs.new ≡ 1) }
{
    let mut body = Items::new(alloc);
    body.keep(Instr::RefFunc(0))?;
    funcs.keep(func(alloc, body))
}

// Exports function 0.
fn add_export(alloc: Global, exports: &mut Items<Export>) -> Result<(), NoMemory> {
    let name = Name::from_text(alloc, "f")?;
    exports.keep(Export {
        name,
        desc: ExportDesc::Func(0),
    })
}

// Names the first thing in which the segment does not declare functions 0 and 1, or nothing.
fn unlike_declaring(segment: &ElemSeg) -> &'static str {
    if segment.mode != ElemMode::Declarative {
        return "the mode";
    }
    if segment.ty != RefType::Func {
        return "the type";
    }
    match segment.items.as_slice() {
        [ConstExpr::Func(0), ConstExpr::Func(1)] => "",
        _ => "the items",
    }
}

// The same of the only segment that is appended for two functions that a body names.
fn unlike_both(alloc: Global, module: &mut Module) -> Result<&'static str, NoMemory>
    requires no_imports { «module».old.imports ≡ [] }
    requires no_funcs { «module».old.funcs ≡ [] }
{
    add_two(alloc, &mut module.funcs)?;
    declare_refs(alloc, module)?;
    if module.elems.len() != 1 {
        return Ok("how many segments there are");
    }
    match module.elems.get(0) {
        Some(segment) => Ok(unlike_declaring(segment)),
        None => Ok("the segment"),
    }
}

fn unlike_both_declared(alloc: Global) -> Result<&'static str, NoMemory> {
    let mut module = Module::empty(alloc);
    let unlike = unlike_both(alloc, &mut module);
    drop(module);
    unlike
}

// The same of a module with an exported function that its body names: nothing is appended.
fn unlike_exported(alloc: Global, module: &mut Module) -> Result<&'static str, NoMemory>
    requires no_imports { «module».old.imports ≡ [] }
    requires no_funcs { «module».old.funcs ≡ [] }
{
    add_one(alloc, &mut module.funcs)?;
    add_export(alloc, &mut module.exports)?;
    declare_refs(alloc, module)?;
    if module.elems.len() != 0 {
        return Ok("how many segments there are");
    }
    Ok("")
}

fn unlike_exported_declared(alloc: Global) -> Result<&'static str, NoMemory> {
    let mut module = Module::empty(alloc);
    let unlike = unlike_exported(alloc, &mut module);
    drop(module);
    unlike
}

#[test]
fn one_segment_declares_both(rt: HostRuntime) -> Result<(), Fail> {
    expect_alike(unlike_both_declared(rt.alloc()))
}

#[test]
fn an_exported_function_is_declared_already(rt: HostRuntime) -> Result<(), Fail> {
    expect_alike(unlike_exported_declared(rt.alloc()))
}
