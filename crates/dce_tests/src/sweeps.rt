ghost use Rattle.std.specs.Prelude.{◌≡◌, IfOk};
ghost use Rattle.dce_tests.specs.Two as modules;

use dce_graph::Reached;
use dce_sweep::sweep;
use std::alloc::Global;
use std::test::Fail;
use wasm_bytes::{Items, Name, NoMemory};
use wasm_tree::{Export, ExportDesc, Func, FuncType, Module};
use wasm_valid::{Valid, validate};

fn blank(alloc: Global) -> Func
    ensures { result ≡ modules.blank }
{
    Func {
        ty: 0,
        locals: Items::new(alloc),
        body: Items::new(alloc),
    }
}

fn types(alloc: Global) -> Result<Items<FuncType>, NoMemory>
    ensures { IfOk result (λ types. types ≡ modules.two.types) }
{
    let mut types = Items::new(alloc);
    types.keep(FuncType {
        params: Items::new(alloc),
        results: Items::new(alloc),
    })?;
    Ok(types)
}

fn funcs(alloc: Global) -> Result<Items<Func>, NoMemory>
    ensures { IfOk result (λ funcs. funcs ≡ modules.two.funcs) }
{
    let mut funcs = Items::new(alloc);
    funcs.keep(blank(alloc))?;
    funcs.keep(blank(alloc))?;
    Ok(funcs)
}

fn exports(alloc: Global) -> Result<Items<Export>, NoMemory>
    ensures { IfOk result (λ exports. exports ≡ modules.two.exports) }
{
    let name = Name::from_text(alloc, "f")?;
    let mut exports = Items::new(alloc);
    exports.keep(Export {
        name,
        desc: ExportDesc::Func(1),
    })?;
    Ok(exports)
}

// Two functions, of which the second is exported.
fn two(alloc: Global) -> Result<Module, NoMemory>
    ensures { IfOk result (λ m. m ≡ modules.two) }
{
    let types = types(alloc)?;
    let funcs = funcs(alloc)?;
    let exports = exports(alloc)?;
    let mut module = Module::empty(alloc);
    module.types = types;
    module.funcs = funcs;
    module.exports = exports;
    Ok(module)
}

fn second(alloc: Global) -> Result<Reached, NoMemory>
    ensures { IfOk result (λ r. r ≡ modules.second) }
{
    let exports = Items::from_slice(alloc, &[true])?;
    let funcs = Items::from_slice(alloc, &[false, true])?;
    Ok(Reached {
        nodes: Items::new(alloc),
        exports,
        imports: Items::new(alloc),
        funcs,
        globals: Items::new(alloc),
    })
}

// The two functions, known to be valid.
#[tactic(auto, using(crate::proofs::Closed::bounded))]
fn valid_two(alloc: Global) -> Result<Valid, Fail>
    ensures { IfOk result (λ valid. valid ≡ modules.two) }
{
    match validate(alloc, two(alloc)?) {
        Ok(valid) => Ok(valid),
        Err(_rejected) => Err(Fail::new("not valid")),
    }
}

// What sweeping leaves of the two functions, with these marks of what is reached.
#[tactic(auto, using(crate::proofs::Closed::closed))]
fn swept(alloc: Global, marks: &Reached) -> Result<Valid, Fail>
    requires { marks.now ≡ modules.second }
{
    let input = valid_two(alloc)?;
    match sweep(alloc, input, marks) {
        Ok(left) => Ok(left),
        Err(_fault) => Err(Fail::new("not swept")),
    }
}

// What sweeping leaves of the two functions if only the second is reached.
fn left_of_two(alloc: Global) -> Result<Valid, Fail> {
    let marks = second(alloc)?;
    swept(alloc, &marks)
}

// Whether export 0 is function 0.
fn exports_first(module: &Module) -> bool {
    match module.exports.get(0) {
        Some(export) => export.desc == ExportDesc::Func(0),
        None => false,
    }
}

// Names the first thing of a module that is not as it is to be where only the second function is
// left, or nothing.
fn unlike_left(module: &Module) -> &'static str {
    if module.types.len() != 1 {
        return "the types";
    }
    if module.funcs.len() != 1 {
        return "the functions";
    }
    if !exports_first(module) {
        return "the export";
    }
    ""
}

fn unlike_swept(alloc: Global) -> Result<&'static str, Fail> {
    let left = left_of_two(alloc)?;
    Ok(unlike_left(left.module()))
}

#[test]
fn a_function_that_is_not_reached_is_removed(rt: HostRuntime) -> Result<(), Fail> {
    assert_eq!(rt; unlike_swept(rt.alloc())?, "");
    Ok(())
}
