// The second module: it imports the functions of the first, and calls one in each of its own.

ghost use Rattle.std.specs.Prelude.{◌≡◌, ◌<◌, ◌≤◌, ◌^◌, map, IfOk};
ghost use Rattle.base_lists.specs.Places.{numbers};
ghost use Rattle.wasm_gen.specs.Modules as spec;

use crate::draws::draw;
use crate::shared::{exports_from, func, module, numbered_name};
use std::alloc::Global;
use wasm_bytes::{Items, Name, NoMemory};
use wasm_tree::{Func, Import, ImportDesc, Instr, Module};

// Returns imports of all functions of the first module, in order.
#[tactic(auto, using(crate::proofs::Drawing::import_more))]
fn imports_of(alloc: Global, count: u32) -> Result<Items<Import>, NoMemory>
    ensures { IfOk result (λ all. all ≡ spec.second_imports count) }
{
    let mut all = Items::new(alloc);
    for i in 0..count {
        all.keep(Import {
            module: Name::from_text(alloc, "a")?,
            field: numbered_name(alloc, "f", i)?,
            desc: ImportDesc::Func(0),
        })?;
    }
    Ok(all)
}

fn passed(alloc: Global, callee: u32) -> Result<Func, NoMemory>
    ensures { IfOk result (λ f. f ≡ spec.passed callee) }
{
    let mut body = Items::new(alloc);
    body.keep(Instr::LocalGet(0))?;
    body.keep(Instr::Call(callee))?;
    Ok(func(alloc, body))
}

// Makes the functions, with a draw for each.
#[tactic(auto, using(crate::proofs::Drawing::second_more, crate::proofs::Drawing::drawn_once))]
fn second_funcs(alloc: Global, state: &mut u32, count: u32) -> Result<Items<Func>, NoMemory>
    requires { 1 ≤ count }
    ensures { IfOk result (λ all. all ≡ map (spec.second_func state.old count) (numbers 0 count)) }
{
    let mut all = Items::new(alloc);
    for _ in 0..count {
        all.keep(passed(alloc, draw(state) % count)?)?;
    }
    Ok(all)
}

/// Makes the second module, with the draws that follow `state`.
pub(crate) fn second_module(alloc: Global, state: &mut u32, count: u32) -> Result<Module, NoMemory>
    requires some { 1 ≤ count }
    requires few { count < 2 ^ 31 }
    ensures { IfOk result (λ it. it ≡ spec.second_from state.old count) }
{
    let imports = imports_of(alloc, count)?;
    let funcs = second_funcs(alloc, state, count)?;
    let exports = exports_from(alloc, "g", count, count)?;
    module(alloc, imports, funcs, exports)
}
