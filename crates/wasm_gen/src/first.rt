// The first module: it exports functions that compute with drawn numbers.

ghost use Rattle.std.specs.Prelude.{◌≡◌, ◌*◌, ◌≤◌, map, IfOk, OnOk};
ghost use Rattle.base_lists.specs.Places.{numbers};
ghost use Rattle.wasm_gen.specs.Draws.{draw as draws, next};
ghost use Rattle.wasm_gen.specs.Modules as spec;

use crate::draws::draw;
use crate::shared::{exports_from, func, module};
use std::alloc::Global;
use wasm_bytes::{Items, NoMemory};
use wasm_num::BinOp;
use wasm_tree::{Func, Instr, Module};

fn operation(number: u32) -> BinOp
    ensures { result ≡ spec.operation number }
{
    match number {
        0 => BinOp::I32Add,
        1 => BinOp::I32Xor,
        _ => BinOp::I32Mul,
    }
}

// Makes a function, for which it draws the number and then the operation.
fn first_func(alloc: Global, state: &mut u32) -> Result<Func, NoMemory>
    ensures func { IfOk result (λ f. f ≡ spec.joined (next state.old) (next (next state.old))) }
    ensures state { OnOk result (state.new ≡ next (next state.old)) }
{
    let number = draw(state);
    let op = operation(draw(state) % 3);
    let mut body = Items::new(alloc);
    body.keep(Instr::LocalGet(0))?;
    body.keep(Instr::I32Const(number as i32))?;
    body.keep(Instr::Bin(op))?;
    Ok(func(alloc, body))
}

// Makes the functions, with two draws for each.
#[tactic(auto, using(crate::proofs::Drawing::first_more, crate::proofs::Drawing::drawn_twice))]
fn first_funcs(alloc: Global, state: &mut u32, count: u32) -> Result<Items<Func>, NoMemory>
    ensures funcs { IfOk result (λ all. all ≡ map (spec.first_func state.old) (numbers 0 count)) }
    ensures state { OnOk result (state.new ≡ draws state.old (count * 2)) }
{
    let mut all = Items::new(alloc);
    for _ in 0..count {
        all.keep(first_func(alloc, state)?)?;
    }
    Ok(all)
}

/// Makes the first module, with two draws for each function.
pub(crate) fn first_module(alloc: Global, state: &mut u32, count: u32) -> Result<Module, NoMemory>
    ensures value { IfOk result (λ it. it ≡ spec.first_module state.old count) }
    ensures state { OnOk result (state.new ≡ draws state.old (count * 2)) }
{
    let funcs = first_funcs(alloc, state, count)?;
    let exports = exports_from(alloc, "f", 0, count)?;
    module(alloc, Items::new(alloc), funcs, exports)
}
