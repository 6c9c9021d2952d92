// The public call `sample`.

ghost use Rattle.std.specs.Prelude.{◌≡◌, ◌<◌, ◌≤◌, ◌^◌, IfOk};
ghost use Rattle.wasm_gen.specs.Modules as spec;

use crate::first::first_module;
use crate::pair::Sample;
use crate::second::second_module;
use std::alloc::Global;
use wasm_bytes::NoMemory;
use wasm_valid::{Valid, valid_where_items_hold};

/// Makes two valid modules from numbers that a linear congruential generator draws from `seed`.
/// `seed` must be below 2^31, and `count` from 1 to 100,000.
///
/// All functions take and return an i32. The first module exports `count` functions as `f0`, `f1`
/// and so on. Each combines its parameter and a drawn number by `i32.add`, `i32.xor` or `i32.mul`;
/// the number is drawn first, and then the operation. The second module takes the draws that
/// follow. It imports all functions of the first from module `a`, and exports `count` functions as
/// `g0`, `g1` and so on, each of which passes its parameter to a drawn one of the imported
/// functions. The only error is `NoMemory`.
pub fn sample(alloc: Global, seed: u32, count: u32) -> Result<Sample, NoMemory>
    requires seed { seed < 2 ^ 31 }
    requires some { 1 ≤ count }
    requires most { count ≤ 100000 }
    ensures first { IfOk result (λ sample. sample.first ≡ spec.first_module seed count) }
    ensures second { IfOk result (λ sample. sample.second ≡ spec.second_module seed count) }
{
    valid_where_items_hold();
    let mut state = seed;
    let first = Valid::known(first_module(alloc, &mut state, count)?);
    let second = Valid::known(second_module(alloc, &mut state, count)?);
    Ok(Sample { first, second })
}
