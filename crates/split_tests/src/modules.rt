// Modules that are split, and their plans.

ghost use Rattle.std.specs.Prelude.{◌<◌, ◌^◌, IfOk, length};
ghost use Rattle.split_plan.specs.PlannedMoves.{IsPlan};

use split_plan::{Plan, plan};
use std::alloc::Global;
use std::test::Fail;
use wasm_bytes::{Items, Name, NoMemory};
use wasm_names::{FuncName, function_names};
use wasm_read::read;
use wasm_valid::{Valid, validate};

/// A function that adds, exported as `add`.
pub(crate) const ADD: &[u8] =
    b"\x00\x61\x73\x6D\x01\x00\x00\x00\x01\x07\x01\x60\x02\x7F\x7F\x01\x7F\x03\x02\x01\x00\x07\x07\x01\x03\x61\x64\x64\x00\x00\x0A\x09\x01\x07\x00\x20\x00\x20\x01\x6A\x0B";

/// Function 0 is exported as `f` and calls function 1, which is named `g`.
pub(crate) const CALL: &[u8] = b"\
    \x00\x61\x73\x6D\x01\x00\x00\x00\
    \x01\x05\x01\x60\x00\x01\x7F\
    \x03\x03\x02\x00\x00\
    \x07\x05\x01\x01\x66\x00\x00\
    \x0A\x0B\x02\x04\x00\x10\x01\x0B\x04\x00\x41\x07\x0B\
    \x00\x0B\x04\x6E\x61\x6D\x65\x01\x04\x01\x01\x01\x67";

/// As a linker writes it: log is imported, then ctors, init, twice and run; run calls log, and twice through the table.
pub(crate) const LINKED: &[u8] = b"\
    \x00\x61\x73\x6D\x01\x00\x00\x00\
    \x01\x0D\x03\x60\x00\x00\x60\x01\x7F\x01\x7F\x60\x01\x7F\x00\
    \x02\x0B\x01\x03\x65\x6E\x76\x03\x6C\x6F\x67\x00\x02\
    \x03\x05\x04\x00\x00\x01\x01\
    \x04\x05\x01\x70\x01\x05\x05\
    \x05\x03\x01\x00\x02\
    \x06\x08\x01\x7F\x01\x41\x90\x88\x04\x0B\
    \x07\x24\x03\x06\x6D\x65\x6D\x6F\x72\x79\x02\x00\x11\x5F\x5F\x77\x61\x73\x6D\x5F\x63\x61\x6C\
    \x6C\x5F\x63\x74\x6F\x72\x73\x00\x01\x03\x72\x75\x6E\x00\x04\
    \x09\x07\x01\x00\x41\x01\x0B\x01\x03\
    \x0A\x33\x04\x08\x00\x10\x82\x80\x80\x80\x00\x0B\x0A\x00\x41\x00\x41\x2A\x36\x02\x84\x08\x0B\
    \x07\x00\x20\x00\x41\x01\x74\x0B\x15\x00\x20\x00\x10\x80\x80\x80\x80\x00\x20\x00\x41\x01\x11\
    \x81\x80\x80\x80\x00\x00\x0B\
    \x0B\x09\x01\x00\x41\x80\x08\x0B\x02\x68\x69\
    \x00\x32\x04\x6E\x61\x6D\x65\x01\x2B\x05\x00\x03\x6C\x6F\x67\x01\x11\x5F\x5F\x77\x61\x73\x6D\
    \x5F\x63\x61\x6C\x6C\x5F\x63\x74\x6F\x72\x73\x02\x04\x69\x6E\x69\x74\x03\x05\x74\x77\x69\x63\
    \x65\x04\x03\x72\x75\x6E";

/// The module that these bytes spell.
pub(crate) fn module(alloc: Global, bytes: &[u8]) -> Result<Valid, Fail>
    requires { length bytes.now < 2 ^ 32 }
{
    let Ok(module) = read(alloc, bytes) else {
        return Err(Fail::new("the module is not read"));
    };
    match validate(alloc, module) {
        Ok(valid) => Ok(valid),
        Err(_rejected) => Err(Fail::new("the module is not valid")),
    }
}

fn words(alloc: Global, word: &str) -> Result<Items<Name>, NoMemory> {
    let name = Name::from_text(alloc, word)?;
    let mut words = Items::new(alloc);
    words.keep(name)?;
    Ok(words)
}

// The plan of a split of this module, where these words name what moves.
fn planned_by(
    alloc: Global,
    input: &Valid,
    listed: &Items<FuncName>,
    words: &Items<Name>,
) -> Result<Plan, Fail>
    ensures { IfOk result (λ plan. IsPlan input.now plan) }
{
    match plan(alloc, input, listed, Some(words), None) {
        Ok(plan) => Ok(plan),
        Err(_) => Err(Fail::new("no plan")),
    }
}

/// The plan of a split of this module, which these bytes spell, where this word names what moves.
pub(crate) fn planned(alloc: Global, input: &Valid, bytes: &[u8], word: &str) -> Result<Plan, Fail>
    requires { length bytes.now < 2 ^ 32 }
    ensures { IfOk result (λ plan. IsPlan input.now plan) }
{
    let words = words(alloc, word)?;
    let listed = function_names(alloc, bytes)?;
    planned_by(alloc, input, &listed, &words)
}
