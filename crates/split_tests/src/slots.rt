ghost use Rattle.std.specs.Prelude.{◌<◌, ◌^◌, length};

use crate::modules::{ADD, CALL, LINKED, module, planned};
use split_slots::needed;
use std::alloc::Global;
use std::test::Fail;
use wasm_bytes::Items;
use wasm_valid::Valid;

// The functions of this module, which these bytes spell, that need a trampoline where this word
// names what moves.
fn needed_in(alloc: Global, input: &Valid, bytes: &[u8], word: &str) -> Result<Items<u32>, Fail>
    requires { length bytes.now < 2 ^ 32 }
{
    let plan = planned(alloc, input, bytes, word)?;
    Ok(needed(alloc, input, &plan)?)
}

// The functions of the module that these bytes spell that need a trampoline where this word names
// what moves.
fn needed_of(alloc: Global, bytes: &[u8], word: &str) -> Result<Items<u32>, Fail>
    requires { length bytes.now < 2 ^ 32 }
{
    let input = module(alloc, bytes)?;
    needed_in(alloc, &input, bytes, word)
}

// The functions that need a trampoline where this word names what moves.
fn told(alloc: Global, bytes: &[u8], word: &str) -> Result<String, Fail>
    requires { length bytes.now < 2 ^ 32 }
{
    let needed = needed_of(alloc, bytes, word)?;
    Ok(format!(in alloc; "{:?}", needed.as_slice())?)
}

#[test]
fn an_exported_function_needs_a_trampoline(rt: HostRuntime) -> Result<(), Fail> {
    assert_eq!(rt; told(rt.alloc(), ADD, "add")?.as_str(), "[0]");
    Ok(())
}

#[test]
fn a_function_that_is_only_called_needs_none(rt: HostRuntime) -> Result<(), Fail> {
    assert_eq!(rt; told(rt.alloc(), CALL, "g")?.as_str(), "[]");
    Ok(())
}

#[test]
fn a_function_in_a_table_needs_a_trampoline(rt: HostRuntime) -> Result<(), Fail> {
    assert_eq!(rt; told(rt.alloc(), LINKED, "twice")?.as_str(), "[3]");
    Ok(())
}
