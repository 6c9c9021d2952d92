// How modules are booted and their functions run.

ghost use Rattle.std.specs.Prelude.{◌<◌, ◌^◌, IfOk, length};
ghost use Rattle.eval_machine.specs.Kept.{Rests};

use crate::modules::{module, spelled};
use eval_machine::{Booted, Machine, Ran};
use eval_spec::Stop;
use std::alloc::Global;
use std::test::Fail;
use wasm_tree::ConstExpr;
use wasm_valid::Valid;

/// The machine after the instantiation and the start.
fn ready(alloc: Global, input: &Valid) -> Result<Machine, Fail>
    ensures { IfOk result (Rests input.now) }
{
    match Machine::boot(alloc, input)? {
        Booted::Ready(machine) => Ok(machine),
        Booted::Stopped(_) => Err(Fail::new("the instantiation is stopped")),
    }
}

/// Runs a function that the module has.
fn run(machine: &mut Machine, input: &Valid, func: u32) -> Result<Ran, Fail>
    requires { Rests input.now machine.old }
    ensures { Rests input.now machine.new }
{
    if func as usize >= input.module().func_space() {
        return Err(Fail::new("no such function"));
    }
    Ok(machine.run_ctor(input, func)?)
}

// These functions, one after the other, end so.
fn end(machine: &mut Machine, input: &Valid, runs: &[(u32, Ran)]) -> Result<(), Fail>
    requires { Rests input.now machine.old }
    ensures { Rests input.now machine.new }
{
    for i in 0..runs.len() {
        let (func, ran) = runs[i];
        if run(machine, input, func)? != ran {
            return Err(Fail::new("a run ends otherwise"));
        }
    }
    Ok(())
}

/// What is seen of a machine: the first place whose byte is not zero, a global, whether segment 0 is dropped, and how many blocks are written.
#[derive(Clone, Copy)]
pub(crate) struct Seen {
    pub(crate) nonzero: Option<u64>,
    pub(crate) global: Option<ConstExpr>,
    pub(crate) dropped: bool,
    pub(crate) blocks: Option<u32>,
}

fn see(machine: &Machine, global: u32) -> Seen {
    Seen {
        nonzero: machine.next_nonzero(0),
        global: machine.global_value(global),
        dropped: machine.dropped(0),
        blocks: machine.memory().map(|pages| pages.blocks_written()),
    }
}

// These functions of a machine, one after the other, end so, and this is seen then.
fn seen_after(
    machine: &mut Machine,
    input: &Valid,
    runs: &[(u32, Ran)],
    global: u32,
) -> Result<Seen, Fail>
    requires { Rests input.now machine.old }
{
    end(machine, input, runs)?;
    Ok(see(machine, global))
}

/// These functions, one after the other, end so, and this is seen then, with the value of one global.
pub(crate) fn after(
    alloc: Global,
    input: &Valid,
    runs: &[(u32, Ran)],
    global: u32,
) -> Result<Seen, Fail> {
    let mut machine = ready(alloc, input)?;
    seen_after(&mut machine, input, runs, global)
}

/// What is seen after these runs of functions of the module that these bytes spell.
pub(crate) fn after_runs(
    alloc: Global,
    bytes: &[u8],
    runs: &[(u32, Ran)],
    global: u32,
) -> Result<Seen, Fail>
    requires { length bytes.now < 2 ^ 32 }
{
    let input = module(alloc, bytes)?;
    after(alloc, &input, runs, global)
}

// The byte at a place, if the memory has it.
fn byte(machine: &Machine, at: u64) -> Option<u8> {
    if at < machine.memory_size() {
        Some(machine.byte(at))
    } else {
        None
    }
}

fn byte_of(alloc: Global, input: &Valid, at: u64) -> Result<Option<u8>, Fail> {
    let machine = ready(alloc, input)?;
    Ok(byte(&machine, at))
}

/// A byte after the instantiation, if the memory has it.
pub(crate) fn byte_at_first(alloc: Global, bytes: &[u8], at: u64) -> Result<Option<u8>, Fail>
    requires { length bytes.now < 2 ^ 32 }
{
    let input = module(alloc, bytes)?;
    byte_of(alloc, &input, at)
}

/// What stops the instantiation or the start, if anything does.
pub(crate) fn boot_stop(alloc: Global, input: &Valid) -> Result<Option<Stop>, Fail> {
    match Machine::boot(alloc, input)? {
        Booted::Ready(_machine) => Ok(None),
        Booted::Stopped(stop) => Ok(Some(stop)),
    }
}

/// What stops the instantiation or the start of the module that these bytes spell, if anything does.
pub(crate) fn boot_stop_of(alloc: Global, bytes: &[u8]) -> Result<Option<Stop>, Fail> {
    let input = spelled(alloc, bytes)?;
    boot_stop(alloc, &input)
}

// Whether each of so many functions of the module is stopped so.
fn each(machine: &mut Machine, input: &Valid, count: u32, stop: Stop) -> Result<bool, Fail>
    requires { Rests input.now machine.old }
{
    for func in 0..count {
        if run(machine, input, func)? != Ran::Stopped(stop) {
            return Ok(false);
        }
    }
    Ok(true)
}

fn each_of(alloc: Global, input: &Valid, count: u32, stop: Stop) -> Result<bool, Fail> {
    let mut machine = ready(alloc, input)?;
    each(&mut machine, input, count, stop)
}

/// Whether each of so many functions of the module that these bytes spell is stopped so.
pub(crate) fn each_is_stopped(
    alloc: Global,
    bytes: &[u8],
    count: u32,
    stop: Stop,
) -> Result<bool, Fail> {
    let input = spelled(alloc, bytes)?;
    each_of(alloc, &input, count, stop)
}
