// Replaces calls of moved functions in code.

ghost use Rattle.std.specs.Prelude.{◌≡◌, ℕ, ◌++◌, ◌<◌, ◌≤◌, ◌^◌, drop, length, take, true, IfOk, OnOk};
ghost use Rattle.std.specs.List.{flat_map};
ghost use Rattle.split_spec.specs.SubstitutedCalls.{with_calls};
ghost use Rattle.split_slots.specs.SlotLookup.{slot_at};
ghost use Rattle.split_slots.specs.declared.call_replacement.Target.TheVariants as targets;
ghost use Rattle.split_slots.specs.InstructionReplacements.{FewSlots};
ghost use Rattle.split_slots.specs.InstructionReplacements as replacing;

use crate::slots::slot_at;
use std::alloc::Global;
use std::mem;
use wasm_bytes::{Items, NoMemory};
use wasm_tree::Instr;

/// What is needed to replace the calls in one of the two modules.
#[derive(Clone, Copy, Drop)]
pub(crate) struct Calls<'a> {
    /// The type index of each function.
    pub(crate) types: &'a [u32],
    /// For each function its slot, or `None` if it does not move.
    pub(crate) slots: &'a [Option<u32>],
    /// The index of the slot table.
    pub(crate) table: u32,
    /// The index of the first moved function that this module defines itself.
    pub(crate) base: u32,
    /// The slots of these functions: from `first` on, before `end`.
    pub(crate) first: u32,
    pub(crate) end: u32,
}

/// What replaces a call.
#[derive(Clone, Copy, Drop)]
enum Target {
    /// A call of this function.
    Func(u32),
    /// A call by this type through this slot.
    Slot { ty: u32, slot: u32 },
}

impl Calls<'_> {
    fn target(&self, func: u32) -> Target
        requires few { FewSlots self.now }
        ensures { result ≡ replacing.target_of self.now func (slot_at self.now.slots.now func) }
    {
        match slot_at(self.slots, func) {
            None => Target::Func(func),
            Some(slot) if self.first <= slot && slot < self.end => {
                Target::Func(self.base + (slot - self.first))
            }
            Some(slot) => Target::Slot {
                ty: self.types[func as usize],
                slot,
            },
        }
    }
}

// Appends what replaces a call.
#[tactic(auto, using(crate::proofs::TrampolineBodies::push_two))]
fn put_target(body: &mut Items<Instr>, table: u32, target: Target) -> Result<(), NoMemory>
    requires few { (ty slot : ℕ) → target ≡ targets.Slot ty slot → slot < 2 ^ 31 }
    ensures { OnOk result (body.new ≡ body.old ++ replacing.target_code table target) }
{
    match target {
        Target::Func(func) => body.keep(Instr::Call(func)),
        Target::Slot { ty, slot } => {
            body.keep(Instr::I32Const(slot as i32))?;
            body.keep(Instr::CallIndirect { ty, table })
        }
    }
}

// Appends what replaces the instruction; the code inside it stays as it is.
fn put_instr(body: &mut Items<Instr>, instr: Instr, calls: &Calls<'_>) -> Result<(), NoMemory>
    requires few { FewSlots calls.now }
    ensures { OnOk result (body.new ≡ body.old ++ replacing.code_here (replacing.code_of_call calls.now) instr) }
{
    match instr {
        Instr::Call(func) => put_target(body, calls.table, calls.target(func)),
        other => body.keep(other),
    }
}

// Appends what replaces the instructions, which are moved out of `from`; the code inside them stays
// as it is.
fn put_each(
    body: &mut Items<Instr>,
    from: &mut Items<Instr>,
    calls: &Calls<'_>,
) -> Result<(), NoMemory>
    requires few { FewSlots calls.now }
    ensures { OnOk result (body.new ≡ body.old ++ flat_map (replacing.code_here (replacing.code_of_call calls.now)) from.old) }
{
    for at in 0..from.len() {
        if let Some(instr) = from.get_mut(at) {
            let taken = mem::replace(instr, Instr::Nop);
            put_instr(body, taken, calls)?;
        }
    }
    Ok(())
}

// Replaces the calls from place `at` on, but not those inside blocks.
fn spread_from(body: &mut Items<Instr>, at: usize, calls: &Calls<'_>) -> Result<(), NoMemory>
    requires few { FewSlots calls.now }
    requires there { at ≤ length body.old }
    ensures { OnOk result (body.new ≡ take at body.old ++ flat_map (replacing.code_here (replacing.code_of_call calls.now)) (drop at body.old)) }
{
    let mut rest = body.split_off(at)?;
    put_each(body, &mut rest, calls)
}

// Sets the index of a direct call to the index of its function in this module. Returns whether the
// call has to go through a slot instead; such a call is left as it is.
fn settle_call(func: &mut u32, calls: &Calls<'_>) -> bool
    requires few { FewSlots calls.now }
    ensures settled { func.new ≡ replacing.settled_call calls.now func.old }
    ensures spread { result ≡ replacing.is_through_slot calls.now func.old }
{
    match calls.target(*func) {
        Target::Func(own) => {
            *func = own;
            false
        }
        Target::Slot { .. } => true,
    }
}

// Replaces the calls inside the instruction, and treats a call as `settle_call` does; returns
// whether the instruction is a call that has to go through a slot.
#[cycle(replace)]
fn settle(alloc: Global, instr: &mut Instr, calls: &Calls<'_>) -> Result<bool, NoMemory>
    requires few { FewSlots calls.now }
    ensures settled { OnOk result (instr.new ≡ replacing.settled calls.now instr.old) }
    ensures spread { IfOk result (λ spread. spread ≡ replacing.is_spread calls.now instr.old) }
{
    match instr {
        Instr::Call(func) => return Ok(settle_call(func, calls)),
        Instr::Block(_, body) => replace_calls(alloc, body, calls)?,
        Instr::Loop(_, body) => replace_calls(alloc, body, calls)?,
        Instr::If(_, body, other) => {
            replace_calls(alloc, body, calls)?;
            replace_calls(alloc, other, calls)?;
        }
        _ => (),
    }
    Ok(false)
}

// Returns the earlier of both places, or `first` if `counts` is false.
fn earlier(first: usize, at: usize, counts: bool) -> usize
    ensures first { result ≤ first }
    ensures at { counts ≡ true → result ≤ at }
{
    if counts && at < first { at } else { first }
}

/// Replaces the calls of moved functions, in blocks as well. Instructions are moved, not copied,
/// and those before the first call through a slot stay in place.
#[cycle(replace)]
pub(crate) fn replace_calls(
    alloc: Global,
    body: &mut Items<Instr>,
    calls: &Calls<'_>,
) -> Result<(), NoMemory>
    requires few { FewSlots calls.now }
    ensures { OnOk result (body.new ≡ with_calls (replacing.code_of_call calls.now) body.old) }
{
    let mut first = body.len();
    for at in 0..body.len() {
        if let Some(instr) = body.get_mut(at) {
            let spread = settle(alloc, instr, calls)?;
            first = earlier(first, at, spread);
        }
    }
    if first < body.len() {
        spread_from(body, first, calls)?;
    }
    Ok(())
}
