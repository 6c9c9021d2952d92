// What functions name, leaving out calls of functions that move.

ghost use Rattle.std.specs.Prelude.{◌≡◌, ◌≤◌, ◌<◌, ◌-◌, ◌&&◌, ◌∷◌, [], ℕ, List, Option, true, false, length, nat_eq, replicate, slice_get, slice_index, IfOk};
ghost use Rattle.std.specs.List.{cons_option, list_any};
ghost use Rattle.wasm_tree.specs.Operands.{listed, same_space};
ghost use Rattle.base_lists.specs.Every.{Every};
ghost use Rattle.wasm_tree.specs.Spaces.{imported_funcs};
ghost use Rattle.wasm_tree.specs.declared.space.Space.{Space as Spaces};
ghost use Rattle.split_spec.specs.FromPrimary.{entities};
ghost use Rattle.split_slots.specs.OperandMarks.{marks_by, marks_in, Notes, body_names, held_in, named_by};

use crate::slots::slot_at;
use std::alloc::{AllocError, Global};
use wasm_tree::{Instr, Module, Operand, Operands, Space, operands_pass_layer_by_layer};
use wasm_valid::mark;

/// A mark for each function, table, memory and global: whether it is named.
#[derive(Drop)]
pub(crate) struct Marks {
    pub(crate) funcs: Vec<bool>,
    pub(crate) tables: Vec<bool>,
    pub(crate) mems: Vec<bool>,
    pub(crate) globals: Vec<bool>,
}

fn mark_at(marks: &mut Marks, space: Space, index: u32)
    ensures { Notes (λ s i. same_space space s && nat_eq index i) marks.old marks.new }
{
    match space {
        Space::Functions => mark(&mut marks.funcs, index),
        Space::Tables => mark(&mut marks.tables, index),
        Space::Memories => mark(&mut marks.mems, index),
        Space::Globals => mark(&mut marks.globals, index),
        Space::Types | Space::ElementSegments | Space::DataSegments => (),
    }
}

// Marks what the operand names, unless it is the operand of a `call` of a moved function.
fn note(marks: &mut Marks, operand: Operand, slots: &[Option<u32>])
    ensures { Notes (λ s i. named_by slots.now s i operand) marks.old marks.new }
{
    if operand.called && slot_at(slots, operand.index).is_some() {
        return;
    }
    mark_at(marks, operand.space, operand.index);
}

fn note_one(marks: &mut Marks, operand: Option<Operand>, slots: &[Option<u32>])
    ensures { Notes (λ s i. list_any (named_by slots.now s i) (cons_option operand [])) marks.old marks.new }
{
    if let Some(operand) = operand {
        note(marks, operand, slots);
    }
}

fn note_operands(marks: &mut Marks, operands: Operands, slots: &[Option<u32>])
    ensures { Notes (λ s i. list_any (named_by slots.now s i) (listed operands)) marks.old marks.new }
{
    note_one(marks, operands.first, slots);
    note_one(marks, operands.second, slots);
}

#[cycle(named)]
fn note_inside(marks: &mut Marks, instr: &Instr, slots: &[Option<u32>])
    ensures { Notes (body_names slots.now (held_in instr.now)) marks.old marks.new }
{
    match instr {
        Instr::Block(_, body) => note_body(marks, body.as_slice(), slots),
        Instr::Loop(_, body) => note_body(marks, body.as_slice(), slots),
        Instr::If(_, body, other) => {
            note_body(marks, body.as_slice(), slots);
            note_body(marks, other.as_slice(), slots);
        }
        _ => (),
    }
}

// Returns `true` only if the instruction names nothing; it knows the most frequent such ones.
fn names_nothing(instr: &Instr) -> bool
    ensures { result ≡ true → (slots : List (Option ℕ)) → (space : Spaces) → (index : ℕ) → body_names slots (instr.now ∷ []) space index ≡ false }
{
    match instr {
        Instr::LocalGet(_) | Instr::LocalSet(_) | Instr::LocalTee(_) => true,
        Instr::I32Const(_) | Instr::I64Const(_) | Instr::Un(_) | Instr::Bin(_) => true,
        _ => false,
    }
}

#[cycle(named)]
fn note_instr(marks: &mut Marks, instr: &Instr, slots: &[Option<u32>])
    ensures { Notes (body_names slots.now (instr.now ∷ [])) marks.old marks.new }
{
    if names_nothing(instr) {
        return;
    }
    operands_pass_layer_by_layer();
    note_operands(marks, instr.operands(), slots);
    note_inside(marks, instr, slots);
}

/// Marks what the code names, leaving out calls of functions that move.
#[cycle(named)]
pub(crate) fn note_body(marks: &mut Marks, body: &[Instr], slots: &[Option<u32>])
    ensures { Notes (body_names slots.now body.now) marks.old marks.new }
{
    for instr in body {
        note_instr(marks, instr, slots);
    }
}

fn no_marks(alloc: Global, module: &Module) -> Result<Marks, AllocError>
    ensures { IfOk result (λ marks. (space : Spaces) → marks_in marks space ≡ replicate (length (entities «module».now space)) false) }
{
    Ok(Marks {
        funcs: vec![in alloc; false; module.func_space()]?,
        tables: vec![in alloc; false; module.table_space()]?,
        mems: vec![in alloc; false; module.memory_space()]?,
        globals: vec![in alloc; false; module.global_space()]?,
    })
}

// Marks what the function at place `at` of `own` names; `first` is the number of imported
// functions.
fn note_func(
    marks: &mut Marks,
    module: &Module,
    own: &[u32],
    at: usize,
    first: usize,
    slots: &[Option<u32>],
)
    requires there { at < length own.now }
    requires defined { first ≤ slice_index own.now at }
    ensures { Notes (λ s i. list_any (λ f. body_names slots.now f.body s i) (cons_option (slice_get «module».now.funcs (slice_index own.now at - first)) [])) marks.old marks.new }
{
    if let Some(func) = module.funcs.get(own[at] as usize - first) {
        note_body(marks, func.body.as_slice(), slots);
    }
}

/// Returns marks of what the functions `own` name, leaving out calls of functions that have slots.
pub(crate) fn named_marks(
    alloc: Global,
    module: &Module,
    own: &[u32],
    slots: &[Option<u32>],
) -> Result<Marks, AllocError>
    requires defined { Every (λ func. length (imported_funcs «module».now.imports) ≤ func) own.now }
    ensures { IfOk result (λ marks. (space : Spaces) → marks_in marks space ≡ marks_by slots.now «module».now own.now space) }
{
    let first = module.imported_funcs();
    let mut marks = no_marks(alloc, module)?;
    for at in 0..own.len() {
        note_func(&mut marks, module, own, at, first, slots);
    }
    Ok(marks)
}
