ghost use Rattle.std.specs.Prelude.{◌≡◌, ℕ, List, [], ◌∷◌, ◌+◌, ◌++◌, ◌||◌, OnOk, IsTrue, map};
ghost use Rattle.std.specs.List.{list_all};
ghost use Rattle.base_lists.specs.Every.{Every};
ghost use Rattle.wasm_tree.specs.Operands.{block_operands};
ghost use Rattle.wasm_write_proof.specs.Ranges.{IsU32, small_operand, in_range, all_in_range};
ghost use Rattle.wasm_tree.specs.DataUse.{uses_data_in, uses_data};
ghost use Rattle.wasm_bytes.specs.Numbers.{IsWithin};
ghost use Rattle.wasm_bytes.specs.Writing.{u32_text, s32_text, s64_text};
ghost use Rattle.wasm_write_spec.specs.PlainValues.{joined, each_text, vector_text, ref_text, val_text, block_type_text};
ghost use Rattle.wasm_write_spec.specs.PlainCode.{mem_arg_text, instr_text, instrs_text, else_text};

use crate::forms::{Form, form_of};
use crate::numbers::{spell_number, spell_s32, spell_s64, spell_u32};
use crate::plain::{Plain, spell_vector};
use crate::target::Target;
use crate::types::ref_code;
use wasm_tree::{BlockType, Instr, MemArg, RefType, ValType, operands_pass_layer_by_layer};
use wasm_write_proof::numbers_are_in_range_layer_by_layer;

/// Writes a memory argument (WebAssembly Core 2.0, section 5.4.6). The index of memory 0 is
/// omitted.
fn spell_mem_arg<T: Target>(target: &mut T, arg: &MemArg) -> Result<(), T::Refusal>
    ensures text { OnOk result (target.new ≡ T.preceded target.old (mem_arg_text arg.now)) }
    ensures align { IsU32 arg.now.align }
    ensures offset { IsU32 arg.now.offset }
    ensures memory { IsU32 arg.now.memory }
{
    spell_u32(target, arg.offset)?;
    if arg.memory == 0 {
        spell_u32(target, arg.align)
    } else {
        spell_u32(target, arg.memory)?;
        spell_number(target, u64::from(arg.align) + 64)
    }
}

/// Writes an opcode and an index.
#[inline]
pub(crate) fn spell_index<T: Target>(
    target: &mut T,
    opcode: u8,
    index: u32,
) -> Result<(), T::Refusal>
    ensures text { OnOk result (target.new ≡ T.preceded target.old (opcode ∷ u32_text index)) }
    ensures range { IsU32 index }
{
    spell_u32(target, index)?;
    target.byte(opcode)
}

/// Writes `FC`, an opcode and an index.
fn spell_prefixed<T: Target>(target: &mut T, opcode: u8, index: u32) -> Result<(), T::Refusal>
    ensures text { OnOk result (target.new ≡ T.preceded target.old (0xFC ∷ opcode ∷ u32_text index)) }
    ensures range { IsU32 index }
{
    spell_index(target, opcode, index)?;
    target.byte(0xFC)
}

/// Writes `FC`, an opcode and two indices.
fn spell_prefixed_pair<T: Target>(
    target: &mut T,
    opcode: u8,
    first: u32,
    second: u32,
) -> Result<(), T::Refusal>
    ensures text { OnOk result (target.new ≡ T.preceded target.old ((0xFC ∷ opcode ∷ u32_text first) ++ u32_text second)) }
    ensures first { IsU32 first }
    ensures second { IsU32 second }
{
    spell_u32(target, second)?;
    spell_prefixed(target, opcode, first)
}

/// Writes the opcode and the memory argument of a load or a store.
fn spell_access<T: Target>(target: &mut T, opcode: u8, arg: &MemArg) -> Result<(), T::Refusal>
    ensures text { OnOk result (target.new ≡ T.preceded target.old (opcode ∷ mem_arg_text arg.now)) }
    ensures align { IsU32 arg.now.align }
    ensures offset { IsU32 arg.now.offset }
    ensures memory { IsU32 arg.now.memory }
{
    spell_mem_arg(target, arg)?;
    target.byte(opcode)
}

/// Writes the opcode and the type of a block.
fn spell_opener<T: Target>(target: &mut T, opcode: u8, ty: &BlockType) -> Result<(), T::Refusal>
    ensures text { OnOk result (target.new ≡ T.preceded target.old (opcode ∷ block_type_text ty.now)) }
    ensures range { OnOk result (IsTrue (list_all small_operand (block_operands ty.now))) }
{
    ty.spell(target)?;
    target.byte(opcode)
}

/// Writes a `br_table`.
fn spell_branches<T: Target>(target: &mut T, labels: &[u32], other: u32) -> Result<(), T::Refusal>
    ensures text { OnOk result (target.new ≡ T.preceded target.old ((0x0E ∷ vector_text u32_text labels.now) ++ u32_text other)) }
    ensures labels { OnOk result (Every IsU32 labels.now) }
    ensures other { IsU32 other }
{
    spell_u32(target, other)?;
    spell_vector(target, labels)?;
    target.byte(0x0E)
}

/// Writes a typed `select`.
fn spell_typed<T: Target>(target: &mut T, types: &[ValType]) -> Result<(), T::Refusal>
    ensures { OnOk result (target.new ≡ T.preceded target.old (0x1C ∷ vector_text val_text types.now)) }
{
    spell_vector(target, types)?;
    target.byte(0x1C)
}

/// Writes a `call_indirect`.
#[inline]
fn spell_call_indirect<T: Target>(target: &mut T, ty: u32, table: u32) -> Result<(), T::Refusal>
    ensures text { OnOk result (target.new ≡ T.preceded target.old ((0x11 ∷ u32_text ty) ++ u32_text table)) }
    ensures ty { IsU32 ty }
    ensures table { IsU32 table }
{
    spell_u32(target, table)?;
    spell_index(target, 0x11, ty)
}

/// Writes an `i32.const`.
#[inline]
pub(crate) fn spell_i32_const<T: Target>(target: &mut T, value: i32) -> Result<(), T::Refusal>
    ensures text { OnOk result (target.new ≡ T.preceded target.old (0x41 ∷ s32_text value)) }
    ensures range { IsWithin 32 value }
{
    spell_s32(target, value)?;
    target.byte(0x41)
}

/// Writes an `i64.const`.
#[inline]
pub(crate) fn spell_i64_const<T: Target>(target: &mut T, value: i64) -> Result<(), T::Refusal>
    ensures text { OnOk result (target.new ≡ T.preceded target.old (0x42 ∷ s64_text value)) }
    ensures range { IsWithin 64 value }
{
    spell_s64(target, value)?;
    target.byte(0x42)
}

/// Writes a `ref.null`.
#[inline]
pub(crate) fn spell_ref_null<T: Target>(target: &mut T, ty: RefType) -> Result<(), T::Refusal>
    ensures { OnOk result (target.new ≡ T.preceded target.old (0xD0 ∷ ref_text ty)) }
{
    target.byte(ref_code(ty))?;
    target.byte(0xD0)
}

/// Writes the opcode, the type and the instructions of a block.
#[inline]
#[cycle(spell)]
fn spell_body<T: Target>(
    target: &mut T,
    opcode: u8,
    ty: &BlockType,
    body: &[Instr],
    uses: &mut bool,
) -> Result<(), T::Refusal>
    ensures text { OnOk result (target.new ≡ T.preceded target.old ((opcode ∷ block_type_text ty.now) ++ instrs_text body.now)) }
    ensures uses { OnOk result (uses.new ≡ (uses_data body.now || uses.old)) }
    ensures ty { OnOk result (IsTrue (list_all small_operand (block_operands ty.now))) }
    ensures body { OnOk result (IsTrue (all_in_range body.now)) }
{
    spell_instrs(target, body, uses)?;
    spell_opener(target, opcode, ty)
}

/// Writes a block or a loop.
#[inline]
#[cycle(spell)]
fn spell_block<T: Target>(
    target: &mut T,
    opcode: u8,
    ty: &BlockType,
    body: &[Instr],
    uses: &mut bool,
) -> Result<(), T::Refusal>
    ensures text { OnOk result (target.new ≡ T.preceded target.old ((opcode ∷ block_type_text ty.now) ++ instrs_text body.now ++ 0x0B ∷ [])) }
    ensures uses { OnOk result (uses.new ≡ (uses_data body.now || uses.old)) }
    ensures ty { OnOk result (IsTrue (list_all small_operand (block_operands ty.now))) }
    ensures body { OnOk result (IsTrue (all_in_range body.now)) }
{
    target.byte(0x0B)?;
    spell_body(target, opcode, ty, body, uses)
}

/// Writes an instruction. `uses` becomes true if it names a data segment.
#[cycle(spell)]
fn spell_instr<T: Target>(target: &mut T, instr: &Instr, uses: &mut bool) -> Result<(), T::Refusal>
    ensures text { OnOk result (target.new ≡ T.preceded target.old (instr_text instr.now)) }
    ensures uses { OnOk result (uses.new ≡ (uses_data_in instr.now || uses.old)) }
    ensures range { OnOk result (IsTrue (in_range instr.now)) }
{
    match form_of(instr) {
        Form::Block(ty, body) => {
            operands_pass_layer_by_layer();
            numbers_are_in_range_layer_by_layer();
            spell_block(target, 0x02, ty, body, uses)
        }
        Form::Loop(ty, body) => {
            operands_pass_layer_by_layer();
            numbers_are_in_range_layer_by_layer();
            spell_block(target, 0x03, ty, body, uses)
        }
        Form::If(ty, body, other) => {
            operands_pass_layer_by_layer();
            numbers_are_in_range_layer_by_layer();
            spell_else(target, other, uses)?;
            spell_body(target, 0x04, ty, body, uses)
        }
        Form::Branches(labels, other) => spell_branches(target, labels, other),
        Form::CallIndirect(ty, table) => spell_call_indirect(target, ty, table),
        Form::SelectTyped(types) => spell_typed(target, types),
        Form::I32Const(value) => spell_i32_const(target, value),
        Form::I64Const(value) => spell_i64_const(target, value),
        Form::RefNull(ty) => spell_ref_null(target, ty),
        Form::MemoryInit(segment, memory) => {
            *uses = true;
            spell_prefixed_pair(target, 8, segment, memory)
        }
        Form::DataDrop(segment) => {
            *uses = true;
            spell_prefixed(target, 9, segment)
        }
        Form::Bare(opcode) => target.byte(opcode),
        Form::Index(opcode, x) => spell_index(target, opcode, x),
        Form::Access(opcode, arg) => spell_access(target, opcode, arg),
        Form::Prefixed(opcode, x) => spell_prefixed(target, opcode, x),
        Form::PrefixedPair(opcode, x, y) => spell_prefixed_pair(target, opcode, x, y),
    }
}

/// Writes instructions, one after another. `uses` becomes true if one names a data segment.
#[cycle(spell)]
pub(crate) fn spell_instrs<T: Target>(
    target: &mut T,
    instrs: &[Instr],
    uses: &mut bool,
) -> Result<(), T::Refusal>
    ensures text { OnOk result (target.new ≡ T.preceded target.old (instrs_text instrs.now)) }
    ensures uses { OnOk result (uses.new ≡ (uses_data instrs.now || uses.old)) }
    ensures range { OnOk result (IsTrue (all_in_range instrs.now)) }
{
    for instr in instrs.iter().rev() {
        spell_instr(target, instr, uses)?;
    }
    Ok(())
}

/// Writes the end of an `if` and, in front of it, the `else` and its instructions, if there are
/// any.
#[cycle(spell)]
fn spell_else<T: Target>(target: &mut T, other: &[Instr], uses: &mut bool) -> Result<(), T::Refusal>
    ensures text { OnOk result (target.new ≡ T.preceded target.old (else_text (map instr_text other.now) ++ 0x0B ∷ [])) }
    ensures uses { OnOk result (uses.new ≡ (uses_data other.now || uses.old)) }
    ensures range { OnOk result (IsTrue (all_in_range other.now)) }
{
    target.byte(0x0B)?;
    if other.len() == 0 {
        return Ok(());
    }
    spell_instrs(target, other, uses)?;
    target.byte(0x05)
}
