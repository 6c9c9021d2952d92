ghost use Rattle.std.specs.Prelude.{◌≡◌, ◌≢◌, ◌<◌, ◌≤◌, ℕ, Bool, List, length, OnOk};
ghost use Rattle.wasm_tree_spec.specs.Prelude.{BrTable};
ghost use Rattle.wasm_read_spec.specs.Reading.{Gives, u32_at, pair_at, list_at};
ghost use Rattle.wasm_read_items.specs.Piled.{Tells};
ghost use Rattle.wasm_read_spec.specs.Tokens.{rest_form, sub_form};
ghost use Rattle.wasm_read_spec.specs.BodyReading.{arg_at, memory_at, plain_at, simple_of, prefixed_at, token_of, token_at};

use crate::operations::{bin_of, load_of, store_of, un_of};
use crate::pile::{Kind, Pile};
use crate::types::{read_s32, read_s64, read_tag, read_u32};
use crate::vectors::{Spelled, read_list};
use std::alloc::Global;
use wasm_bytes::Cursor;
use wasm_read_spec::{Fault, Opener};
use wasm_tree::{Instr, MemArg, RefType};

/// Reads a memory argument (WebAssembly Core 2.0, section 5.4.6).
#[tactic(auto, unfolding(wasm_read_spec::specs::BodyReading::arg_at))]
fn read_arg(cursor: &mut Cursor<'_>, many: bool) -> Result<MemArg, Fault>
    ensures gives { Gives result cursor.new (arg_at many cursor.old) }
    ensures shorter { OnOk result (length cursor.new < length cursor.old) }
{
    let first = read_u32(cursor)?;
    if !many {
        let offset = read_u32(cursor)?;
        return Ok(MemArg {
            align: first,
            offset,
            memory: 0,
        });
    }
    if first < 64 {
        let offset = read_u32(cursor)?;
        return Ok(MemArg {
            align: first,
            offset,
            memory: 0,
        });
    }
    if first < 128 {
        let memory = read_u32(cursor)?;
        let offset = read_u32(cursor)?;
        return Ok(MemArg {
            align: first - 64,
            offset,
            memory,
        });
    }
    Err(Fault::Malformed)
}

/// Reads a memory: the byte 0, or an index if `many` is true.
#[tactic(auto, unfolding(wasm_read_spec::specs::BodyReading::memory_at))]
fn read_memory(cursor: &mut Cursor<'_>, many: bool) -> Result<u32, Fault>
    ensures gives { Gives result cursor.new (memory_at many cursor.old) }
    ensures shorter { OnOk result (length cursor.new < length cursor.old) }
{
    if many {
        Ok(read_u32(cursor)?)
    } else {
        read_tag(cursor, 0)?;
        Ok(0)
    }
}

/// Reads the rest of a token that begins with `FC` and the number of an instruction whose first
/// immediate is a memory.
#[tactic(auto, unfolding(wasm_read_spec::specs::BodyReading::simple_of, wasm_read_spec::specs::Tokens::sub_form))]
fn read_bulk_at(
    cursor: &mut Cursor<'_>,
    many: bool,
    code: u32,
    pile: &mut Pile,
) -> Result<Kind, Fault>
    requires least { 10 ≤ code }
    requires most { code ≤ 11 }
    ensures gives { Tells result cursor.new pile.old pile.new (simple_of many (sub_form code) cursor.old) }
    ensures shorter { OnOk result (length cursor.new ≤ length cursor.old) }
{
    let to = read_memory(cursor, many)?;
    if code == 11 {
        return pile.plain(Instr::MemoryFill(to));
    }
    let from = read_memory(cursor, many)?;
    pile.plain(Instr::MemoryCopy { to, from })
}

/// Reads the rest of a token that begins with `FC` and the number of an instruction whose first
/// immediate is an index.
#[tactic(auto, unfolding(wasm_read_spec::specs::BodyReading::simple_of, wasm_read_spec::specs::Tokens::sub_form))]
fn read_bulk(cursor: &mut Cursor<'_>, many: bool, code: u32, pile: &mut Pile) -> Result<Kind, Fault>
    requires least { 8 ≤ code }
    requires most { code ≤ 17 }
    requires copy { code ≢ 10 }
    requires fill { code ≢ 11 }
    ensures gives { Tells result cursor.new pile.old pile.new (simple_of many (sub_form code) cursor.old) }
    ensures shorter { OnOk result (length cursor.new ≤ length cursor.old) }
{
    let index = read_u32(cursor)?;
    match code {
        8 => pile.plain_with_data(Instr::MemoryInit {
            segment: index,
            memory: read_memory(cursor, many)?,
        }),
        9 => pile.plain_with_data(Instr::DataDrop(index)),
        12 => pile.plain(Instr::TableInit {
            segment: index,
            table: read_u32(cursor)?,
        }),
        13 => pile.plain(Instr::ElemDrop(index)),
        14 => pile.plain(Instr::TableCopy {
            to: index,
            from: read_u32(cursor)?,
        }),
        15 => pile.plain(Instr::TableGrow(index)),
        16 => pile.plain(Instr::TableSize(index)),
        17 => pile.plain(Instr::TableFill(index)),
        _ => unreachable!(),
    }
}

/// Reads the rest of a token that begins with `FC` (WebAssembly Core 2.0, sections 5.4.5 and
/// 5.4.6).
#[tactic(auto, unfolding(wasm_read_spec::specs::BodyReading::prefixed_at, wasm_read_spec::specs::BodyReading::simple_of, wasm_read_spec::specs::Tokens::sub_form))]
fn read_prefixed(cursor: &mut Cursor<'_>, many: bool, pile: &mut Pile) -> Result<Kind, Fault>
    ensures gives { Tells result cursor.new pile.old pile.new (prefixed_at many cursor.old) }
    ensures shorter { OnOk result (length cursor.new < length cursor.old) }
{
    let code = read_u32(cursor)?;
    match code {
        0..=7 => Err(Fault::Unsupported),
        10..=11 => read_bulk_at(cursor, many, code, pile),
        8..=17 => read_bulk(cursor, many, code, pile),
        _ => Err(Fault::Malformed),
    }
}

/// Reads the rest of a branch by a table (WebAssembly Core 2.0, section 5.4.1).
fn read_branch_table(alloc: Global, cursor: &mut Cursor<'_>, pile: &mut Pile) -> Result<Kind, Fault>
    ensures gives { Tells result cursor.new pile.old pile.new (plain_at (λ (p : List ℕ × ℕ). BrTable p.0 p.1) (pair_at (list_at u32_at) u32_at) cursor.old) }
    ensures shorter { OnOk result (length cursor.new ≤ length cursor.old) }
{
    let labels = read_list(alloc, cursor)?;
    pile.plain(Instr::BrTable(labels, read_u32(cursor)?))
}

/// Reads the rest of a branch by an index or of a call (WebAssembly Core 2.0, section 5.4.1).
#[tactic(auto, unfolding(wasm_read_spec::specs::BodyReading::simple_of, wasm_read_spec::specs::Tokens::rest_form))]
fn read_branch(cursor: &mut Cursor<'_>, opcode: u8, pile: &mut Pile) -> Result<Kind, Fault>
    requires least { 0x0C ≤ opcode }
    requires most { opcode ≤ 0x11 }
    requires table { opcode ≢ 0x0E }
    requires back { opcode ≢ 0x0F }
    ensures gives { (many : Bool) → Tells result cursor.new pile.old pile.new (token_of many (rest_form opcode) cursor.old) }
    ensures shorter { OnOk result (length cursor.new ≤ length cursor.old) }
{
    let index = read_u32(cursor)?;
    match opcode {
        0x0C => pile.plain(Instr::Br(index)),
        0x0D => pile.plain(Instr::BrIf(index)),
        0x10 => pile.plain(Instr::Call(index)),
        0x11 => pile.plain(Instr::CallIndirect {
            ty: index,
            table: read_u32(cursor)?,
        }),
        _ => unreachable!(),
    }
}

/// Reads the rest of a parametric instruction (WebAssembly Core 2.0, section 5.4.3).
#[tactic(auto, unfolding(wasm_read_spec::specs::BodyReading::simple_of, wasm_read_spec::specs::Tokens::rest_form))]
fn read_parametric(
    alloc: Global,
    cursor: &mut Cursor<'_>,
    opcode: u8,
    pile: &mut Pile,
) -> Result<Kind, Fault>
    requires least { 0x1A ≤ opcode }
    requires most { opcode ≤ 0x1C }
    ensures gives { (many : Bool) → Tells result cursor.new pile.old pile.new (token_of many (rest_form opcode) cursor.old) }
    ensures shorter { OnOk result (length cursor.new ≤ length cursor.old) }
{
    match opcode {
        0x1A => pile.plain(Instr::Drop),
        0x1B => pile.plain(Instr::Select),
        0x1C => pile.plain(Instr::SelectTyped(read_list(alloc, cursor)?)),
        _ => unreachable!(),
    }
}

/// Reads the rest of an instruction on a variable or an item of a table (WebAssembly Core 2.0,
/// sections 5.4.4 and 5.4.5).
#[tactic(auto, unfolding(wasm_read_spec::specs::BodyReading::simple_of, wasm_read_spec::specs::Tokens::rest_form))]
fn read_variable(cursor: &mut Cursor<'_>, opcode: u8, pile: &mut Pile) -> Result<Kind, Fault>
    requires least { 0x20 ≤ opcode }
    requires most { opcode ≤ 0x26 }
    ensures gives { (many : Bool) → Tells result cursor.new pile.old pile.new (token_of many (rest_form opcode) cursor.old) }
    ensures shorter { OnOk result (length cursor.new ≤ length cursor.old) }
{
    let index = read_u32(cursor)?;
    match opcode {
        0x20 => pile.plain(Instr::LocalGet(index)),
        0x21 => pile.plain(Instr::LocalSet(index)),
        0x22 => pile.plain(Instr::LocalTee(index)),
        0x23 => pile.plain(Instr::GlobalGet(index)),
        0x24 => pile.plain(Instr::GlobalSet(index)),
        0x25 => pile.plain(Instr::TableGet(index)),
        0x26 => pile.plain(Instr::TableSet(index)),
        _ => unreachable!(),
    }
}

/// Reads the rest of an instruction on the size of a memory, or of a constant (WebAssembly Core
/// 2.0, sections 5.4.6 and 5.4.7).
#[tactic(auto, unfolding(wasm_read_spec::specs::BodyReading::simple_of, wasm_read_spec::specs::Tokens::rest_form))]
fn read_size_or_constant(
    cursor: &mut Cursor<'_>,
    many: bool,
    opcode: u8,
    pile: &mut Pile,
) -> Result<Kind, Fault>
    requires least { 0x3F ≤ opcode }
    requires most { opcode ≤ 0x42 }
    ensures gives { Tells result cursor.new pile.old pile.new (token_of many (rest_form opcode) cursor.old) }
    ensures shorter { OnOk result (length cursor.new ≤ length cursor.old) }
{
    match opcode {
        0x3F => pile.plain(Instr::MemorySize(read_memory(cursor, many)?)),
        0x40 => pile.plain(Instr::MemoryGrow(read_memory(cursor, many)?)),
        0x41 => pile.plain(Instr::I32Const(read_s32(cursor)?)),
        0x42 => pile.plain(Instr::I64Const(read_s64(cursor)?)),
        _ => unreachable!(),
    }
}

/// Reads the rest of an instruction on references (WebAssembly Core 2.0, section 5.4.2).
#[tactic(auto, unfolding(wasm_read_spec::specs::BodyReading::simple_of, wasm_read_spec::specs::Tokens::rest_form))]
fn read_reference(
    alloc: Global,
    cursor: &mut Cursor<'_>,
    opcode: u8,
    pile: &mut Pile,
) -> Result<Kind, Fault>
    requires least { 0xD0 ≤ opcode }
    requires most { opcode ≤ 0xD2 }
    ensures gives { (many : Bool) → Tells result cursor.new pile.old pile.new (token_of many (rest_form opcode) cursor.old) }
    ensures shorter { OnOk result (length cursor.new ≤ length cursor.old) }
{
    match opcode {
        0xD0 => pile.plain(Instr::RefNull(RefType::read(alloc, cursor)?)),
        0xD1 => pile.plain(Instr::RefIsNull),
        0xD2 => pile.plain(Instr::RefFunc(read_u32(cursor)?)),
        _ => unreachable!(),
    }
}

/// Reads the rest of a control or parametric token, except a block type (WebAssembly Core 2.0,
/// sections 5.4.1 and 5.4.3).
#[tactic(auto, unfolding(wasm_read_spec::specs::BodyReading::simple_of, wasm_read_spec::specs::Tokens::rest_form))]
fn read_control(
    alloc: Global,
    cursor: &mut Cursor<'_>,
    opcode: u8,
    pile: &mut Pile,
) -> Result<Kind, Fault>
    requires most { opcode ≤ 0x1F }
    ensures gives { (many : Bool) → Tells result cursor.new pile.old pile.new (token_of many (rest_form opcode) cursor.old) }
    ensures shorter { OnOk result (length cursor.new ≤ length cursor.old) }
{
    match opcode {
        0x00 => pile.plain(Instr::Unreachable),
        0x01 => pile.plain(Instr::Nop),
        0x02 => Ok(Kind::Open(Opener::Block)),
        0x03 => Ok(Kind::Open(Opener::Loop)),
        0x04 => Ok(Kind::Open(Opener::If)),
        0x05 => Ok(Kind::Else),
        0x0B => Ok(Kind::End),
        0x0E => read_branch_table(alloc, cursor, pile),
        0x0F => pile.plain(Instr::Return),
        0x0C..=0x11 => read_branch(cursor, opcode, pile),
        0x1A..=0x1C => read_parametric(alloc, cursor, opcode, pile),
        _ => Err(Fault::Malformed),
    }
}

/// Reads the rest of a token whose opcode is no operation, load or store (WebAssembly Core 2.0,
/// section 5.4).
#[tactic(auto, unfolding(wasm_read_spec::specs::BodyReading::simple_of, wasm_read_spec::specs::Tokens::rest_form))]
fn read_rest(
    alloc: Global,
    cursor: &mut Cursor<'_>,
    many: bool,
    opcode: u8,
    pile: &mut Pile,
) -> Result<Kind, Fault>
    ensures gives { Tells result cursor.new pile.old pile.new (token_of many (rest_form opcode) cursor.old) }
    ensures shorter { OnOk result (length cursor.new ≤ length cursor.old) }
{
    match opcode {
        0x00..=0x1F => read_control(alloc, cursor, opcode, pile),
        0x20..=0x26 => read_variable(cursor, opcode, pile),
        0x3F..=0x42 => read_size_or_constant(cursor, many, opcode, pile),
        0xD0..=0xD2 => read_reference(alloc, cursor, opcode, pile),
        0xFC => read_prefixed(cursor, many, pile),
        0x2A..=0x2B
        | 0x38..=0x39
        | 0x43..=0x44
        | 0x5B..=0x66
        | 0x8B..=0xA6
        | 0xA8..=0xAB
        | 0xAE..=0xBF
        | 0xFD => Err(Fault::Unsupported),
        _ => Err(Fault::Malformed),
    }
}

/// Reads an opcode with its immediates, except a block type (WebAssembly Core 2.0, section 5.4). If
/// `many` is true, memories have indices.
#[tactic(auto, unfolding(wasm_read_spec::specs::BodyReading::simple_of, wasm_read_spec::specs::BodyReading::token_at, wasm_read_spec::specs::Tokens::the_form))]
pub fn read_token(
    alloc: Global,
    cursor: &mut Cursor<'_>,
    many: bool,
    pile: &mut Pile,
) -> Result<Kind, Fault>
    ensures gives { Tells result cursor.new pile.old pile.new (token_at many cursor.old) }
    ensures shorter { OnOk result (length cursor.new < length cursor.old) }
{
    let opcode = cursor.byte()?;
    // Most tokens are instructions on variables.
    if let 0x20..=0x26 = opcode {
        return read_variable(cursor, opcode, pile);
    }
    if let Some(op) = un_of(opcode) {
        return pile.plain(Instr::Un(op));
    }
    if let Some(op) = bin_of(opcode) {
        return pile.plain(Instr::Bin(op));
    }
    if let Some(op) = load_of(opcode) {
        return pile.plain(Instr::Load(op, read_arg(cursor, many)?));
    }
    if let Some(op) = store_of(opcode) {
        return pile.plain(Instr::Store(op, read_arg(cursor, many)?));
    }
    read_rest(alloc, cursor, many, opcode, pile)
}
