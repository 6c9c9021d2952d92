ghost use Rattle.std.specs.Prelude.{◌≡◌, ◌<◌, length, OnOk};
ghost use Rattle.wasm_bytes.specs.Reading.{signed_at};
ghost use Rattle.wasm_read_spec.specs.Reading.{Gives, or_malformed, chosen_at, index_of, byte_at, u32_at, s32_at, s64_at, tag_at, val_at, ref_at, block_type_at, func_type_at, limits_at, table_at};
ghost use Rattle.wasm_read_spec.specs.Reading.{mut_at, global_at};

use crate::vectors::{Spelled, read_vector};
use std::alloc::Global;
use wasm_bytes::Cursor;
use wasm_read_spec::Fault;
use wasm_tree::{BlockType, FuncType, GlobalType, Limits, RefType, TableType, ValType, Which};

/// Reads a byte. The contracts of this function and of those for numbers say less than the
/// cursor's, so that what calls them has few facts and is proved sooner.
pub fn read_byte(cursor: &mut Cursor<'_>) -> Result<u8, Fault>
    ensures gives { Gives result cursor.new (byte_at cursor.old) }
    ensures shorter { OnOk result (length cursor.new < length cursor.old) }
{
    Ok(cursor.byte()?)
}

/// Reads a u32 (WebAssembly Core 2.0, section 5.2.2). Most are indices below 128, encoded in one
/// byte.
#[tactic(auto, unfolding(wasm_bytes::specs::Reading::unsigned_at))]
pub fn read_u32(cursor: &mut Cursor<'_>) -> Result<u32, Fault>
    ensures gives { Gives result cursor.new (u32_at cursor.old) }
    ensures shorter { OnOk result (length cursor.new < length cursor.old) }
{
    match cursor.peek() {
        Some(0x00..=0x7F) => Ok(u32::from(cursor.byte()?)),
        _ => Ok(cursor.u32()?),
    }
}

/// Reads an s32 (WebAssembly Core 2.0, section 5.2.2). Many are at least 0 and below 64, encoded in
/// one byte.
#[tactic(auto, unfolding(wasm_bytes::specs::Reading::signed_at))]
pub fn read_s32(cursor: &mut Cursor<'_>) -> Result<i32, Fault>
    ensures gives { Gives result cursor.new (s32_at cursor.old) }
    ensures shorter { OnOk result (length cursor.new < length cursor.old) }
{
    match cursor.peek() {
        Some(0x00..=0x3F) => Ok(i32::from(cursor.byte()?)),
        _ => Ok(cursor.s32()?),
    }
}

/// Reads an s64 (WebAssembly Core 2.0, section 5.2.2).
pub fn read_s64(cursor: &mut Cursor<'_>) -> Result<i64, Fault>
    ensures gives { Gives result cursor.new (s64_at cursor.old) }
    ensures shorter { OnOk result (length cursor.new < length cursor.old) }
{
    Ok(cursor.s64()?)
}

/// Reads the block type that is an index: an s33 of at least 0 (WebAssembly Core 2.0, section
/// 5.4.1).
fn read_index_type(cursor: &mut Cursor<'_>) -> Result<BlockType, Fault>
    ensures gives { Gives result cursor.new (chosen_at (λ bs. or_malformed (signed_at 33 bs)) (λ n rest. index_of (n, rest)) cursor.old) }
    ensures shorter { OnOk result (length cursor.new < length cursor.old) }
{
    let index = cursor.s33()?;
    if index < 0 {
        Err(Fault::Malformed)
    } else {
        Ok(BlockType::Index(index as u32))
    }
}

impl Spelled for u32 {
    ghost reading = { u32_at };

    fn read(_alloc: Global, cursor: &mut Cursor<'_>) -> Result<u32, Fault> {
        read_u32(cursor)
    }
}

/// Reads a byte that must be `tag`.
#[tactic(auto, unfolding(wasm_read_spec::specs::Reading::tag_at))]
pub fn read_tag(cursor: &mut Cursor<'_>, tag: u8) -> Result<(), Fault>
    ensures gives { Gives result cursor.new (tag_at tag cursor.old) }
    ensures shorter { OnOk result (length cursor.new < length cursor.old) }
{
    if read_byte(cursor)? == tag {
        Ok(())
    } else {
        Err(Fault::Malformed)
    }
}

impl Spelled for ValType {
    ghost reading = { val_at };

    #[tactic(auto, unfolding(wasm_read_spec::specs::Reading::val_at, wasm_read_spec::specs::Values::val_of_code))]
    fn read(_alloc: Global, cursor: &mut Cursor<'_>) -> Result<ValType, Fault> {
        match read_byte(cursor)? {
            0x7F => Ok(ValType::I32),
            0x7E => Ok(ValType::I64),
            0x70 => Ok(ValType::Ref(RefType::Func)),
            0x6F => Ok(ValType::Ref(RefType::Extern)),
            0x7B..=0x7D => Err(Fault::Unsupported),
            _ => Err(Fault::Malformed),
        }
    }
}

impl Spelled for RefType {
    ghost reading = { ref_at };

    #[tactic(auto, unfolding(wasm_read_spec::specs::Reading::ref_at, wasm_read_spec::specs::Values::ref_of_code))]
    fn read(_alloc: Global, cursor: &mut Cursor<'_>) -> Result<RefType, Fault> {
        match read_byte(cursor)? {
            0x70 => Ok(RefType::Func),
            0x6F => Ok(RefType::Extern),
            _ => Err(Fault::Malformed),
        }
    }
}

/// Reads a block type (WebAssembly Core 2.0, section 5.4.1).
#[tactic(auto, unfolding(wasm_read_spec::specs::Reading::block_type_at))]
pub fn read_block_type(alloc: Global, cursor: &mut Cursor<'_>) -> Result<BlockType, Fault>
    ensures gives { Gives result cursor.new (block_type_at cursor.old) }
    ensures shorter { OnOk result (length cursor.new < length cursor.old) }
{
    match cursor.peek() {
        None => Err(Fault::Malformed),
        Some(0x40) => {
            let _same = cursor.byte()?;
            Ok(BlockType::Empty)
        }
        Some(0x7B..=0x7F) | Some(0x6F..=0x70) => Ok(BlockType::Value(ValType::read(
            alloc, cursor,
        )?)),
        Some(_) => read_index_type(cursor),
    }
}

impl Spelled for FuncType {
    ghost reading = { func_type_at };

    #[tactic(auto, unfolding(wasm_read_spec::specs::Reading::func_type_at))]
    fn read(alloc: Global, cursor: &mut Cursor<'_>) -> Result<FuncType, Fault> {
        read_tag(cursor, 0x60)?;
        let params = read_vector(alloc, cursor, Which::Parameters)?;
        let results = read_vector(alloc, cursor, Which::Results)?;
        Ok(FuncType { params, results })
    }
}

impl Spelled for Limits {
    ghost reading = { limits_at };

    #[tactic(auto, unfolding(wasm_read_spec::specs::Reading::limits_at))]
    fn read(_alloc: Global, cursor: &mut Cursor<'_>) -> Result<Limits, Fault> {
        let flag = read_byte(cursor)?;
        if flag > 0x01 {
            return Err(Fault::Malformed);
        }
        let min = read_u32(cursor)?;
        if flag == 0x00 {
            return Ok(Limits { min, max: None });
        }
        let max = Some(read_u32(cursor)?);
        Ok(Limits { min, max })
    }
}

impl Spelled for TableType {
    ghost reading = { table_at };

    #[tactic(auto, unfolding(wasm_read_spec::specs::Reading::table_at))]
    fn read(alloc: Global, cursor: &mut Cursor<'_>) -> Result<TableType, Fault> {
        let ty = RefType::read(alloc, cursor)?;
        let limits = Limits::read(alloc, cursor)?;
        Ok(TableType { ty, limits })
    }
}

/// Reads the mutability of a global (WebAssembly Core 2.0, section 5.3.10).
#[tactic(auto, unfolding(wasm_read_spec::specs::Reading::mut_at, wasm_read_spec::specs::Values::mut_of_code))]
fn read_mutable(cursor: &mut Cursor<'_>) -> Result<bool, Fault>
    ensures gives { Gives result cursor.new (mut_at cursor.old) }
    ensures shorter { OnOk result (length cursor.new < length cursor.old) }
{
    match read_byte(cursor)? {
        0x00 => Ok(false),
        0x01 => Ok(true),
        _ => Err(Fault::Malformed),
    }
}

impl Spelled for GlobalType {
    ghost reading = { global_at };

    #[tactic(auto, unfolding(wasm_read_spec::specs::Reading::global_at))]
    fn read(alloc: Global, cursor: &mut Cursor<'_>) -> Result<GlobalType, Fault> {
        let ty = ValType::read(alloc, cursor)?;
        let mutable = read_mutable(cursor)?;
        Ok(GlobalType { ty, mutable })
    }
}
