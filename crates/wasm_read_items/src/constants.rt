ghost use Rattle.std.specs.Prelude.{◌≡◌, ◌<◌, length, OnOk};
ghost use Rattle.wasm_read_spec.specs.Reading.{Gives, chosen_at, byte_at, const_from, const_at, global_def_at};

use crate::types::{read_byte, read_s32, read_s64, read_tag, read_u32};
use crate::vectors::Spelled;
use std::alloc::Global;
use wasm_bytes::Cursor;
use wasm_read_spec::Fault;
use wasm_tree::{ConstExpr, GlobalDef, GlobalType, RefType};

/// Reads the one instruction of a constant expression (WebAssembly Core 2.0, section 5.4.9).
fn read_constant(alloc: Global, cursor: &mut Cursor<'_>) -> Result<ConstExpr, Fault>
    ensures gives { Gives result cursor.new (chosen_at byte_at const_from cursor.old) }
    ensures shorter { OnOk result (length cursor.new < length cursor.old) }
{
    match read_byte(cursor)? {
        0x41 => Ok(ConstExpr::I32(read_s32(cursor)?)),
        0x42 => Ok(ConstExpr::I64(read_s64(cursor)?)),
        0xD0 => Ok(ConstExpr::Null(RefType::read(alloc, cursor)?)),
        0xD2 => Ok(ConstExpr::Func(read_u32(cursor)?)),
        0x23 => Ok(ConstExpr::Global(read_u32(cursor)?)),
        0x43 | 0x44 | 0xFD => Err(Fault::Unsupported),
        _ => Err(Fault::Malformed),
    }
}

impl Spelled for ConstExpr {
    ghost reading = { const_at };

    #[tactic(auto, unfolding(wasm_read_spec::specs::Reading::const_at))]
    fn read(alloc: Global, cursor: &mut Cursor<'_>) -> Result<ConstExpr, Fault> {
        let expr = read_constant(alloc, cursor)?;
        read_tag(cursor, 0x0B)?;
        Ok(expr)
    }
}

impl Spelled for GlobalDef {
    ghost reading = { global_def_at };

    #[tactic(auto, unfolding(wasm_read_spec::specs::Reading::global_def_at))]
    fn read(alloc: Global, cursor: &mut Cursor<'_>) -> Result<GlobalDef, Fault> {
        let ty = GlobalType::read(alloc, cursor)?;
        let init = ConstExpr::read(alloc, cursor)?;
        Ok(GlobalDef { ty, init })
    }
}
