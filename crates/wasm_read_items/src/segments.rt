ghost use Rattle.std.specs.Prelude.{◌≡◌, ◌<◌, ◌≤◌, length, OnOk};
ghost use Rattle.wasm_bytes.specs.Reading.{lent};
ghost use Rattle.wasm_read_spec.specs.declared.fault.Fault.TheVariants.{Malformed as Misspelled};
ghost use Rattle.wasm_read_spec.specs.Reading.{Gives, GivesSlice, sized_at, u32_at, mapped_at, each_at, func_item_at, func_items_at, tagged_at, pair_at, ref_at, const_at, const_items_at, elem_at};
ghost use Rattle.wasm_read_spec.specs.Reading.{data_at};
ghost use Rattle.wasm_read_spec.specs.Sections.{elem_of, data2};
ghost use Rattle.wasm_tree.specs.declared.types.RefType.TheVariants.{Func};

use crate::types::{read_tag, read_u32};
use crate::vectors::{Spelled, read_list};
use std::alloc::Global;
use wasm_bytes::{Cursor, Items};
use wasm_read_spec::Fault;
use wasm_tree::{ConstExpr, DataMode, DataSeg, ElemMode, ElemSeg, RefType};

/// Reads a length and as many bytes, and returns these without copying them. The error is
/// `Malformed`.
pub fn read_sized<'a>(cursor: &mut Cursor<'a>) -> Result<&'a [u8], Fault>
    ensures gives { GivesSlice result cursor.new (sized_at cursor.old) }
    ensures shorter { OnOk result (length cursor.new < length cursor.old) }
{
    let count = read_u32(cursor)?;
    match cursor.take(count as usize) {
        Ok(content) => Ok(content),
        Err(_) => Err(Fault::Malformed),
    }
}

/// Reads a vector of bytes.
fn read_bytes(alloc: Global, cursor: &mut Cursor<'_>) -> Result<Items<u8>, Fault>
    ensures gives { Gives result cursor.new (sized_at cursor.old) }
    ensures shorter { OnOk result (length cursor.new < length cursor.old) }
{
    Ok(Items::from_slice(alloc, read_sized(cursor)?)?)
}

/// Reads a function index as the item `ref.func`.
fn read_func_item(cursor: &mut Cursor<'_>) -> Result<ConstExpr, Fault>
    ensures gives { Gives result cursor.new (func_item_at cursor.old) }
    ensures shorter { OnOk result (length cursor.new < length cursor.old) }
{
    Ok(ConstExpr::Func(read_u32(cursor)?))
}

/// Reads `count` function indices.
#[tactic(auto, unfolding(wasm_read_spec::specs::Reading::each_from))]
fn read_each_func(
    alloc: Global,
    cursor: &mut Cursor<'_>,
    count: u32,
) -> Result<Items<ConstExpr>, Fault>
    ensures gives { Gives result cursor.new (each_at func_item_at count cursor.old) }
    ensures shorter { OnOk result (length cursor.new ≤ length cursor.old) }
{
    let mut items = Items::new(alloc);
    for _i in 0..count {
        items.keep(read_func_item(cursor)?)?;
    }
    Ok(items)
}

/// Reads a vector of function indices.
#[tactic(auto, unfolding(wasm_read_spec::specs::Reading::func_items_at, wasm_read_spec::specs::Reading::list_at))]
fn read_funcs(alloc: Global, cursor: &mut Cursor<'_>) -> Result<Items<ConstExpr>, Fault>
    ensures gives { Gives result cursor.new (func_items_at cursor.old) }
    ensures shorter { OnOk result (length cursor.new < length cursor.old) }
{
    let count = read_u32(cursor)?;
    read_each_func(alloc, cursor, count)
}

/// Reads the function indices of an element segment of this mode.
fn read_funcs_of(alloc: Global, cursor: &mut Cursor<'_>, mode: ElemMode) -> Result<ElemSeg, Fault>
    ensures gives { Gives result cursor.new (mapped_at (elem_of mode Func) func_items_at cursor.old) }
    ensures shorter { OnOk result (length cursor.new < length cursor.old) }
{
    let items = read_funcs(alloc, cursor)?;
    let ty = RefType::Func;
    Ok(ElemSeg { mode, ty, items })
}

/// Reads the element kind, which is 0, and the function indices of an element segment of this mode.
fn read_kind_of(alloc: Global, cursor: &mut Cursor<'_>, mode: ElemMode) -> Result<ElemSeg, Fault>
    ensures gives { Gives result cursor.new (mapped_at (elem_of mode Func) (tagged_at 0x00 func_items_at) cursor.old) }
    ensures shorter { OnOk result (length cursor.new < length cursor.old) }
{
    read_tag(cursor, 0x00)?;
    read_funcs_of(alloc, cursor, mode)
}

/// Reads the constant expressions of an element segment of this mode and type.
fn read_constants_of(
    alloc: Global,
    cursor: &mut Cursor<'_>,
    mode: ElemMode,
    ty: RefType,
) -> Result<ElemSeg, Fault>
    ensures gives { Gives result cursor.new (mapped_at (elem_of mode ty) const_items_at cursor.old) }
    ensures shorter { OnOk result (length cursor.new < length cursor.old) }
{
    let items = read_list(alloc, cursor)?;
    Ok(ElemSeg { mode, ty, items })
}

/// Reads the type and the constant expressions of an element segment of this mode.
fn read_typed_of(alloc: Global, cursor: &mut Cursor<'_>, mode: ElemMode) -> Result<ElemSeg, Fault>
    ensures gives { Gives result cursor.new (mapped_at (λ p. elem_of mode p.0 p.1) (pair_at ref_at const_items_at) cursor.old) }
    ensures shorter { OnOk result (length cursor.new < length cursor.old) }
{
    let ty = RefType::read(alloc, cursor)?;
    read_constants_of(alloc, cursor, mode, ty)
}

impl Spelled for ElemSeg {
    ghost reading = { elem_at };

    #[tactic(auto, unfolding(wasm_read_spec::specs::Reading::elem_at))]
    fn read(alloc: Global, cursor: &mut Cursor<'_>) -> Result<ElemSeg, Fault> {
        // The flags decide between eight forms (WebAssembly Core 2.0, section 5.5.12).
        let flags = read_u32(cursor)?;
        match flags {
            0 => {
                let offset = ConstExpr::read(alloc, cursor)?;
                read_funcs_of(alloc, cursor, ElemMode::Active { table: 0, offset })
            }
            1 => read_kind_of(alloc, cursor, ElemMode::Passive),
            2 => {
                let table = read_u32(cursor)?;
                let offset = ConstExpr::read(alloc, cursor)?;
                read_kind_of(alloc, cursor, ElemMode::Active { table, offset })
            }
            3 => read_kind_of(alloc, cursor, ElemMode::Declarative),
            4 => {
                let offset = ConstExpr::read(alloc, cursor)?;
                let mode = ElemMode::Active { table: 0, offset };
                read_constants_of(alloc, cursor, mode, RefType::Func)
            }
            5 => read_typed_of(alloc, cursor, ElemMode::Passive),
            6 => {
                let table = read_u32(cursor)?;
                let offset = ConstExpr::read(alloc, cursor)?;
                read_typed_of(alloc, cursor, ElemMode::Active { table, offset })
            }
            7 => read_typed_of(alloc, cursor, ElemMode::Declarative),
            _ => Err(Fault::Malformed),
        }
    }
}

/// Reads the offset and the bytes of an active data segment of this memory.
fn read_active(alloc: Global, cursor: &mut Cursor<'_>, memory: u32) -> Result<DataSeg, Fault>
    ensures gives { Gives result cursor.new (mapped_at (λ p. data2 (memory, p)) (pair_at const_at sized_at) cursor.old) }
    ensures shorter { OnOk result (length cursor.new < length cursor.old) }
{
    let offset = ConstExpr::read(alloc, cursor)?;
    let bytes = read_bytes(alloc, cursor)?;
    let mode = DataMode::Active { memory, offset };
    Ok(DataSeg { mode, bytes })
}

impl Spelled for DataSeg {
    ghost reading = { data_at };

    #[tactic(auto, unfolding(wasm_read_spec::specs::Reading::data_at))]
    fn read(alloc: Global, cursor: &mut Cursor<'_>) -> Result<DataSeg, Fault> {
        match read_u32(cursor)? {
            0 => read_active(alloc, cursor, 0),
            1 => Ok(DataSeg {
                mode: DataMode::Passive,
                bytes: read_bytes(alloc, cursor)?,
            }),
            2 => {
                let memory = read_u32(cursor)?;
                read_active(alloc, cursor, memory)
            }
            _ => Err(Fault::Malformed),
        }
    }
}
