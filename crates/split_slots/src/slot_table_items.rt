// Placeholders, the slot table, and the segments that fill its slots.

ghost use Rattle.std.specs.Prelude.{◌≡◌, ◌+◌, ◌++◌, ◌∷◌, ◌<◌, ◌≤◌, ◌^◌, [], decimal, length, map, slice_index, Some, IfOk, OnOk};
ghost use Rattle.base_lists.specs.Places.{numbers};
ghost use Rattle.wasm_tree.specs.declared.module.ConstExpr.TheVariants.{Func as IsFunc};
ghost use Rattle.wasm_tree.specs.declared.module.ImportDesc.TheVariants.{Func as IsImportedFunc};
ghost use Rattle.base_lists.specs.Every.{Every};
ghost use Rattle.split_spec.specs.SplitSlots as spec;
ghost use Rattle.split_slots.specs.PlaceholderList.{placeholder_of, placeholders_of};

use itoa::Buffer;
use std::alloc::Global;
use wasm_bytes::{Items, Name, NoMemory};
use wasm_tree::{ConstExpr, ElemMode, ElemSeg, Import, ImportDesc, Limits, RefType, TableType};

/// Returns the type of a table with exactly `count` slots.
pub(crate) fn slot_table_type(count: u32) -> TableType
    ensures { result ≡ spec.slot_table_type count }
{
    TableType {
        ty: RefType::Func,
        limits: Limits {
            min: count,
            max: Some(count),
        },
    }
}

// Returns references to `count` functions, of which the first has the index `base`.
#[tactic(auto, using(crate::proofs::TrampolineBodies::numbered_more))]
fn refs_from(alloc: Global, base: u32, count: usize) -> Result<Items<ConstExpr>, NoMemory>
    requires { base + count ≤ 2 ^ 32 }
    ensures { IfOk result (λ all. all ≡ map IsFunc (numbers base count)) }
{
    let mut all = Items::new(alloc);
    for at in 0..count {
        all.keep(ConstExpr::Func(base + at as u32))?;
    }
    Ok(all)
}

/// Returns the segment that puts `count` functions, from index `base` on, into the first slots.
pub(crate) fn slot_segment(
    alloc: Global,
    table: u32,
    base: u32,
    count: usize,
) -> Result<ElemSeg, NoMemory>
    requires { base + count ≤ 2 ^ 32 }
    ensures { IfOk result (λ segment. segment ≡ spec.slot_segment table 0 (numbers base count)) }
{
    Ok(ElemSeg {
        mode: ElemMode::Active {
            table,
            offset: ConstExpr::I32(0),
        },
        ty: RefType::Func,
        items: refs_from(alloc, base, count)?,
    })
}

/// Returns the import of the placeholder of a slot.
pub(crate) fn placeholder(
    alloc: Global,
    namespace: &Name,
    slot: u32,
    ty: u32,
) -> Result<Import, NoMemory>
    ensures { IfOk result (λ import. import ≡ record { «module» = namespace.now; field = decimal slot; desc = IsImportedFunc ty }) }
{
    Ok(Import {
        module: namespace.copy(alloc)?,
        field: Name::from_text(alloc, Buffer::new().format(slot))?,
        desc: ImportDesc::Func(ty),
    })
}

// Adds the import of the placeholder of this slot, with the type of the function that moves there.
fn add_placeholder(
    alloc: Global,
    imports: &mut Items<Import>,
    namespace: &Name,
    types: &[u32],
    moved: &[u32],
    slot: usize,
) -> Result<(), NoMemory>
    requires there { slot < length moved.now }
    requires typed { slice_index moved.now slot < length types.now }
    requires few { slot < 2 ^ 32 }
    ensures { OnOk result (imports.new ≡ imports.old ++ placeholder_of namespace.now types.now slot (slice_index moved.now slot) ∷ []) }
{
    let ty = types[moved[slot] as usize];
    imports.keep(placeholder(alloc, namespace, slot as u32, ty)?)
}

/// Adds the imports of the placeholders of all slots.
pub(crate) fn add_placeholders(
    alloc: Global,
    imports: &mut Items<Import>,
    namespace: &Name,
    types: &[u32],
    moved: &[u32],
) -> Result<(), NoMemory>
    requires typed { Every (λ func. func < length types.now) moved.now }
    requires few { length moved.now ≤ 2 ^ 32 }
    ensures { OnOk result (imports.new ≡ imports.old ++ placeholders_of namespace.now types.now 0 moved.now) }
{
    for slot in 0..moved.len() {
        add_placeholder(alloc, imports, namespace, types, moved, slot)?;
    }
    Ok(())
}
