// The exports that the primary module has for the secondary one.

ghost use Rattle.std.specs.Prelude.{◌≡◌, ◌++◌, ◌∷◌, ◌<◌, ◌≤◌, ◌^◌, [], cond, false, get_or, length, string_bytes, IfOk, OnOk};
ghost use Rattle.base_lists.specs.Places.{places};
ghost use Rattle.split_spec.specs.FromPrimary as spec;
ghost use Rattle.split_slots.specs.ExportList.{desc_of, exported, exports_by};

use crate::named_entities::Marks;
use itoa::Buffer;
use std::alloc::{AllocError, Global};
use wasm_bytes::{Items, Name, NoMemory};
use wasm_tree::{Export, ExportDesc, Space};

fn kind_letter(space: Space) -> &'static str
    ensures { result.now ≡ spec.kind_letter space }
{
    match space {
        Space::Functions => "f",
        Space::Tables => "t",
        Space::Memories => "m",
        Space::Globals => "g",
        Space::Types | Space::ElementSegments | Space::DataSegments => "",
    }
}

fn shared_text(alloc: Global, prefix: &str, space: Space, index: u32) -> Result<String, AllocError>
    ensures { IfOk result (λ text. string_bytes text ≡ spec.name_from_primary prefix.now space index) }
{
    let mut text = String::from_str(alloc, prefix)?;
    text.push_str(kind_letter(space))?;
    text.push_str(Buffer::new().format(index))?;
    Ok(text)
}

/// Returns the name under which a secondary module imports an entity: the prefix, a letter for its
/// kind, and its index in decimal.
pub(crate) fn name_from_primary(
    alloc: Global,
    prefix: &Name,
    space: Space,
    index: u32,
) -> Result<Name, NoMemory>
    ensures { IfOk result (λ name. name ≡ spec.name_from_primary prefix.now space index) }
{
    let text = shared_text(alloc, prefix.as_str(), space, index)?;
    Name::from_text(alloc, text.as_str())
}

fn slots_text(alloc: Global, prefix: &str) -> Result<String, AllocError>
    ensures { IfOk result (λ text. string_bytes text ≡ spec.slots_name prefix.now) }
{
    let mut text = String::from_str(alloc, prefix)?;
    text.push_str("slots")?;
    Ok(text)
}

/// Returns the name under which the slot table is exported.
pub(crate) fn slots_name(alloc: Global, prefix: &Name) -> Result<Name, NoMemory>
    ensures { IfOk result (λ name. name ≡ spec.slots_name prefix.now) }
{
    let text = slots_text(alloc, prefix.as_str())?;
    Name::from_text(alloc, text.as_str())
}

// Returns what is exported for an index of the space; types and segments are never exported.
fn desc_of(space: Space, index: u32) -> ExportDesc
    ensures { result ≡ desc_of space index }
{
    match space {
        Space::Tables => ExportDesc::Table(index),
        Space::Memories => ExportDesc::Memory(index),
        Space::Globals => ExportDesc::Global(index),
        Space::Functions | Space::Types | Space::ElementSegments | Space::DataSegments => {
            ExportDesc::Func(index)
        }
    }
}

// Adds an export of the entity at index `at`, if it is marked.
fn add_one(
    alloc: Global,
    exports: &mut Items<Export>,
    prefix: &Name,
    space: Space,
    marks: &[bool],
    at: usize,
) -> Result<(), NoMemory>
    requires there { at < length marks.now }
    requires few { at < 2 ^ 32 }
    ensures { OnOk result (exports.new ≡ exports.old ++ cond (get_or marks.now at false) (exported prefix.now space at ∷ []) []) }
{
    if marks[at] {
        exports.keep(Export {
            name: name_from_primary(alloc, prefix, space, at as u32)?,
            desc: desc_of(space, at as u32),
        })?;
    }
    Ok(())
}

// Adds an export of each marked entity of the space.
fn add_named(
    alloc: Global,
    exports: &mut Items<Export>,
    prefix: &Name,
    space: Space,
    marks: &[bool],
) -> Result<(), NoMemory>
    requires few { length marks.now ≤ 2 ^ 32 }
    ensures { OnOk result (exports.new ≡ exports.old ++ spec.exports_for_secondary prefix.now space (desc_of space) (places (λ named. named) marks.now 0)) }
{
    for at in 0..marks.len() {
        add_one(alloc, exports, prefix, space, marks, at)?;
    }
    Ok(())
}

/// Returns what the primary module exports for secondary ones, in the indices of the input module:
/// what is marked, and last the slot table.
pub(crate) fn added_exports(
    alloc: Global,
    prefix: &Name,
    marks: &Marks,
    table: u32,
) -> Result<Items<Export>, NoMemory>
    requires funcs { length marks.now.funcs.items ≤ 2 ^ 32 }
    requires tables { length marks.now.tables.items ≤ 2 ^ 32 }
    requires mems { length marks.now.mems.items ≤ 2 ^ 32 }
    requires globals { length marks.now.globals.items ≤ 2 ^ 32 }
    ensures { IfOk result (λ exports. exports ≡ exports_by prefix.now marks.now table) }
{
    let mut exports = Items::new(alloc);
    add_named(alloc, &mut exports, prefix, Space::Functions, &marks.funcs)?;
    add_named(alloc, &mut exports, prefix, Space::Tables, &marks.tables)?;
    add_named(alloc, &mut exports, prefix, Space::Memories, &marks.mems)?;
    add_named(alloc, &mut exports, prefix, Space::Globals, &marks.globals)?;
    exports.keep(Export {
        name: slots_name(alloc, prefix)?,
        desc: ExportDesc::Table(table),
    })?;
    Ok(exports)
}
