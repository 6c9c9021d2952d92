ghost use Rattle.std.specs.Prelude.{◌≡◌, ◌≤◌, length, OnOk};
ghost use Rattle.wasm_tree.specs.Spaces.{imported_funcs};
ghost use Rattle.wasm_tree.specs.DataUse.{any_uses_data};
ghost use Rattle.wasm_tree.specs.Limits.{limit};
ghost use Rattle.wasm_tree.specs.declared.which.Which.TheVariants.{Imports};
ghost use Rattle.wasm_read_spec.specs.Reading.{GivesAll as GivesWhole, whole_at, u32_at};
ghost use Rattle.wasm_read_spec.specs.Contents.{GivesAfter, custom_at, section_at};

use crate::codes::{placed_fault, read_codes};
use std::alloc::Global;
use wasm_bytes::Cursor;
use wasm_read_items::{Pile, read_name, read_whole};
use wasm_read_spec::{Fault, Parts, ReadFault};
use wasm_tree::{Import, Which};

/// What the sections read so far contain.
#[derive(Drop)]
pub struct Found {
    pub parts: Parts,
    /// Whether a body names a data segment.
    pub uses_data: bool,
}

/// Reads a custom section, which begins with a name (WebAssembly Core 2.0, section 5.5.3).
fn read_custom(content: &[u8]) -> Result<(), Fault>
    ensures { GivesWhole result (custom_at content.now) }
{
    let mut cursor = Cursor::new(content);
    match cursor.name() {
        Ok(_) => Ok(()),
        Err(_) => Err(Fault::Malformed),
    }
}

/// Reads a number that is all of the content.
#[tactic(auto, unfolding(wasm_read_spec::specs::Reading::whole_at))]
fn read_number(content: &[u8]) -> Result<u32, Fault>
    ensures { GivesWhole result (whole_at u32_at content.now) }
{
    let mut cursor = Cursor::new(content);
    let number = cursor.u32()?;
    if cursor.left() != 0 {
        return Err(Fault::Malformed);
    }
    Ok(number)
}

/// Returns how many functions are imported.
#[tactic(auto, using(base_lists::proofs::Filtered::filter_map_most))]
fn imported_funcs(imports: &[Import]) -> u32
    requires { length imports.now ≤ limit Imports }
    ensures value { result ≡ length (imported_funcs imports.now) }
    ensures few { result ≤ limit Imports }
{
    let count = imports
        .iter()
        .filter_map(|import| import.desc.func())
        .count();
    count as u32
}

/// Reads a section and puts what it contains into its place among the parts.
#[tactic(auto, unfolding(wasm_read_spec::specs::Contents::section_at))]
pub fn read_section(
    alloc: Global,
    many: bool,
    section: u32,
    found: &mut Found,
    id: u8,
    content: &[u8],
) -> Result<(), ReadFault>
    requires few { length found.old.parts.imports ≤ limit Imports }
    requires uses { found.old.uses_data ≡ any_uses_data found.old.parts.codes }
    ensures gives { GivesAfter result found.new.parts (section_at many section found.old.parts (id, content.now)) }
    ensures few { OnOk result (length found.new.parts.imports ≤ limit Imports) }
    ensures uses { OnOk result (found.new.uses_data ≡ any_uses_data found.new.parts.codes) }
{
    match id {
        0 => match read_custom(content) {
            Ok(()) => Ok(()),
            Err(fault) => Err(placed_fault(section, None, fault)),
        },
        1 => match read_whole(alloc, content, Which::Types) {
            Ok(types) => {
                found.parts.types = types;
                Ok(())
            }
            Err(fault) => Err(placed_fault(section, None, fault)),
        },
        2 => match read_whole(alloc, content, Which::Imports) {
            Ok(imports) => {
                found.parts.imports = imports;
                Ok(())
            }
            Err(fault) => Err(placed_fault(section, None, fault)),
        },
        3 => match read_whole(alloc, content, Which::Functions) {
            Ok(func_types) => {
                found.parts.func_types = func_types;
                Ok(())
            }
            Err(fault) => Err(placed_fault(section, None, fault)),
        },
        4 => match read_whole(alloc, content, Which::Tables) {
            Ok(tables) => {
                found.parts.tables = tables;
                Ok(())
            }
            Err(fault) => Err(placed_fault(section, None, fault)),
        },
        5 => match read_whole(alloc, content, Which::Memories) {
            Ok(mems) => {
                found.parts.mems = mems;
                Ok(())
            }
            Err(fault) => Err(placed_fault(section, None, fault)),
        },
        6 => match read_whole(alloc, content, Which::Globals) {
            Ok(globals) => {
                found.parts.globals = globals;
                Ok(())
            }
            Err(fault) => Err(placed_fault(section, None, fault)),
        },
        7 => match read_whole(alloc, content, Which::Exports) {
            Ok(exports) => {
                found.parts.exports = exports;
                Ok(())
            }
            Err(fault) => Err(placed_fault(section, None, fault)),
        },
        8 => match read_number(content) {
            Ok(start) => {
                found.parts.start = Some(start);
                Ok(())
            }
            Err(fault) => Err(placed_fault(section, None, fault)),
        },
        9 => match read_whole(alloc, content, Which::ElementSegments) {
            Ok(elems) => {
                found.parts.elems = elems;
                Ok(())
            }
            Err(fault) => Err(placed_fault(section, None, fault)),
        },
        10 => {
            let first = imported_funcs(found.parts.imports.as_slice());
            let mut pile = Pile::new(alloc);
            let codes = read_codes(alloc, content, many, section, first, &mut pile)?;
            found.parts.codes = codes;
            found.uses_data = pile.uses_data;
            Ok(())
        }
        11 => match read_whole(alloc, content, Which::DataSegments) {
            Ok(datas) => {
                found.parts.datas = datas;
                Ok(())
            }
            Err(fault) => Err(placed_fault(section, None, fault)),
        },
        12 => match read_number(content) {
            Ok(count) => {
                found.parts.data_count = Some(count);
                Ok(())
            }
            Err(fault) => Err(placed_fault(section, None, fault)),
        },
        _ => Err(ReadFault::Malformed { section }),
    }
}
