ghost use Rattle.std.specs.Prelude.{◌≡◌, ◌<◌, length, None, OnOk};
ghost use Rattle.wasm_read_spec.specs.Reading.{GivesAll};
ghost use Rattle.wasm_names.specs.Reading.{behind_name, name_map_at, names_at, lent_option, GivesMap};
ghost use Rattle.wasm_read_spec.specs.Reading.{name_at};

use crate::func_name::FuncName;
use crate::name_map::read_name_map;
use std::alloc::Global;
use wasm_bytes::{Cursor, Items};
use wasm_read_items::read_sized;
use wasm_read_spec::Fault;

/// The id of the subsection that names functions.
const FUNCTION_NAMES: u8 = 1;

/// Returns what follows the name of a custom section, if the name is `name`.
pub fn behind_name_of(content: &[u8]) -> Option<&[u8]>
    ensures { lent_option result ≡ behind_name (name_at content.now) }
{
    let mut cursor = Cursor::new(content);
    match cursor.name() {
        Ok("name") => cursor.take(cursor.left()).ok(),
        _ => None,
    }
}

/// Returns the content of the one subsection that names functions, or `None` if there is none; a
/// second one is a fault. The others are skipped by their size.
fn name_map_of(content: &[u8]) -> Result<Option<&[u8]>, Fault>
    ensures gives { GivesMap result (name_map_at (length content.now) None content.now) }
{
    let mut cursor = Cursor::new(content);
    let mut found = None;
    while let Ok(id) = cursor.byte() {
        let part = read_sized(&mut cursor)?;
        if id == FUNCTION_NAMES {
            if found.is_some() {
                return Err(Fault::Malformed);
            }
            found = Some(part);
        }
    }
    Ok(found)
}

/// Reads the function names from what follows the name of a name section.
#[tactic(auto, unfolding(crate::specs::Reading::names_at))]
pub fn read_names(alloc: Global, content: &[u8]) -> Result<Items<FuncName>, Fault>
    ensures gives { GivesAll result (names_at content.now) }
{
    match name_map_of(content) {
        Ok(Some(bytes)) => read_name_map(alloc, bytes),
        Ok(None) => Ok(Items::new(alloc)),
        Err(fault) => Err(fault),
    }
}
