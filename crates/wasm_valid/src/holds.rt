// The validity of items by their kind.

ghost use Rattle.std.specs.Prelude.{◌≡◌, ◌↔◌, ◌<◌, IfOk, IsTrue};
ghost use Rattle.wasm_tree.specs.Bounds.{IsBounded};
ghost use Rattle.wasm_valid.specs.Validity.{HoldsAt, count_of};
ghost use Rattle.wasm_valid.specs.First.{index_of};

use crate::items::{
    body_holds, elem_holds, export_holds, func_holds, global_holds, import_holds, memory_holds,
    segment_holds, start_holds, table_holds,
};
use crate::kinds::ItemKind;
use crate::spaces::Spaces;
use std::alloc::{AllocError, Global};
use wasm_tree::Module;
use wasm_valid_bodies::Stacks;

/// Returns whether an item is valid. `stacks` are for bodies; what they contain before does not
/// matter.
pub fn holds_at<'a>(
    alloc: Global,
    spaces: &'a Spaces<'a>,
    stacks: &mut Stacks<'a>,
    kind: ItemKind,
    place: usize,
) -> Result<bool, AllocError>
    requires { IsBounded spaces.now.module.now }
    ensures { IfOk result (λ ok. IsTrue ok ↔ HoldsAt spaces.now.module.now kind place) }
{
    match kind {
        ItemKind::Import => Ok(import_holds(spaces.module, place)),
        ItemKind::Memories => Ok(spaces.memories <= 1),
        ItemKind::Func => Ok(func_holds(spaces.module, place)),
        ItemKind::Table => Ok(table_holds(spaces.module, place)),
        ItemKind::Memory => Ok(memory_holds(spaces.module, place)),
        ItemKind::Global => Ok(global_holds(spaces, place)),
        ItemKind::Export => Ok(export_holds(spaces, place)),
        ItemKind::Start => Ok(start_holds(spaces.module)),
        ItemKind::Elem => Ok(elem_holds(spaces, place)),
        ItemKind::Segment => Ok(segment_holds(spaces, place)),
        ItemKind::Body => body_holds(alloc, spaces, stacks, place),
    }
}

/// Returns how many items of a kind there are. If `many` is false, the number of memories is an
/// item.
pub fn count_of(module: &Module, many: bool, kind: ItemKind) -> usize
    ensures { result ≡ count_of «module».now many kind }
{
    match kind {
        ItemKind::Import => module.imports.len(),
        ItemKind::Memories => if many { 0 } else { 1 },
        ItemKind::Func => module.funcs.len(),
        ItemKind::Table => module.tables.len(),
        ItemKind::Memory => module.mems.len(),
        ItemKind::Global => module.globals.len(),
        ItemKind::Export => module.exports.len(),
        ItemKind::Start => if module.start.is_some() { 1 } else { 0 },
        ItemKind::Elem => module.elems.len(),
        ItemKind::Segment => module.datas.len(),
        ItemKind::Body => module.funcs.len(),
    }
}

/// Returns the index with which an item is reported if it is invalid.
pub fn index_of(module: &Module, many: bool, kind: ItemKind, place: usize) -> u32
    requires bounded { IsBounded «module».now }
    requires there { place < count_of «module».now many kind }
    ensures { result ≡ index_of «module».now kind place }
{
    let index = match kind {
        ItemKind::Memories => module.memory_space(),
        ItemKind::Func => module.imported_funcs() + place,
        ItemKind::Table => module.imported_tables() + place,
        ItemKind::Memory => module.imported_memories() + place,
        ItemKind::Global => module.imported_globals() + place,
        ItemKind::Body => module.imported_funcs() + place,
        ItemKind::Import => place,
        ItemKind::Export => place,
        ItemKind::Start => place,
        ItemKind::Elem => place,
        ItemKind::Segment => place,
    };
    index as u32
}
