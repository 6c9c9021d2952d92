// The first invalid item.

ghost use Rattle.std.specs.Prelude.{◌≡◌, IfOk};
ghost use Rattle.wasm_tree.specs.Bounds.{IsBounded};
ghost use Rattle.wasm_valid.specs.Validity.{span, items, count_of, order};
ghost use Rattle.wasm_valid.specs.First.{IsAnswer};

use crate::holds::{count_of, holds_at, index_of};
use crate::kinds::{Invalid, ItemKind};
use crate::spaces::Spaces;
use std::alloc::{AllocError, Global};
use wasm_tree::Module;
use wasm_valid_bodies::Stacks;

const ORDER: [ItemKind; 11] = [
    ItemKind::Import,
    ItemKind::Memories,
    ItemKind::Func,
    ItemKind::Table,
    ItemKind::Memory,
    ItemKind::Global,
    ItemKind::Export,
    ItemKind::Start,
    ItemKind::Elem,
    ItemKind::Segment,
    ItemKind::Body,
];

// Returns the first invalid item of one kind, if there is one.
fn first_of_kind<'a>(
    alloc: Global,
    spaces: &'a Spaces<'a>,
    stacks: &mut Stacks<'a>,
    many: bool,
    kind: ItemKind,
) -> Result<Option<Invalid>, AllocError>
    requires { IsBounded spaces.now.module.now }
    ensures { IfOk result (λ found. IsAnswer spaces.now.module.now (span kind 0 (count_of spaces.now.module.now many kind)) found) }
{
    for place in 0..count_of(spaces.module, many, kind) {
        if !holds_at(alloc, spaces, stacks, kind, place)? {
            let index = index_of(spaces.module, many, kind, place);
            return Ok(Some(Invalid { kind, index }));
        }
    }
    Ok(None)
}

/// Returns the first invalid item of the module, if there is one. If `many` is true, any number of
/// memories is allowed. The only error is that memory runs out.
pub fn first_invalid(
    alloc: Global,
    module: &Module,
    many: bool,
) -> Result<Option<Invalid>, AllocError>
    requires { IsBounded «module».now }
    ensures { IfOk result (λ found. IsAnswer «module».now (items «module».now many) found) }
{
    let spaces = Spaces::new(alloc, module)?;
    let mut stacks = Stacks::new(alloc);
    for kind in &ORDER {
        if let Some(invalid) = first_of_kind(alloc, &spaces, &mut stacks, many, *kind)? {
            return Ok(Some(invalid));
        }
    }
    Ok(None)
}
