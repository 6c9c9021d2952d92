ghost use Rattle.std.specs.Prelude.{◌≡◌, ◌++◌, ◌≤◌, length, reverse, IfOk};
ghost use Rattle.base_kept.specs.Kept.{kept};

use std::alloc::Global;
use wasm_bytes::{Items, NoMemory};

// The items that are marked, the last first.
fn marked_backward<T: Drop>(
    alloc: Global,
    items: Items<T>,
    marks: &[bool],
) -> Result<Items<T>, NoMemory>
    requires { length items ≤ length marks.now }
    ensures { IfOk result (λ back. reverse back ≡ kept marks.now items) }
{
    let mut items = items;
    let mut back = Items::new(alloc);
    while let Some(item) = items.pop() {
        if marks[items.len()] {
            back.keep(item)?;
        }
    }
    Ok(back)
}

// The items, the last first.
fn backward<T: Drop>(alloc: Global, items: Items<T>) -> Result<Items<T>, NoMemory>
    ensures { IfOk result (λ back. back ≡ reverse items) }
{
    let mut items = items;
    let mut back = Items::new(alloc);
    while let Some(item) = items.pop() {
        back.keep(item)?;
    }
    Ok(back)
}

/// Returns the items that are marked, in their order. They are moved, and the others are dropped.
/// `marks` must have a mark for each item; further ones are ignored. The only error is `NoMemory`;
/// then all items are dropped.
pub fn keep_marked<T: Drop>(
    alloc: Global,
    items: Items<T>,
    marks: &[bool],
) -> Result<Items<T>, NoMemory>
    requires { length items ≤ length marks.now }
    ensures { IfOk result (λ all. all ≡ kept marks.now items) }
{
    let back = marked_backward(alloc, items, marks)?;
    backward(alloc, back)
}
