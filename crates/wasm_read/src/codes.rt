ghost use Rattle.std.specs.Prelude.{◌≡◌, ◌<◌, ◌≤◌, ◌+◌, ◌^◌, ◌||◌, length, map, OnOk, IfOk};
ghost use Rattle.wasm_tree.specs.DataUse.{uses_data, any_uses_data};
ghost use Rattle.wasm_tree.specs.Limits.{limit};
ghost use Rattle.wasm_tree.specs.declared.which.Which.TheVariants.{Imports};
ghost use Rattle.wasm_read_spec.specs.Bodies.{code_in, code_read, codes_read};
ghost use Rattle.wasm_read_spec.specs.Files.{untyped};
ghost use Rattle.wasm_read_spec.specs.Reading.{each_from};
ghost use Rattle.wasm_read_spec.specs.Contents.{placed, FileGives, FileGivesAll, entry_at, next_func, codes_at};

use std::alloc::Global;
use wasm_bytes::{Cursor, Items};
use wasm_read_items::{Pile, read_code, read_sized};
use wasm_read_spec::{Fault, ReadFault};
use wasm_tree::{Func, MOST_FUNCTIONS, Which};

/// Turns a fault in a section, or in the entry of a function in it, into a fault of the file.
pub fn placed_fault(section: u32, func: Option<u32>, fault: Fault) -> ReadFault
    ensures { result ≡ placed section func fault }
{
    match fault {
        Fault::NoMemory => ReadFault::NoMemory,
        Fault::Malformed => match func {
            None => ReadFault::Malformed { section },
            Some(func) => ReadFault::MalformedBody { func },
        },
        Fault::Unsupported => ReadFault::Unsupported { section, func },
        Fault::Limit { which } => ReadFault::Limit { which },
    }
}

/// Reads a code entry with its size (WebAssembly Core 2.0, section 5.5.13). The function gets the
/// type index 0 (`no_type`).
#[tactic(auto, unfolding(wasm_read_spec::specs::Contents::entry_at))]
fn read_entry(
    alloc: Global,
    cursor: &mut Cursor<'_>,
    many: bool,
    section: u32,
    func: u32,
    pile: &mut Pile,
) -> Result<Func, ReadFault>
    ensures gives { FileGives (code_read result) cursor.new (entry_at many section func cursor.old) }
    ensures no_type { IfOk result (λ f. f.ty ≡ 0) }
    ensures uses { IfOk result (λ f. pile.new.uses_data ≡ (pile.old.uses_data || uses_data f.body)) }
{
    let content = match read_sized(cursor) {
        Ok(content) => content,
        Err(fault) => return Err(placed_fault(section, None, fault)),
    };
    match read_code(alloc, content, many, pile) {
        Ok(code) => Ok(code),
        Err(fault) => Err(placed_fault(section, Some(func), fault)),
    }
}

/// Reads `count` code entries, the first of which is that of function `first`.
#[tactic(auto, unfolding(wasm_read_spec::specs::Reading::each_from))]
fn read_entries(
    alloc: Global,
    cursor: &mut Cursor<'_>,
    many: bool,
    section: u32,
    count: u32,
    first: u32,
    pile: &mut Pile,
) -> Result<Items<Func>, ReadFault>
    requires { first + count < 2 ^ 32 }
    ensures gives { FileGives (codes_read result) cursor.new (each_from (entry_at many section) next_func count first cursor.old) }
    ensures no_types { IfOk result (λ fs. map untyped (map code_in fs) ≡ fs) }
    ensures uses { IfOk result (λ fs. pile.new.uses_data ≡ (pile.old.uses_data || any_uses_data fs)) }
{
    let mut codes = Items::new(alloc);
    let mut func = first;
    for _i in 0..count {
        let code = read_entry(alloc, cursor, many, section, func, pile)?;
        codes.keep(code)?;
        func += 1;
    }
    Ok(codes)
}

/// Reads the code section (WebAssembly Core 2.0, section 5.5.13), whose first entry is that of
/// function `first`. The functions get the type index 0 (`no_types`).
#[tactic(auto, unfolding(wasm_read_spec::specs::Contents::codes_at))]
pub fn read_codes(
    alloc: Global,
    content: &[u8],
    many: bool,
    section: u32,
    first: u32,
    pile: &mut Pile,
) -> Result<Items<Func>, ReadFault>
    requires { first ≤ limit Imports }
    ensures gives { FileGivesAll (codes_read result) (codes_at many section first content.now) }
    ensures no_types { IfOk result (λ fs. map untyped (map code_in fs) ≡ fs) }
    ensures uses { IfOk result (λ fs. pile.new.uses_data ≡ (pile.old.uses_data || any_uses_data fs)) }
{
    let mut cursor = Cursor::new(content);
    let count = match cursor.u32() {
        Ok(count) => count,
        Err(_) => return Err(ReadFault::Malformed { section }),
    };
    if count > MOST_FUNCTIONS {
        return Err(ReadFault::Limit {
            which: Which::Functions,
        });
    }
    let codes = read_entries(alloc, &mut cursor, many, section, count, first, pile)?;
    if cursor.left() != 0 {
        return Err(ReadFault::Malformed { section });
    }
    Ok(codes)
}
