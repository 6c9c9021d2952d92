ghost use Rattle.std.specs.Prelude.{◌≡◌, ◌<◌, ◌≤◌, ◌+◌, ◌||◌, length, OnOk, IfOk};
ghost use Rattle.wasm_tree.specs.DataUse.{uses_data};
ghost use Rattle.wasm_read_spec.specs.Reading.{Gives, GivesAll, local_at, locals_at, each_from, with_group};
ghost use Rattle.wasm_read_spec.specs.Bodies.{code_read};
ghost use Rattle.wasm_read_spec.specs.BodyReading.{code_at};
ghost use Rattle.wasm_tree.specs.Limits.{limit};
ghost use Rattle.wasm_tree.specs.declared.which.Which.TheVariants.{Locals};

use crate::body::read_body;
use crate::pile::Pile;
use crate::types::read_u32;
use crate::vectors::Spelled;
use std::alloc::Global;
use wasm_bytes::{Cursor, Items};
use wasm_read_spec::Fault;
use wasm_tree::{Func, LocalGroup, MOST_LOCALS, ValType, Which};

/// Reads a group of locals that follows `sum` locals.
#[tactic(auto, unfolding(wasm_read_spec::specs::Reading::local_at))]
fn read_group(alloc: Global, cursor: &mut Cursor<'_>, sum: u32) -> Result<LocalGroup, Fault>
    requires { sum ≤ limit Locals }
    ensures gives { Gives result cursor.new (local_at sum cursor.old) }
    ensures few { IfOk result (λ g. sum + g.count ≤ limit Locals) }
    ensures shorter { OnOk result (length cursor.new < length cursor.old) }
{
    let count = read_u32(cursor)?;
    if count > MOST_LOCALS - sum {
        return Err(Fault::Limit {
            which: Which::Locals,
        });
    }
    let ty = ValType::read(alloc, cursor)?;
    Ok(LocalGroup { count, ty })
}

/// Reads `count` groups. At each group the sum of the locals is compared with its limit.
#[tactic(auto, unfolding(wasm_read_spec::specs::Reading::each_from))]
fn read_groups(
    alloc: Global,
    cursor: &mut Cursor<'_>,
    count: u32,
) -> Result<Items<LocalGroup>, Fault>
    ensures gives { Gives result cursor.new (each_from local_at with_group count 0 cursor.old) }
    ensures shorter { OnOk result (length cursor.new ≤ length cursor.old) }
{
    let mut groups = Items::new(alloc);
    let mut sum = 0u32;
    for _i in 0..count {
        let group = read_group(alloc, cursor, sum)?;
        groups.keep(group)?;
        sum += group.count;
    }
    Ok(groups)
}

/// Reads the declared locals of a function (WebAssembly Core 2.0, section 5.5.13).
#[tactic(auto, unfolding(wasm_read_spec::specs::Reading::locals_at))]
fn read_locals(alloc: Global, cursor: &mut Cursor<'_>) -> Result<Items<LocalGroup>, Fault>
    ensures gives { Gives result cursor.new (locals_at cursor.old) }
    ensures shorter { OnOk result (length cursor.new < length cursor.old) }
{
    let count = read_u32(cursor)?;
    read_groups(alloc, cursor, count)
}

/// Reads the content of a code entry: the locals and the body (WebAssembly Core 2.0, section
/// 5.5.13). The function gets the type index 0, because its type is elsewhere in the file
/// (`no_type`). If `many` is true, memories have indices. The error is the first fault, or
/// `NoMemory`.
#[tactic(auto, unfolding(wasm_read_spec::specs::BodyReading::code_at))]
pub fn read_code(alloc: Global, bytes: &[u8], many: bool, pile: &mut Pile) -> Result<Func, Fault>
    ensures gives { GivesAll (code_read result) (code_at many bytes.now) }
    ensures no_type { IfOk result (λ f. f.ty ≡ 0) }
    ensures uses { IfOk result (λ f. pile.new.uses_data ≡ (pile.old.uses_data || uses_data f.body)) }
{
    let mut cursor = Cursor::new(bytes);
    let locals = read_locals(alloc, &mut cursor)?;
    let body = read_body(alloc, &mut cursor, many, pile)?;
    Ok(Func {
        ty: 0,
        locals,
        body,
    })
}
