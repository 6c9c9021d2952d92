// Divides the wanted functions into those that move and those that are kept.

ghost use Rattle.std.specs.Prelude.{◌≡◌, ◌<◌, ◌^◌, ◌&&◌, [], ◌∷◌, ◌++◌, cond, length, not, IfOk, OnOk};
ghost use Rattle.wasm_tree.specs.Spaces.{funcs_of};
ghost use Rattle.split_plan.specs.SegmentReferences.{uses_segment};
ghost use Rattle.split_plan.specs.PlannedMoves.{plan_for};
ghost use Rattle.split_plan.specs.NameTable.{has_mark};

use crate::plans::Plan;
use crate::segments::uses_segments;
use std::alloc::Global;
use wasm_bytes::{Items, NoMemory};
use wasm_tree::{Instr, Module};

// Returns whether the mark of the function is `mark`.
fn has_mark(marks: &[bool], func: usize, mark: bool) -> bool
    requires { func < length marks.now }
    ensures { result ≡ has_mark marks.now mark func }
{
    if mark { marks[func] } else { !marks[func] }
}

// If the function is wanted, adds it to `kept` if its body names a segment, else to `moved`.
fn put_in_plan(plan: &mut Plan, func: u32, wanted: bool, body: &[Instr]) -> Result<(), NoMemory>
    ensures moved { OnOk result (plan.new.moved ≡ plan.old.moved ++ cond (wanted && not (uses_segment body.now)) (func ∷ []) []) }
    ensures kept { OnOk result (plan.new.kept ≡ plan.old.kept ++ cond (wanted && uses_segment body.now) (func ∷ []) []) }
{
    if !wanted {
        return Ok(());
    }
    if uses_segments(body) {
        plan.kept.keep(func)
    } else {
        plan.moved.keep(func)
    }
}

/// Returns the plan for the case that the defined functions whose mark is `mark` are wanted.
pub fn choose(alloc: Global, module: &Module, marks: &[bool], mark: bool) -> Result<Plan, NoMemory>
    requires each { length marks.now ≡ length (funcs_of «module».now) }
    requires few { length (funcs_of «module».now) < 2 ^ 32 }
    ensures { IfOk result (λ p. p ≡ plan_for «module».now (has_mark marks.now mark)) }
{
    let first = module.imported_funcs();
    let mut plan = Plan {
        moved: Items::new(alloc),
        kept: Items::new(alloc),
    };
    for (at, func) in module.funcs.as_slice().iter().enumerate() {
        let wanted = has_mark(marks, first + at, mark);
        put_in_plan(&mut plan, (first + at) as u32, wanted, func.body.as_slice())?;
    }
    Ok(plan)
}
