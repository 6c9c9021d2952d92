// Which moved functions need a trampoline.

ghost use Rattle.std.specs.Prelude.{◌≡◌, ◌++◌, [], false, filter, length, slice_get, unwrap_or, IfOk};
ghost use Rattle.std.specs.List.{cons_option};
ghost use Rattle.std.specs.List.Sorted.{IsStrictlyIncreasing};
ghost use Rattle.base_kept.specs.Marks.{named_from};
ghost use Rattle.wasm_tree.specs.Spaces.{funcs_of};
ghost use Rattle.wasm_valid.specs.Named.{marked_at, refs_of};
ghost use Rattle.split_plan.specs.PlannedMoves.{IsPlan};
ghost use Rattle.split_spec.specs.TrampolineNeeds.{needed as needed_among};

use index_remap_proof::well_typed_bodies_name_declared_functions;
use split_plan::Plan;
use std::alloc::{AllocError, Global};
use wasm_bytes::{Items, NoMemory};
use wasm_tree::Module;
use wasm_valid::{Valid, mark, named_funcs, valid_where_items_hold};

fn mark_start(marks: &mut Vec<bool>, start: Option<u32>)
    ensures { marks.new.items ≡ marked_at marks.old.items start }
{
    if let Some(func) = start {
        mark(marks, func);
    }
}

/// Returns for each function whether an element segment, the initialiser of a global, an export or
/// the start names it.
pub(crate) fn needed_marks(alloc: Global, module: &Module) -> Result<Vec<bool>, AllocError>
    ensures { IfOk result (λ marks. marks.items ≡ named_from (refs_of «module».now ++ cons_option «module».now.start []) 0 (length (funcs_of «module».now))) }
{
    let mut marks = named_funcs(alloc, module, module.func_space())?;
    mark_start(&mut marks, module.start);
    Ok(marks)
}

/// Returns whether a function is marked; a function without an entry in `marks` is not.
pub(crate) fn is_marked(marks: &[bool], func: u32) -> bool
    ensures { result ≡ unwrap_or (slice_get marks.now func) false }
{
    marks.get(func as usize).copied().unwrap_or(false)
}

// Returns those of `funcs` that are marked, in their order.
fn marked_among(alloc: Global, funcs: &[u32], marks: &[bool]) -> Result<Items<u32>, NoMemory>
    ensures { IfOk result (λ all. all ≡ filter (λ func. unwrap_or (slice_get marks.now func) false) funcs.now) }
{
    let mut all = Items::new(alloc);
    for func in funcs {
        if is_marked(marks, *func) {
            all.keep(*func)?;
        }
    }
    Ok(all)
}

/// Returns the moved functions for which the primary module has a trampoline, in ascending order.
///
/// These are the functions of `plan.moved` that an export, the start, an item of an element
/// segment, the initialiser of a global, or a `ref.func` in any body of `input` names (WebAssembly
/// Core 2.0, section 2.5). Nothing but a call names any other moved function. `plan` must be a plan
/// of `input`, as `split_plan::plan` returns it. The only error is `NoMemory`.
pub fn needed(alloc: Global, input: &Valid, plan: &Plan) -> Result<Items<u32>, NoMemory>
    requires plan { IsPlan input.now plan.now }
    ensures needed { IfOk result (λ all. all ≡ needed_among input.now plan.now.moved) }
    ensures ascend { IfOk result IsStrictlyIncreasing }
{
    // A function that `ref.func` names in a body of a valid module is also named outside the
    // bodies.
    valid_where_items_hold();
    well_typed_bodies_name_declared_functions();
    let marks = needed_marks(alloc, input.module())?;
    let all = marked_among(alloc, plan.moved.as_slice(), &marks)?;
    Ok(all)
}
