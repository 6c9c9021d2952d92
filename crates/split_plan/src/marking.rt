// The functions that the names in `split` or `keep` stand for.

ghost use Rattle.std.specs.Prelude.{◌≡◌, ℕ, ◌⊎◌, None, Some, map, slice_get, unwrap_or, length, true, false, IfOk, IfErr, IsOk};
ghost use Rattle.split_plan.specs.declared.fault.PlanFault.TheVariants.{NoMemory as OutOfMemory};
ghost use Rattle.split_plan.specs.NameTable.{AreMarks, fault_in, func_in, held_of};
ghost use Rattle.base_lists.specs.Options.{first_given};
ghost use Rattle.split_plan.specs.PlannedMoves.{kept_fault};

use crate::fault::PlanFault;
use crate::named::Named;
use std::alloc::{AllocError, Global};
use std::collections::HashMap;
use wasm_bytes::Name;
use wasm_valid::mark;

// Returns the function that `word` names, or the fault of `word`.
fn function_named(
    alloc: Global,
    table: &HashMap<&str, Named>,
    word: &Name,
) -> Result<u32, PlanFault>
    ensures func { IfOk result (λ func. func_in (held_of table.now word.now) ≡ Some func) }
    ensures none { IsOk result → fault_in (held_of table.now word.now) word.now ≡ None }
    ensures fault { IfErr result (λ e. (e ≡ OutOfMemory) ⊎ (fault_in (held_of table.now word.now) word.now ≡ Some e)) }
{
    match table.get(word.as_str()) {
        Some(Named::InNameList(func) | Named::Exported(func)) => Ok(*func),
        Some(Named::Shared) => Err(PlanFault::AmbiguousFunction {
            name: word.copy(alloc)?,
        }),
        None => Err(PlanFault::NoSuchFunction {
            name: word.copy(alloc)?,
        }),
    }
}

/// Returns for each of `count` functions whether one of the `words` names it, or the fault of the
/// first word that has one.
pub fn marked(
    alloc: Global,
    table: &HashMap<&str, Named>,
    words: &[Name],
    count: usize,
) -> Result<Vec<bool>, PlanFault>
    ensures marks { IfOk result (λ marks. AreMarks (held_of table.now) words.now count marks.items) }
    ensures none { IsOk result → first_given (λ word. fault_in (held_of table.now word) word) words.now ≡ None }
    ensures fault { IfErr result (λ e. (e ≡ OutOfMemory) ⊎ (first_given (λ word. fault_in (held_of table.now word) word) words.now ≡ Some e)) }
{
    let mut marks = vec![in alloc; false; count]?;
    for word in words {
        let func = function_named(alloc, table, word)?;
        mark(&mut marks, func);
    }
    Ok(marks)
}

fn is_marked(marks: &[bool], func: u32) -> bool
    ensures { result ≡ unwrap_or (slice_get marks.now func) false }
{
    marks.get(func as usize).copied().unwrap_or(false)
}

// Refuses `word` if its function is marked in `kept`.
fn refuse_one(
    alloc: Global,
    table: &HashMap<&str, Named>,
    kept: &[bool],
    word: &Name,
) -> Result<(), PlanFault>
    ensures none { IsOk result → kept_fault (λ func. unwrap_or (slice_get kept.now func) false) (func_in (held_of table.now word.now)) word.now ≡ None }
    ensures fault { IfErr result (λ e. (e ≡ OutOfMemory) ⊎ (kept_fault (λ func. unwrap_or (slice_get kept.now func) false) (func_in (held_of table.now word.now)) word.now ≡ Some e)) }
{
    let Some(named) = table.get(word.as_str()) else {
        return Ok(());
    };
    let Some(func) = named.func() else {
        return Ok(());
    };
    if is_marked(kept, func) {
        return Err(PlanFault::KeptAndSplit {
            name: word.copy(alloc)?,
        });
    }
    Ok(())
}

/// Refuses the first word whose function is marked in `kept`.
pub fn refuse_kept(
    alloc: Global,
    table: &HashMap<&str, Named>,
    kept: &[bool],
    words: &[Name],
) -> Result<(), PlanFault>
    ensures none { IsOk result → first_given (λ word. kept_fault (λ func. unwrap_or (slice_get kept.now func) false) (func_in (held_of table.now word)) word) words.now ≡ None }
    ensures fault { IfErr result (λ e. (e ≡ OutOfMemory) ⊎ (first_given (λ word. kept_fault (λ func. unwrap_or (slice_get kept.now func) false) (func_in (held_of table.now word)) word) words.now ≡
        Some e)) }
{
    for word in words {
        refuse_one(alloc, table, kept, word)?;
    }
    Ok(())
}
