ghost use Rattle.std.specs.Prelude.{◌≡◌, ◌<◌, ◌^◌, ◌⊎◌, length, None, Some, Ok, Err, IfOk, IfErr, IsOk};
ghost use Rattle.std.specs.Option.{option_copied};
ghost use Rattle.split_plan.specs.declared.fault.PlanFault.{PlanFault as SomeFault};
ghost use Rattle.split_plan.specs.declared.fault.PlanFault.TheVariants.{NoMemory as OutOfMemory};
ghost use Rattle.wasm_tree.specs.Spaces.{funcs_of};
ghost use Rattle.split_plan.specs.Causes.{PlanCause, PlanFaultTold};
ghost use Rattle.split_plan.specs.NameTable.{has_wanted_mark};
ghost use Rattle.split_plan.specs.PlannedMoves.{IsPlan, plan_fault, plan_for, plan_of, words_of};

use crate::choosing::choose;
use crate::fault::PlanFault;
use crate::laws::plan_faults_have_causes;
use crate::marking::{marked, refuse_kept};
use crate::named::named_functions;
use crate::plans::Plan;
use std::alloc::Global;
use wasm_bytes::{Items, Name, NoMemory};
use wasm_names::FuncName;
use wasm_tree::Module;
use wasm_valid::Valid;

/// Determines which functions a split moves, and which were asked to move but stay.
///
/// A name in `split` or `keep` stands for the defined function that has it in `names`; if none has
/// it there, for the one that is exported under it. With `split`, the functions that it names are
/// wanted; without it, all defined functions that `keep` does not name. A wanted function whose
/// body has `memory.init`, `data.drop`, `table.init` or `elem.drop` (WebAssembly Core 2.0, sections
/// 2.4.6 and 2.4.7) is kept, and the others move. Entries of `names` for imported functions, or for
/// functions that do not exist, are ignored.
///
/// The names in `split` are looked up in order, then those in `keep`. The first that stands for no
/// function gives `NoSuchFunction`, or `AmbiguousFunction` if several entries of `names` give it to
/// defined functions. If each stands for a function, the first name in `split` whose function
/// `keep` names too gives `KeptAndSplit`. `NoMemory` means that memory ran out, and says nothing of
/// the names.
pub fn plan(
    alloc: Global,
    input: &Valid,
    names: &Items<FuncName>,
    split: Option<&Items<Name>>,
    keep: Option<&Items<Name>>,
) -> Result<Plan, PlanFault>
    ensures plan { IfOk result (λ p. p ≡ plan_of input.now names.now (option_copied split.entry) (option_copied keep.entry)) }
    ensures shape { IfOk result (λ p. IsPlan input.now p) }
    ensures none { IsOk result → plan_fault input.now names.now (option_copied split.entry) (option_copied keep.entry) ≡ None }
    ensures fault { IfErr result (λ e. (e ≡ OutOfMemory) ⊎ (plan_fault input.now names.now (option_copied split.entry) (option_copied keep.entry) ≡ Some e)) }
    ensures first { (e : SomeFault) → plan_fault input.now names.now (option_copied split.entry) (option_copied keep.entry) ≡ Some e → (result ≡ Err e) ⊎ (result ≡ Err OutOfMemory) }
    // Each other fault is returned exactly if its cause holds, unless memory runs out.
    ensures told { (e : SomeFault) → (e ≡ OutOfMemory → ⊥) → PlanFaultTold result e (PlanCause input.now names.now (option_copied split.entry) (option_copied keep.entry) e) }
{
    plan_faults_have_causes();
    planned(alloc, input, names.as_slice(), split, keep)
}

fn planned(
    alloc: Global,
    input: &Valid,
    names: &[FuncName],
    split: Option<&Items<Name>>,
    keep: Option<&Items<Name>>,
) -> Result<Plan, PlanFault>
    ensures plan { IfOk result (λ p. p ≡ plan_of input.now names.now (option_copied split.entry) (option_copied keep.entry)) }
    ensures none { IsOk result → plan_fault input.now names.now (option_copied split.entry) (option_copied keep.entry) ≡ None }
    ensures fault { IfErr result (λ e. (e ≡ OutOfMemory) ⊎ (plan_fault input.now names.now (option_copied split.entry) (option_copied keep.entry) ≡ Some e)) }
{
    let module = input.module();
    let count = module.func_space();
    let table = named_functions(alloc, module, names)?;
    let wanted = marked(alloc, &table, words_of(split), count)?;
    let kept = marked(alloc, &table, words_of(keep), count)?;
    refuse_kept(alloc, &table, &kept, words_of(split))?;
    Ok(choose_by(alloc, module, split, &wanted, &kept)?)
}

// Plans for the functions that `split` names, or without it for those that `keep` does not name.
fn choose_by(
    alloc: Global,
    module: &Module,
    split: Option<&Items<Name>>,
    wanted: &[bool],
    kept: &[bool],
) -> Result<Plan, NoMemory>
    requires wanted { length wanted.now ≡ length (funcs_of «module».now) }
    requires kept { length kept.now ≡ length (funcs_of «module».now) }
    requires few { length (funcs_of «module».now) < 2 ^ 32 }
    ensures { IfOk result (λ p. p ≡ plan_for «module».now (has_wanted_mark (option_copied split.entry) wanted.now kept.now)) }
{
    match split {
        Some(_) => choose(alloc, module, wanted, true),
        None => choose(alloc, module, kept, false),
    }
}

// Returns the names, or no names for `None`.
fn words_of<'a>(words: Option<&'a Items<Name>>) -> &'a [Name]
    ensures { result.now ≡ words_of (option_copied words.entry) }
{
    match words {
        Some(words) => words.as_slice(),
        None => &[],
    }
}
