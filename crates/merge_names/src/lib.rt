//! Chooses names for the exports of several parts in one module, where export names must differ
//! (WebAssembly Core 2.0, section 3.4.10).
//!
//! Files:
//!
//! - `fault`: Why no names are chosen.
//! - `given`: Names as texts.
//! - `keeping`: Modes that keep the first export of each name.
//! - `mode`: / What happens to an export whose name repeats an earlier one.
//! - `renaming`: The mode `Rename`: an export whose name repeats an earlier one gets a number.
//! - `specs/Chosen`: One step of renaming.
//! - `specs/Given`: What the contracts say about names as texts.
//! - `specs/Laws`: Laws about the new names.
//! - `specs/Names`: How the exports of several parts are named in one module, where export names
//!   must differ.
#![tactic(auto)]

mod fault;
mod given;
mod keeping;
mod mode;
mod renaming;

ghost use Rattle.std.specs.Prelude.{◌≡◌, ℕ, None, Err, IfOk, IfErr, IsOk};
ghost use Rattle.merge_names.specs.Names.{given, new_names, conflict as conflict_of, FollowRule, AreDistinct, IsConflict};
ghost use Rattle.merge_names.specs.Laws.{NamesFollowRules, GivenNamesDiffer, ConflictsAreFirst};
ghost use Rattle.merge_names.specs.declared.fault.NameFault.TheVariants.{Conflict};
ghost use Rattle.merge_names.specs.declared.mode.Mode.TheVariants.{Refuse};
ghost use Rattle.merge_names.specs.Given.{texts, IsConflictOf};

use crate::keeping::{all_of, kept};
use crate::renaming::renamed;
pub use fault::NameFault;
pub use mode::Mode;
use std::alloc::Global;
use wasm_bytes::{Items, Name};

/// Returns the new name of each export, or `None` for one that is dropped.
///
/// With `Refuse` all exports keep their names; if a name repeats an earlier one, the call fails
/// with `Conflict` at the first such place. With `Rename` the first export of a name keeps it, and
/// each later one gets the name, `_` and the least number from 1 that makes a name different from
/// all given ones, also later ones, and from all that were chosen before. With `Skip` the later
/// ones are dropped. `NoMemory` means that memory ran out and says nothing about the names.
pub fn choose_names(
    alloc: Global,
    names: &[&str],
    mode: Mode,
) -> Result<Items<Option<Name>>, NameFault>
    ensures chosen { IfOk result (λ news. news ≡ new_names mode (texts names.now)) }
    ensures rule { IfOk result (λ news. FollowRule mode (texts names.now) news) }
    ensures distinct { IfOk result (λ news. AreDistinct (given news)) }
    ensures none { IsOk result → conflict_of mode (texts names.now) ≡ None }
    ensures conflict { IfErr result (λ e. IsConflictOf e (conflict_of mode (texts names.now))) }
    ensures first { (place : ℕ) → result ≡ Err (Conflict place) → (mode ≡ Refuse) × IsConflict (texts names.now) place }
{
    names_by(alloc, names, mode)
}

fn names_by(alloc: Global, names: &[&str], mode: Mode) -> Result<Items<Option<Name>>, NameFault>
    ensures chosen { IfOk result (λ news. news ≡ new_names mode (texts names.now)) }
    ensures none { IsOk result → conflict_of mode (texts names.now) ≡ None }
    ensures conflict { IfErr result (λ e. IsConflictOf e (conflict_of mode (texts names.now))) }
{
    match mode {
        Mode::Refuse => all_of(alloc, names),
        Mode::Rename => renamed(alloc, names),
        Mode::Skip => kept(alloc, names),
    }
}

/// The new names of each mode follow its rule, if there are fewer than 2^62 names.
pub fn new_names_follow_rules()
    ensures rules { NamesFollowRules }
{}

/// If there is no conflict and there are fewer than 2^62 new names, they differ.
pub fn given_names_differ()
    ensures differ { GivenNamesDiffer }
{}

/// A conflict is at the first name that repeats an earlier one, and only `Refuse` has one.
pub fn conflicts_are_first()
    ensures first { ConflictsAreFirst }
{}
