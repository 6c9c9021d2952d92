// The mode `Rename`: an export whose name repeats an earlier one gets a number.

ghost use Rattle.std.specs.Prelude.{◌≡◌, ◌+◌, ℕ, List, ◌<◌, ◌≤◌, ◌^◌, true, false, length, map, Some, None, IfOk, IfErr, OnOk, string_bytes};
ghost use Rattle.std.specs.BTreeSet.{contains_text, btree_set_len};
ghost use Rattle.std.specs.HashMap.{get_by};
ghost use Rattle.std.specs.Str.{bytes_eq};
ghost use Rattle.merge_names.specs.Names.{among, numbered, renamed as new_texts, IsLeastFree};
ghost use Rattle.merge_names.specs.Chosen.{IsChosen};
ghost use Rattle.merge_names.specs.Given.{texts, IsConflictOf};

use crate::fault::NameFault;
use crate::given::text_at;
use indexmap::IndexMap;
use itoa::Buffer;
use std::alloc::{AllocError, Global};
use std::collections::BTreeSet;
use wasm_bytes::{Items, Name};

fn with_number(alloc: Global, name: &str, k: u64) -> Result<String, AllocError>
    ensures { IfOk result (λ new. string_bytes new ≡ numbered name.now k) }
{
    let mut new = String::from_str(alloc, name)?;
    new.push('_')?;
    new.push_str(Buffer::new().format(k))?;
    Ok(new)
}

// Returns the first name with a free number, and that number. All numbers below `from` are known to
// be taken.
fn least_free(
    alloc: Global,
    taken: &BTreeSet<String>,
    name: &str,
    from: u64,
) -> Result<(String, u64), AllocError>
    requires few { btree_set_len taken.now < 2 ^ 63 }
    requires from { 1 ≤ from }
    requires tried { (j : ℕ) → 1 ≤ j → j < from → contains_text taken.now (numbered name.now j) ≡ true }
    ensures number { IfOk result (λ r. IsLeastFree (contains_text taken.now) name.now r.1) }
    ensures name { IfOk result (λ r. string_bytes r.0 ≡ numbered name.now r.1) }
{
    let mut k = from;
    'number: loop {
        let new = with_number(alloc, name, k)?;
        if !taken.contains(new.as_str()) {
            return Ok((new, k));
        }
        k += 1;
    }
}

// Returns the new name of one export. `tried` has for each earlier name a number below which none
// is free.
fn rename_one<'a>(
    alloc: Global,
    taken: &mut BTreeSet<String>,
    tried: &mut IndexMap<&'a str, u64>,
    name: &'a str,
) -> Result<Name, NameFault>
    requires few { btree_set_len taken.old < 2 ^ 63 }
    requires tried { (from : ℕ) → get_by (λ k. bytes_eq name.now k.now) tried.old ≡ Some from
        → (1 ≤ from) × ((j : ℕ) → 1 ≤ j → j < from → contains_text taken.old (numbered name.now j) ≡ true) }
    ensures chosen { IfOk result (λ new. IsChosen name.now (contains_text taken.old) (contains_text taken.new)
        (λ q. get_by (λ k. bytes_eq q k.now) tried.old) (λ q. get_by (λ k. bytes_eq q k.now) tried.new) new) }
    ensures few { OnOk result (btree_set_len taken.new ≤ btree_set_len taken.old + 1) }
    ensures no_memory { IfErr result (λ e. IsConflictOf e None) }
{
    match tried.get(name).copied() {
        None => {
            tried.insert(name, 1)?;
            Ok(Name::from_text(alloc, name)?)
        }
        Some(from) => {
            let (new, k) = least_free(alloc, taken, name, from)?;
            let chosen = Name::from_text(alloc, new.as_str())?;
            taken.insert(new)?;
            tried.insert(name, k)?;
            Ok(chosen)
        }
    }
}

// Returns the set of the names.
fn set_of(alloc: Global, names: &[&str]) -> Result<BTreeSet<String>, AllocError>
    ensures has { IfOk result (λ taken. (q : List ℕ) → contains_text taken q ≡ among (texts names.now) q) }
    ensures few { IfOk result (λ taken. btree_set_len taken ≤ length names.now) }
{
    let mut taken = BTreeSet::new(alloc);
    for place in 0..names.len() {
        let name = text_at(names, place);
        taken.insert(String::from_str(alloc, name)?)?;
    }
    Ok(taken)
}

/// Returns the names, where each that repeats an earlier one gets the least number that makes it
/// different from all others.
pub(crate) fn renamed(alloc: Global, names: &[&str]) -> Result<Items<Option<Name>>, NameFault>
    ensures renamed { IfOk result (λ news. news ≡ map Some (new_texts (texts names.now))) }
    ensures no_memory { IfErr result (λ e. IsConflictOf e None) }
{
    let mut taken = set_of(alloc, names)?;
    let mut tried = IndexMap::new(alloc);
    let mut news = Items::new(alloc);
    for place in 0..names.len() {
        let name = text_at(names, place);
        news.keep(Some(rename_one(alloc, &mut taken, &mut tried, name)?))?;
    }
    Ok(news)
}
