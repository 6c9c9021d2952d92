// Modes that keep the first export of each name: `Refuse` and `Skip`.

ghost use Rattle.std.specs.Prelude.{◌≡◌, ℕ, List, [], Some, None, Bool, true, cond, map, is_some, IfOk, IfErr, OnOk, IsOk};
ghost use Rattle.std.specs.HashMap.{get_by};
ghost use Rattle.std.specs.Str.{bytes_eq};
ghost use Rattle.merge_names.specs.Names.{kept_behind, first_repeated};
ghost use Rattle.merge_names.specs.Given.{texts, IsConflictOf};

use crate::fault::NameFault;
use crate::given::text_at;
use indexmap::IndexMap;
use std::alloc::{AllocError, Global};
use wasm_bytes::{Items, Name, NoMemory};

// Notes a name, and returns whether it was noted before.
fn comes_again<'a>(came: &mut IndexMap<&'a str, ()>, name: &'a str) -> Result<bool, AllocError>
    ensures again { IfOk result (λ again. again ≡ is_some (get_by (λ k. bytes_eq name.now k.now) came.old)) }
    ensures noted { OnOk result ((q : List ℕ) → is_some (get_by (λ k. bytes_eq q k.now) came.new) ≡ cond (bytes_eq name.now q) true (is_some (get_by (λ k. bytes_eq q k.now) came.old))) }
{
    Ok(came.insert(name, ())?.is_some())
}

/// Returns all names, or the place of the first that repeats an earlier one.
pub(crate) fn all_of(alloc: Global, names: &[&str]) -> Result<Items<Option<Name>>, NameFault>
    ensures all { IfOk result (λ news. news ≡ map Some (texts names.now)) }
    ensures distinct { IsOk result → first_repeated (texts names.now) ≡ None }
    ensures conflict { IfErr result (λ e. IsConflictOf e (first_repeated (texts names.now))) }
{
    let mut came = IndexMap::new(alloc);
    let mut all = Items::new(alloc);
    for place in 0..names.len() {
        let name = text_at(names, place);
        if comes_again(&mut came, name)? {
            return Err(NameFault::Conflict { place });
        }
        all.keep(Some(Name::from_text(alloc, name)?))?;
    }
    Ok(all)
}

/// Returns the names, with `None` in place of each that repeats an earlier one.
pub(crate) fn kept(alloc: Global, names: &[&str]) -> Result<Items<Option<Name>>, NameFault>
    ensures kept { IfOk result (λ news. news ≡ kept_behind [] (texts names.now)) }
    ensures no_memory { IfErr result (λ e. IsConflictOf e None) }
{
    let mut came = IndexMap::new(alloc);
    let mut all = Items::new(alloc);
    for place in 0..names.len() {
        let name = text_at(names, place);
        let again = comes_again(&mut came, name)?;
        all.keep(unless(alloc, again, name)?)?;
    }
    Ok(all)
}

// Returns the name, or `None` if it comes again.
fn unless(alloc: Global, again: bool, name: &str) -> Result<Option<Name>, NoMemory>
    ensures { IfOk result (λ new. new ≡ cond again None (Some name.now)) }
{
    if again {
        return Ok(None);
    }
    Ok(Some(Name::from_text(alloc, name)?))
}
