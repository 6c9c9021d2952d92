// Types, each once, in order of first appearance.

ghost use Rattle.std.specs.Prelude.{◌≡◌, ℕ, List, Some, cond, ◌<◌, ◌^◌, [], ◌+◌, length, string_bytes, IfOk, OnOk, unwrap_or};
ghost use Rattle.std.specs.List.{flat_map};
ghost use Rattle.std.specs.BTreeMap.{get_by_text};
ghost use Rattle.std.specs.Str.{bytes_eq};
ghost use Rattle.wasm_meaning.specs.Linking.{first_place};
ghost use Rattle.wasm_tree.specs.SameTypes.{same_func_type};
ghost use Rattle.merge_spec.specs.Parts.{named_modules};
ghost use Rattle.merge_spec.specs.Merged.{with_type, with_types, merged_types};
ghost use Rattle.merge_join.specs.Texts.{text_of_type};
ghost use Rattle.merge_join.specs.Types.{ArePlaces};

use crate::linked::module_of;
use crate::texts::type_text;
use merge_spec::Part;
use std::alloc::Global;
use std::collections::BTreeMap;
use wasm_bytes::{Items, NoMemory};
use wasm_tree::FuncType;

/// Distinct types, and the place of each, found by its text.
#[derive(Drop)]
pub(crate) struct Types {
    pub list: Items<FuncType>,
    places: BTreeMap<String, u32>,
    ghost known: { ArePlaces list places },
}

impl Types {
    /// Returns the place of a type, or 0 if it is not there.
    pub(crate) fn type_place(&self, alloc: Global, ty: &FuncType) -> Result<u32, NoMemory>
        ensures { IfOk result (λ place. place ≡ unwrap_or (first_place (same_func_type ty.now) self.now.list 0) 0) }
    {
        let text = type_text(alloc, ty)?;
        Ok(self.places.get(text.as_str()).copied().unwrap_or(0))
    }

    pub(crate) fn into_list(self) -> Items<FuncType>
        ensures { result ≡ self.list }
    {
        self.list
    }
}

// Adds a type if it is not there yet.
fn add_type(
    alloc: Global,
    list: &mut Items<FuncType>,
    places: &mut BTreeMap<String, u32>,
    ty: &FuncType,
) -> Result<(), NoMemory>
    requires few { length list.old < 2 ^ 32 }
    requires known { ArePlaces list.old places.old }
    ensures list { OnOk result (list.new ≡ with_type list.old ty.now) }
    ensures known { OnOk result (ArePlaces list.new places.new) }
{
    let text = type_text(alloc, ty)?;
    if places.contains_key(text.as_str()) {
        return Ok(());
    }
    let place = list.len() as u32;
    list.keep(ty.copy(alloc)?)?;
    put(places, text, place)
}

fn put(places: &mut BTreeMap<String, u32>, text: String, place: u32) -> Result<(), NoMemory>
    ensures { OnOk result ((q : List ℕ) → get_by_text places.new q ≡ cond (bytes_eq (string_bytes text) q) (Some place) (get_by_text places.old q)) }
{
    places.insert(text, place)?;
    Ok(())
}

// Adds each type that is not there yet.
fn add_types(
    alloc: Global,
    list: &mut Items<FuncType>,
    places: &mut BTreeMap<String, u32>,
    types: &[FuncType],
) -> Result<(), NoMemory>
    requires few { length list.old + length types.now < 2 ^ 32 }
    requires known { ArePlaces list.old places.old }
    ensures list { OnOk result (list.new ≡ with_types list.old types.now) }
    ensures known { OnOk result (ArePlaces list.new places.new) }
{
    for ty in types {
        add_type(alloc, list, places, ty)?;
    }
    Ok(())
}

/// Returns the distinct types of the parts, in order of first appearance.
pub(crate) fn all_types(alloc: Global, parts: &[Part]) -> Result<Types, NoMemory>
    requires { length (flat_map (λ p. p.«module».types) (named_modules parts.now)) < 2 ^ 32 }
    ensures { IfOk result (λ types. types.list ≡ merged_types (named_modules parts.now)) }
{
    let mut list = Items::new(alloc);
    let mut places = BTreeMap::new(alloc);
    for part in 0..parts.len() {
        let types = module_of(parts, part).types.as_slice();
        add_types(alloc, &mut list, &mut places, types)?;
    }
    Ok(Types { list, places })
}
