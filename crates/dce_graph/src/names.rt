// The places of names, and the nodes of entries.

ghost use Rattle.std.specs.Prelude.{◌≡◌, ◌<◌, ◌^◌, List, ℕ, Some, None, cond, length, map, is_some, option_map, IfOk, IfErr, IsOk, OnOk};
ghost use Rattle.std.specs.List.{filter_map};
ghost use Rattle.std.specs.Str.{bytes_eq};
ghost use Rattle.dce_graph.specs.declared.fault.GraphFault.TheVariants.{NodeTwice, UnknownNode};
ghost use Rattle.dce_graph.specs.GraphFile.{IsFault, names_of, place_of_name, first_repeated, first_unknown, reached_names, node_of};
ghost use Rattle.dce_graph.specs.Entries.{entry_now, entries_now, place_in_map, pair_now, texts_in};

use crate::entry::Entry;
use crate::fault::GraphFault;
use crate::graph::{ImportPair, Node};
use serde_json::Value;
use std::alloc::{AllocError, Global};
use std::collections::BTreeMap;
use wasm_bytes::{Items, Name, NoMemory};

// Inserts the place of a name, and returns whether it had one.
fn insert_name<'v>(
    names: &mut BTreeMap<&'v str, u32>,
    name: &'v str,
    place: u32,
) -> Result<bool, AllocError>
    ensures had { IfOk result (λ had. had ≡ is_some (place_in_map names.old name.now)) }
    ensures noted { OnOk result ((q : List ℕ) → place_in_map names.new q ≡ cond (bytes_eq name.now q) (Some place) (place_in_map names.old q)) }
{
    Ok(names.insert(name, place)?.is_some())
}

fn twice(alloc: Global, name: &str) -> GraphFault
    ensures { IsFault result (Some (NodeTwice name.now)) }
{
    match Name::from_text(alloc, name) {
        Ok(name) => GraphFault::NodeTwice { name },
        Err(_) => GraphFault::NoMemory,
    }
}

/// Returns the place of each name, or a fault if a name is repeated.
pub(crate) fn all_names<'v>(
    alloc: Global,
    entries: &[Entry<'v>],
) -> Result<BTreeMap<&'v str, u32>, GraphFault>
    requires few { length entries.now < 2 ^ 32 }
    ensures distinct { IsOk result → first_repeated (names_of (entries_now entries.now)) ≡ None }
    ensures places { IfOk result (λ names. (q : List ℕ) → place_in_map names q ≡ place_of_name (names_of (entries_now entries.now)) q) }
    ensures fault { IfErr result (λ e. IsFault e (option_map NodeTwice (first_repeated (names_of (entries_now entries.now))))) }
{
    let mut names = BTreeMap::new(alloc);
    for place in 0..entries.len() {
        let name = entries[place].name;
        if insert_name(&mut names, name, place as u32)? {
            return Err(twice(alloc, name));
        }
    }
    Ok(names)
}

fn unknown(alloc: Global, name: &str) -> GraphFault
    ensures { IsFault result (Some (UnknownNode name.now)) }
{
    match Name::from_text(alloc, name) {
        Ok(name) => GraphFault::UnknownNode { name },
        Err(_) => GraphFault::NoMemory,
    }
}

// Returns the places of the names that an entry reaches, or a fault if one has none.
fn reached_places(
    alloc: Global,
    names: &BTreeMap<&str, u32>,
    reaches: &[Value],
) -> Result<Items<u32>, GraphFault>
    ensures known { IsOk result → first_unknown (place_in_map names.now) (texts_in reaches.now) ≡ None }
    ensures places { IfOk result (λ places. places ≡ filter_map (place_in_map names.now) (texts_in reaches.now)) }
    ensures fault { IfErr result (λ e. IsFault e (option_map UnknownNode (first_unknown (place_in_map names.now) (texts_in reaches.now)))) }
{
    let mut places = Items::new(alloc);
    for value in reaches {
        if let Some(name) = value.as_str() {
            match names.get(name) {
                Some(place) => places.keep(*place)?,
                None => return Err(unknown(alloc, name)),
            }
        }
    }
    Ok(places)
}

fn owned(alloc: Global, text: Option<&str>) -> Result<Option<Name>, NoMemory>
    ensures { IfOk result (λ name. name ≡ option_map (λ t. t.now) text.entry) }
{
    match text {
        Some(text) => Ok(Some(Name::from_text(alloc, text)?)),
        None => Ok(None),
    }
}

fn owned_pair(alloc: Global, pair: Option<(&str, &str)>) -> Result<Option<ImportPair>, NoMemory>
    ensures { IfOk result (λ owned. owned ≡ option_map pair_now pair.entry) }
{
    match pair {
        Some((module, base)) => Ok(Some(ImportPair {
            module: Name::from_text(alloc, module)?,
            base: Name::from_text(alloc, base)?,
        })),
        None => Ok(None),
    }
}

// Returns the node of an entry.
fn node(alloc: Global, names: &BTreeMap<&str, u32>, entry: &Entry<'_>) -> Result<Node, GraphFault>
    ensures known { IsOk result → first_unknown (place_in_map names.now) (texts_in entry.now.reaches.now) ≡ None }
    ensures node { IfOk result (λ node. node ≡ node_of (place_in_map names.now) (entry_now entry.now)) }
    ensures fault { IfErr result (λ e. IsFault e (option_map UnknownNode (first_unknown (place_in_map names.now) (texts_in entry.now.reaches.now)))) }
{
    let reaches = reached_places(alloc, names, entry.reaches)?;
    Ok(Node {
        name: Name::from_text(alloc, entry.name)?,
        root: entry.root,
        reaches,
        export: owned(alloc, entry.export)?,
        import: owned_pair(alloc, entry.import)?,
    })
}

/// Returns the node of each entry, or a fault if a name that is reached has no place.
pub(crate) fn all_nodes(
    alloc: Global,
    names: &BTreeMap<&str, u32>,
    entries: &[Entry<'_>],
) -> Result<Items<Node>, GraphFault>
    ensures known { IsOk result → first_unknown (place_in_map names.now) (reached_names (entries_now entries.now)) ≡ None }
    ensures nodes { IfOk result (λ nodes. nodes ≡ map (node_of (place_in_map names.now)) (entries_now entries.now)) }
    ensures fault { IfErr result (λ e. IsFault e (option_map UnknownNode (first_unknown (place_in_map names.now) (reached_names (entries_now entries.now))))) }
{
    let mut nodes = Items::new(alloc);
    for entry in entries {
        match node(alloc, names, entry) {
            Ok(node) => nodes.keep(node)?,
            Err(fault) => return Err(fault),
        }
    }
    Ok(nodes)
}
