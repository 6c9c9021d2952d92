// The look-up tables of a walk.

ghost use Rattle.std.specs.Prelude.{◌≡◌, ◌<◌, ◌^◌, ℕ, List, Some, cond, length, IfOk, OnOk, option_and_then};
ghost use Rattle.std.specs.Str.{bytes_eq};
ghost use Rattle.wasm_tree.specs.declared.space.Space.TheVariants.{Functions, Globals};
ghost use Rattle.dce_graph.specs.Entries.{place_in_map};
ghost use Rattle.dce_graph.specs.GraphFile.{Text};
ghost use Rattle.dce_graph.specs.Reach.{export_place, imports_into, pair_is};
ghost use Rattle.dce_graph.specs.Walks.{AreLookups, AreNodeChains, found_pair};

use crate::graph::{Graph, ImportPair, Node};
use crate::walk::Walk;
use std::alloc::Global;
use std::collections::BTreeMap;
use wasm_bytes::NoMemory;
use wasm_tree::{Export, Import, ImportDesc, Module};

// Returns the place of each export name. The loop runs backwards, so that the first export with a
// name counts.
fn export_places<'a>(
    alloc: Global,
    exports: &'a [Export],
) -> Result<BTreeMap<&'a str, u32>, NoMemory>
    requires { length exports.now < 2 ^ 32 }
    ensures { IfOk result (λ places. (q : List ℕ) → place_in_map places q ≡ export_place exports.now q) }
{
    let mut places = BTreeMap::new(alloc);
    for place in (0..exports.len()).rev() {
        places.insert(exports[place].name.as_str(), place as u32)?;
    }
    Ok(places)
}

// Notes the module and field that a node denotes, if any, and returns the last node before it that
// denotes the same.
fn note<'a>(
    last: &mut BTreeMap<(&'a str, &'a str), u32>,
    import: &'a Option<ImportPair>,
    place: u32,
) -> Result<Option<u32>, NoMemory>
    ensures before { IfOk result (λ before. before ≡ option_and_then (λ pair. found_pair last.old pair.«module» pair.base) import.now) }
    ensures noted { OnOk result ((a b : List ℕ) → found_pair last.new a b ≡ cond (pair_is a b import.now) (Some place) (found_pair last.old a b)) }
{
    match import {
        Some(pair) => Ok(last.insert((pair.module.as_str(), pair.base.as_str()), place)?),
        None => Ok(None),
    }
}

// For each module and field the last node that denotes them, and for each node the one before it
// that denotes the same.
#[derive(Drop)]
struct NodeChains<'a> {
    last: BTreeMap<(&'a str, &'a str), u32>,
    before: Vec<Option<u32>>,
}

fn node_chains<'a>(alloc: Global, nodes: &'a [Node]) -> Result<NodeChains<'a>, NoMemory>
    requires { length nodes.now < 2 ^ 32 }
    ensures { IfOk result (λ s. AreNodeChains nodes.now s.last s.before.items) }
{
    let mut last = BTreeMap::new(alloc);
    let mut before = Vec::new(alloc);
    for place in 0..nodes.len() {
        let one = note(&mut last, &nodes[place].import, place as u32)?;
        before.push(one)?;
    }
    Ok(NodeChains { last, before })
}

// The places of the imports of functions and of globals.
#[derive(Drop)]
struct Imported {
    funcs: Vec<u32>,
    globals: Vec<u32>,
}

fn imported_places(alloc: Global, imports: &[Import]) -> Result<Imported, NoMemory>
    requires { length imports.now < 2 ^ 32 }
    ensures funcs { IfOk result (λ i. i.funcs.items ≡ imports_into Functions imports.now) }
    ensures globals { IfOk result (λ i. i.globals.items ≡ imports_into Globals imports.now) }
{
    let mut funcs = Vec::new(alloc);
    let mut globals = Vec::new(alloc);
    for place in 0..imports.len() {
        match imports[place].desc {
            ImportDesc::Func(_) => funcs.push(place as u32)?,
            ImportDesc::Global(_) => globals.push(place as u32)?,
            ImportDesc::Table(_) | ImportDesc::Memory(_) => {}
        }
    }
    Ok(Imported { funcs, globals })
}

/// Returns the walk over a graph and a module.
pub(crate) fn walk<'a>(
    alloc: Global,
    graph: &'a Graph,
    module: &'a Module,
) -> Result<Walk<'a>, NoMemory>
    requires nodes { length graph.now.nodes < 2 ^ 32 }
    requires imports { length «module».now.imports < 2 ^ 32 }
    requires exports { length «module».now.exports < 2 ^ 32 }
    ensures lookups { IfOk result AreLookups }
    ensures graph { IfOk result (λ w. w.graph.now ≡ graph.now) }
    ensures tree { IfOk result (λ w. w.«module».now ≡ «module».now) }
{
    let exports = export_places(alloc, module.exports.as_slice())?;
    let chains = node_chains(alloc, graph.nodes.as_slice())?;
    let imported = imported_places(alloc, module.imports.as_slice())?;
    Ok(Walk {
        graph,
        module,
        exports,
        last: chains.last,
        before: chains.before,
        funcs: imported.funcs,
        globals: imported.globals,
    })
}
