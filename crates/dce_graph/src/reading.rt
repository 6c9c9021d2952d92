ghost use Rattle.std.specs.Prelude.{◌≡◌, ◌<◌, ◌^◌, ◌⊎◌, Ok, None, length, map, option_map, IfOk, IfErr, IsOk};
ghost use Rattle.std.specs.List.{filter_map};
ghost use Rattle.serde_json.specs.Errors.{IsMemory};
ghost use Rattle.serde_json.specs.View.{view};
ghost use Rattle.dce_graph.specs.declared.fault.GraphFault.TheVariants.{GraphText, GraphShape, NoMemory as OutOfMemory};
ghost use Rattle.dce_graph.specs.GraphFile.{IsFault, entry_of, misshapen, graph_of_values as graph_of_data, graph_result, fault_of};
ghost use Rattle.dce_graph.specs.Entries.{entries_now};

use crate::entry::{Entry, read_entry};
use crate::fault::GraphFault;
use crate::graph::Graph;
use crate::names::{all_names, all_nodes};
use serde_json::{Error, Value};
use std::alloc::Global;

// Returns the entry of each value, or a fault for the first that is none.
fn all_entries(alloc: Global, values: &[Value]) -> Result<Vec<Entry<'_>>, GraphFault>
    requires few { length values.now < 2 ^ 32 }
    ensures shaped { IsOk result → misshapen (map view values.now) ≡ None }
    ensures entries { IfOk result (λ entries. entries_now entries.items ≡ filter_map entry_of (map view values.now)) }
    ensures one_each { IfOk result (λ entries. length entries.items ≡ length values.now) }
    ensures fault { IfErr result (λ e. IsFault e (option_map GraphShape (misshapen (map view values.now)))) }
{
    let mut entries = Vec::new(alloc);
    for place in 0..values.len() {
        match read_entry(&values[place]) {
            Some(entry) => entries.push(entry)?,
            None => return Err(GraphFault::GraphShape {
                entry: place as u32,
            }),
        }
    }
    Ok(entries)
}

// Returns the graph of the values of an array, or why there is none.
fn graph_of_values(alloc: Global, values: &[Value]) -> Result<Graph, GraphFault>
    requires few { length values.now < 2 ^ 32 }
    ensures ok { IfOk result (λ graph. graph_of_data (map view values.now) ≡ Ok graph) }
    ensures few { IfOk result (λ graph. length graph.nodes < 2 ^ 32) }
    ensures fault { IfErr result (λ e. IsFault e (fault_of (graph_of_data (map view values.now)))) }
{
    let entries = all_entries(alloc, values)?;
    let names = all_names(alloc, entries.as_slice())?;
    let nodes = match all_nodes(alloc, &names, entries.as_slice()) {
        Ok(nodes) => nodes,
        Err(fault) => return Err(fault),
    };
    Ok(Graph { nodes })
}

// Returns the fault for an error in reading JSON.
fn text_fault(error: &Error) -> GraphFault
    ensures memory { (result ≡ OutOfMemory) ⊎ ((result ≡ GraphText) × ¬ IsMemory error.now) }
{
    if error.is_memory() {
        GraphFault::NoMemory
    } else {
        GraphFault::GraphText
    }
}

/// Reads a graph file: a JSON array of objects.
///
/// `name` is a string and is required; `reaches` is an array of strings, `root` a boolean, `export`
/// a string, `import` an array of two strings. Each but `name` may be absent, and an entry does not
/// have both `export` and `import`. Other keys are ignored, `root` false means the same as no
/// `root`, and of a key that is given twice the last counts.
///
/// Unless memory runs out, the call fails exactly if one of these faults applies, and reports the
/// first that does. `GraphText`: the bytes are not UTF-8, not JSON, or nested more than 127 deep.
/// `GraphShape`: the value is not an array, or an entry breaks a rule above; the fault has the
/// first such entry. `NodeTwice`: an entry has the name of an earlier one; the fault has the first
/// such name. `UnknownNode`: an entry reaches a name that no entry has; the fault has the first
/// such name of the first such entry. `NoMemory` means that memory ran out and says nothing about
/// the file.
pub fn read_graph(alloc: Global, text: &[u8]) -> Result<Graph, GraphFault>
    requires { length text.now < 2 ^ 32 }
    ensures graph { IfOk result (λ graph. graph_result text.now ≡ Ok graph) }
    ensures few { IfOk result (λ graph. length graph.nodes < 2 ^ 32) }
    ensures fault { IfErr result (λ e. IsFault e (fault_of (graph_result text.now))) }
{
    let value = match Value::from_slice(alloc, text) {
        Ok(value) => value,
        Err(error) => return Err(text_fault(&error)),
    };
    match value.as_array() {
        Some(values) => graph_of_values(alloc, values.as_slice()),
        None => Err(GraphFault::GraphShape { entry: 0 }),
    }
}
