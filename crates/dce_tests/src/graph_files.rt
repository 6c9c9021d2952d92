// Graph files: what is read, and why a file is refused.

ghost use Rattle.std.specs.Prelude.{◌<◌, ◌^◌, length, IfOk};

use dce_graph::{Graph, GraphFault, ImportPair, read_graph};
use std::alloc::{AllocError, Global};
use std::test::Fail;

// A file, and what is told where it is refused.
type Row = (&'static [u8], &'static str);

// Files that are refused, each with what is told.
const REFUSED: &[Row] = &[
    (b"{", "text"),
    (b"", "text"),
    (b"[] []", "text"),
    (b"\xEF\xBB\xBF[]", "text"),
    (b"[{\"name\":\"\xFF\"}]", "text"),
    // a lone surrogate and numbers out of range, under keys that are ignored
    (b"[{\"name\":\"a\",\"x\":\"\\ud800\"}]", "text"),
    (b"[{\"name\":\"a\",\"x\":1e999}]", "text"),
    // no array
    (b"{\"name\":\"a\"}", "shape 0"),
    (b"null", "shape 0"),
    (b"[{\"name\":1}]", "shape 0"),
    (b"[{\"name\":\"a\"},7]", "shape 1"),
    (b"[{\"root\":true}]", "shape 0"),
    (b"[{\"name\":\"a\",\"root\":null}]", "shape 0"),
    (b"[{\"name\":\"a\",\"reaches\":null}]", "shape 0"),
    (b"[{\"name\":\"a\",\"reaches\":[\"a\",1]}]", "shape 0"),
    (b"[{\"name\":\"a\",\"export\":null}]", "shape 0"),
    (b"[{\"name\":\"a\",\"import\":null}]", "shape 0"),
    (b"[{\"name\":\"a\",\"import\":[\"m\"]}]", "shape 0"),
    (
        b"[{\"name\":\"a\",\"import\":[\"m\",\"b\",\"c\"]}]",
        "shape 0",
    ),
    (
        b"[{\"name\":\"a\",\"export\":\"e\",\"import\":[\"m\",\"b\"]}]",
        "shape 0",
    ),
    // the last of a key that is given twice counts
    (b"[{\"name\":\"a\",\"root\":true,\"root\":1}]", "shape 0"),
    (
        b"[{\"name\":\"b\",\"name\":\"a\"},{\"name\":\"a\"}]",
        "twice a",
    ),
    (b"[{\"name\":\"a\"},{\"name\":\"a\"}]", "twice a"),
    (b"[{\"name\":\"a\",\"reaches\":[\"b\"]}]", "unknown b"),
    // in their order
    (
        b"[{\"name\":\"a\",\"reaches\":[\"b\"]},{\"name\":\"a\"}]",
        "twice a",
    ),
    (b"[{\"name\":\"a\"},{\"name\":\"a\"},{}]", "shape 2"),
    (
        b"[{\"name\":\"a\",\"reaches\":[\"a\",\"d\"]},{\"name\":\"b\",\"reaches\":[\"c\"]}]",
        "unknown d",
    ),
    (
        b"[{\"name\":\"a\"},{\"name\":\"b\"},{\"name\":\"b\"},{\"name\":\"a\"}]",
        "twice b",
    ),
    (b"[{\"name\":\"a\"},7,{}]", "shape 1"),
    (
        b"[{\"name\":\"a\",\"reaches\":[\"a\",\"c\",\"b\"]}]",
        "unknown c",
    ),
];

fn told(alloc: Global, fault: &GraphFault) -> Result<String, Fail> {
    match fault {
        GraphFault::GraphText => Ok(String::from_str(alloc, "text")?),
        GraphFault::GraphShape { entry } => Ok(format!(in alloc; "shape {entry}")?),
        GraphFault::NodeTwice { name } => Ok(format!(in alloc; "twice {}", name.as_str())?),
        GraphFault::UnknownNode { name } => Ok(format!(in alloc; "unknown {}", name.as_str())?),
        GraphFault::NoMemory => Err(Fail::new("no memory")),
    }
}

pub(crate) fn graph_of(alloc: Global, text: &[u8]) -> Result<Graph, Fail>
    ensures { IfOk result (λ graph. length graph.nodes < 2 ^ 32) }
{
    if text.len() >= 0x1_0000_0000 {
        return Err(Fail::new("too long"));
    }
    match read_graph(alloc, text) {
        Ok(graph) => Ok(graph),
        Err(_fault) => Err(Fail::new("refused")),
    }
}

// Whether this is told of a fault.
fn is_told(alloc: Global, fault: &GraphFault, expected: &str) -> Result<bool, Fail> {
    let told = told(alloc, fault)?;
    Ok(told.as_str() == expected)
}

// Whether a file is refused, and this is told.
fn is_refused(alloc: Global, text: &[u8], expected: &str) -> Result<bool, Fail> {
    if text.len() >= 0x1_0000_0000 {
        return Err(Fail::new("too long"));
    }
    match read_graph(alloc, text) {
        Ok(_graph) => Ok(false),
        Err(fault) => is_told(alloc, &fault, expected),
    }
}

// The place of the first file that is read, or of which something else is told, if there is one.
fn first_not_refused(alloc: Global, files: &[Row]) -> Result<Option<usize>, Fail> {
    for (place, (text, expected)) in files.iter().enumerate() {
        if !is_refused(alloc, text, expected)? {
            return Ok(Some(place));
        }
    }
    Ok(None)
}

#[test]
fn files_are_refused_by_the_first_rule_that_they_break(rt: HostRuntime) -> Result<(), Fail> {
    assert_eq!(rt; first_not_refused(rt.alloc(), REFUSED)?, None);
    Ok(())
}

fn add_times(text: &mut Vec<u8>, count: usize, byte: u8) -> Result<(), AllocError> {
    for _ in 0..count {
        text.push(byte)?;
    }
    Ok(())
}

// An array in arrays, so many deep, under a key that is ignored.
fn nested(alloc: Global, depth: usize) -> Result<Vec<u8>, AllocError> {
    let mut text = Vec::from_slice(alloc, b"[{\"name\":\"a\",\"x\":")?;
    add_times(&mut text, depth, b'[')?;
    add_times(&mut text, depth, b']')?;
    text.extend_from_slice(b"}]")?;
    Ok(text)
}

// How many nodes a graph with this array has.
fn nested_count(alloc: Global, depth: usize) -> Result<usize, Fail> {
    let text = nested(alloc, depth)?;
    let graph = graph_of(alloc, text.as_slice())?;
    Ok(graph.nodes.len())
}

// Whether a graph with this array is refused as no text.
fn nested_is_refused(alloc: Global, depth: usize) -> Result<bool, Fail> {
    let text = nested(alloc, depth)?;
    is_refused(alloc, text.as_slice(), "text")
}

#[test]
fn nesting_of_127_is_read_and_of_128_is_not(rt: HostRuntime) -> Result<(), Fail> {
    assert_eq!(rt; nested_count(rt.alloc(), 125)?, 1);
    assert!(rt; nested_is_refused(rt.alloc(), 126)?);
    Ok(())
}

const ENTRIES: &[u8] = b"\
    [{\"name\":\"a\",\"root\":true,\"reaches\":[\"c\",\"a\"],\"export\":\"e\",\"x\":[0e999,-0,\
    18446744073709551616]},{\"name\":\"b\",\"import\":[\"m\",\"f\"],\"root\":false},\
    {\"name\":\"c\",\"name\":\"c\"}]";

// Whether node 0 is a root named a that reaches nodes 2 and 0 and denotes an export and no import.
fn has_first(graph: &Graph) -> bool {
    match graph.nodes.get(0) {
        Some(node) => {
            node.name.as_str() == "a"
                && node.root
                && node.reaches.as_slice() == [2, 0].as_slice()
                && node.export.is_some()
                && node.import.is_none()
        }
        None => false,
    }
}

// Whether an import is the f of module m.
fn is_f_of_m(import: &Option<ImportPair>) -> bool {
    match import {
        Some(pair) => pair.module.as_str() == "m" && pair.base.as_str() == "f",
        None => false,
    }
}

// Whether node 1 is no root, and denotes this import.
fn has_second(graph: &Graph) -> bool {
    match graph.nodes.get(1) {
        Some(node) => !node.root && is_f_of_m(&node.import),
        None => false,
    }
}

// Names the first thing of a graph that is not as that file has it, or nothing.
fn unlike_entries(graph: &Graph) -> &'static str {
    if graph.nodes.len() != 3 {
        return "how many nodes there are";
    }
    if !has_first(graph) {
        return "the first node";
    }
    if !has_second(graph) {
        return "the second node";
    }
    ""
}

fn entries_unlike(alloc: Global) -> Result<&'static str, Fail> {
    let graph = graph_of(alloc, ENTRIES)?;
    Ok(unlike_entries(&graph))
}

#[test]
fn a_graph_has_a_node_for_each_entry(rt: HostRuntime) -> Result<(), Fail> {
    assert_eq!(rt; entries_unlike(rt.alloc())?, "");
    Ok(())
}
