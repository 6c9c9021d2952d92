// What a graph file says.

use wasm_bytes::{Items, Name};

/// An import as a graph names it: its module, and its field as `base` (WebAssembly Core 2.0,
/// section 2.5.11).
#[derive(Drop)]
pub struct ImportPair {
    pub module: Name,
    pub base: Name,
}

/// Something outside the module, or an export or import of the module as seen from outside.
#[derive(Drop)]
pub struct Node {
    pub name: Name,
    /// Whether it is always used.
    pub root: bool,
    /// The places in the graph of the nodes that it reaches.
    pub reaches: Items<u32>,
    /// The export of the module that it denotes.
    pub export: Option<Name>,
    /// The import of the module that it denotes.
    pub import: Option<ImportPair>,
}

/// The nodes, in the order of the graph file.
#[derive(Drop)]
pub struct Graph {
    pub nodes: Items<Node>,
}
