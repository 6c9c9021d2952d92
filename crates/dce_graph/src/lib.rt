//! Reads the graph of what is outside a module, and finds what of the module and of the graph is
//! reached from its roots.
//!
//! Files:
//!
//! - `code`: The functions and globals that code names.
//! - `entry`: One entry of a graph file.
//! - `fault`: Why a graph file is refused, in the order in which the faults are tested.
//! - `graph`: What a graph file says.
//! - `laws`: Laws about what is reached.
//! - `lookups`: The look-up tables of a walk.
//! - `marks`: Marks on what is reached.
//! - `names`: The places of names, and the nodes of entries.
//! - `point`: / A point that may be reached: a node of the graph, an export or import of the
//!   module by its / place, or a function or global by its index, also an imported one.
//! - `reach`: The marks on what is reached from the roots.
//! - `reading`: The graph that a graph file holds.
//! - `search`: The points that were visited, and those of them whose edges were not followed yet.
//! - `walk`: Visits the roots of a graph and a module, and the points to which edges lead.
//! - `specs/Entries`: The meaning of the program's entries, which are parts of a JSON value.
//! - `specs/GraphFile`: What a graph file says: a JSON array of objects, each of which is a node.
//! - `specs/Laws`: When imports are reached, and the marks on exactly what is reached.
//! - `specs/Marks`: Marks on points.
//! - `specs/Reach`: What is reached: what a path meets that begins at a root and goes along edges,
//!   over the nodes of a graph and the exports, imports, functions and globals of a module.
//! - `specs/Walks`: What is looked up in a graph and a module during a search.
#![tactic(auto)]

mod code;
mod entry;
mod fault;
mod graph;
mod laws;
mod lookups;
mod marks;
mod names;
mod point;
mod reach;
mod reading;
mod search;
mod walk;

pub use fault::GraphFault;
pub use graph::{Graph, ImportPair, Node};
pub use laws::{exact_marks_exist, imports_are_reached_with_their_entries};
pub use marks::Reached;
pub use point::Point;
pub use reach::reached;
pub use reading::read_graph;
