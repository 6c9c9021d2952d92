ghost use Rattle.std.specs.Prelude.{◌≡◌, ◌↔◌, ◌<◌, ◌^◌, true, length, IfOk};
ghost use Rattle.dce_graph.specs.declared.point.Point.{Point as AnyPoint};
ghost use Rattle.dce_graph.specs.Marks.{flags, marked};
ghost use Rattle.dce_graph.specs.Reach.{IsReached, point_count};

use crate::graph::Graph;
use crate::lookups::walk;
use crate::marks::{Reached, blank_flags};
use crate::search::{Search, next};
use std::alloc::Global;
use wasm_bytes::{Items, NoMemory};
use wasm_valid::Valid;

/// Marks exactly those nodes of the graph, and those exports, imports, functions and globals of the
/// module, that a path from a root meets. The graph must have fewer than 2^32 nodes. The only error
/// is `NoMemory`.
///
/// The roots are the root nodes of the graph, the start function, the imports of tables and
/// memories, and the functions and globals that the offsets and items of active and passive
/// segments name. Edges lead from a node to each node that it reaches and to the export that it
/// denotes; from an export to its function or global; from a defined function to each function and
/// global that its body names; from a defined global to what its initialiser names; from an
/// imported function or global to its import; and from an import to every node that denotes its
/// module and field. If the module does not have a node's export or import, the node denotes
/// nothing (WebAssembly Core 2.0, sections 2.5 and 2.5.1).
pub fn reached(alloc: Global, graph: &Graph, input: &Valid) -> Result<Reached, NoMemory>
    requires { length graph.now.nodes < 2 ^ 32 }
    ensures exactly { IfOk result (λ marks. (p : AnyPoint) → (marked marks p ≡ true) ↔ IsReached graph.now input.now p) }
    ensures one_each { IfOk result (λ marks. (p : AnyPoint) → length (flags marks p) ≡ point_count graph.now input.now p) }
{
    let module = input.module();
    let walk = walk(alloc, graph, module)?;
    let mut search = Search {
        marks: Reached::blank(alloc, graph, module)?,
        stack: Items::new(alloc),
    };
    let mut followed = blank_flags(alloc, graph.nodes.len())?;
    walk.visit_roots(&mut search)?;
    while let Some(point) = next(&mut search) {
        walk.visit_edges(&mut search, &mut followed, point)?;
    }
    Ok(search.marks)
}
