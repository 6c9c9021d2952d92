// The lines that report nodes of a graph that are not reached.
ghost use Rattle.std.specs.Prelude.{◌≡◌, length, IfOk};
ghost use Rattle.tools_cli_spec.specs.Unused.{unused_lines};
ghost use Rattle.tools_cli_spec.specs.Unmarked.{unmarked_names};
ghost use Rattle.tools_cli_decide.specs.Command.{names_of};

use dce_graph::Node;
use std::alloc::Global;
use std::collections::BTreeSet;
use wasm_bytes::NoMemory;

// The names of the nodes without a mark, each once, in ascending order of their bytes.
fn unmarked_names<'a>(
    alloc: Global,
    nodes: &'a [Node],
    marks: &[bool],
) -> Result<BTreeSet<&'a str>, NoMemory>
    requires { length marks.now ≡ length nodes.now }
    ensures { IfOk result (λ names. names_of names.keys ≡ unmarked_names nodes.now marks.now) }
{
    let mut names = BTreeSet::new(alloc);
    for place in 0..nodes.len() {
        if !marks[place] {
            names.insert(nodes[place].name.as_str())?;
        }
    }
    Ok(names)
}

/// Returns a line for each name of a node without a mark, in ascending order of the bytes of the
/// names.
pub(crate) fn unused_lines(
    alloc: Global,
    nodes: &[Node],
    marks: &[bool],
) -> Result<Vec<u8>, NoMemory>
    requires { length marks.now ≡ length nodes.now }
    ensures { IfOk result (λ lines. lines.items ≡ unused_lines (unmarked_names nodes.now marks.now)) }
{
    let names = unmarked_names(alloc, nodes, marks)?;
    let mut lines = Vec::new(alloc);
    for name in names {
        lines.extend_from_slice("unused: ".as_bytes())?;
        lines.extend_from_slice(name.as_bytes())?;
        lines.push(b'\n')?;
    }
    Ok(lines)
}
