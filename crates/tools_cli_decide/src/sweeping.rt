// What `metadce` decides.
ghost use Rattle.std.specs.Prelude.{◌≡◌, ◌≤◌, ◌<◌, ◌^◌, List, ℕ, length, Ok, Err, IfOk, IfErr};
ghost use Rattle.base_lists.specs.Every.{Every};
ghost use Rattle.wasm_valid.specs.Validity.{IsValid};
ghost use Rattle.dce_spec.specs.Closed.{AreClosed};
ghost use Rattle.dce_graph.specs.GraphFile.{graph_result};
ghost use Rattle.dce_graph.specs.Marks.{AreExact};
ghost use Rattle.dce_spec.specs.Reached.{marks_of};
ghost use Rattle.dce_sweep.specs.Sweeps.{Sweeps};
ghost use Rattle.tools_cli_spec.specs.CommandLine.{Metadce};
ghost use Rattle.tools_cli_decide.specs.Command.{metadce_value, decision_value, input_texts, input_entries};
ghost use Rattle.tools_cli_spec.specs.Job.{Decides, SweepsByGraph, Refuses, GivesMarks, most_input};
ghost use Rattle.tools_cli_decide.specs.Causes.{StopsWith, GraphFails, SweepFails, total};

use crate::input::Input;
use crate::metadce::MetadceTask;
use crate::output::{Decision, one_output};
use crate::refusal::{refuse_graph, refuse_sweep};
use crate::stop::Stop;
use crate::unused::unused_lines;
use dce_graph::{Graph, Reached, reached, read_graph};
use dce_proof::reached_marks_are_closed;
use dce_sweep::sweep;
use std::alloc::Global;
use wasm_bytes::NoMemory;
use wasm_valid::Valid;

// Reads the graph of a graph file; refuses a fault.
fn graph_in<'a>(alloc: Global, file: &'a str, text: &[u8]) -> Result<Graph, Stop<'a>>
    requires { length text.now < 2 ^ 32 }
    ensures graph { IfOk result (λ graph. graph_result text.now ≡ Ok graph) }
    ensures few { IfOk result (λ graph. length graph.nodes < 2 ^ 32) }
    ensures stops { IfErr result (StopsWith (GraphFails file.entry.now text.now)) }
{
    match read_graph(alloc, text) {
        Ok(graph) => Ok(graph),
        Err(fault) => Err(Stop::Refused(refuse_graph(alloc, file, fault)?)),
    }
}

// Marks exactly what is reached of the module; these marks are closed.
fn marks_in(alloc: Global, graph: &Graph, module: &Valid) -> Result<Reached, NoMemory>
    requires { length graph.now.nodes < 2 ^ 32 }
    ensures exact { IfOk result (AreExact graph.now «module».now) }
    ensures closed { IfOk result (λ marks. AreClosed (marks_of marks) «module».now) }
{
    reached_marks_are_closed();
    let _valid = module.module();
    reached(alloc, graph, module)
}

// Removes from the module what is not marked; refuses a fault.
fn sweep_by<'a>(alloc: Global, module: Valid, marks: &Reached) -> Result<Valid, Stop<'a>>
    requires { AreClosed (marks_of marks.now) «module» }
    ensures swept { IfOk result (λ left. Sweeps (marks_of marks.now) «module» (Ok left)) }
    ensures stops { IfErr result (StopsWith (SweepFails (marks_of marks.now) «module»)) }
{
    match sweep(alloc, module, marks) {
        Ok(left) => Ok(left),
        Err(fault) => Err(Stop::Refused(refuse_sweep(fault)?)),
    }
}

// Decides for one module and a graph. The decision is the same for every text that encodes this
// graph.
fn sweep_by_graph<'a>(
    alloc: Global,
    metadce: &MetadceTask<'a>,
    module: Valid,
    graph: &Graph,
) -> Result<Decision, Stop<'a>>
    requires { length graph.now.nodes < 2 ^ 32 }
    ensures decided { IfOk result (λ decision. (text : List ℕ) → graph_result text ≡ Ok graph.now → SweepsByGraph (metadce_value metadce.now) «module» text (decision_value decision)) }
    ensures stops { IfErr result (StopsWith (λ says. (text : List ℕ) → graph_result text ≡ Ok graph.now → SweepsByGraph (metadce_value metadce.now) «module» text (Refuses says))) }
{
    let marks = marks_in(alloc, graph, &module)?;
    let lines = unused_lines(alloc, graph.nodes.as_slice(), marks.nodes.as_slice())?;
    let left = sweep_by(alloc, module, &marks)?;
    Ok(one_output(alloc, metadce.output, left, lines)?)
}

// Decides for one module and the text of its graph file.
fn sweep_one<'a>(
    alloc: Global,
    metadce: &MetadceTask<'a>,
    module: Valid,
    text: &[u8],
) -> Result<Decision, Stop<'a>>
    requires { length text.now < 2 ^ 32 }
    ensures decided { IfOk result (λ decision. SweepsByGraph (metadce_value metadce.now) «module» text.now (decision_value decision)) }
    ensures stops { IfErr result (StopsWith (λ says. SweepsByGraph (metadce_value metadce.now) «module» text.now (Refuses says))) }
{
    let graph = graph_in(alloc, metadce.graph_file, text)?;
    sweep_by_graph(alloc, metadce, module, &graph)
}

/// Decides a `metadce` task, which has one module and, as its second file, the graph file.
pub fn decide_metadce<'a>(
    alloc: Global,
    metadce: &MetadceTask<'a>,
    modules: Vec<Valid>,
    inputs: &[Input<'a>],
) -> Result<Decision, Stop<'a>>
    requires one { length modules.items ≡ 1 }
    requires two { length inputs.now ≡ 2 }
    requires room { total (input_entries inputs.now) ≤ most_input }
    ensures decided { IfOk result (λ decision. Decides (Metadce (metadce_value metadce.now)) modules.items (input_texts inputs.now) (decision_value decision)) }
    ensures stops { IfErr result (StopsWith (λ says. Decides (Metadce (metadce_value metadce.now)) modules.items (input_texts inputs.now) (Refuses says))) }
{
    let Some(module) = modules.into_iter().next() else {
        unreachable!()
    };
    sweep_one(alloc, metadce, module, inputs[1].bytes.as_slice())
}
