// What `sample` decides.
ghost use Rattle.std.specs.Prelude.{◌≡◌, option_map, IfOk, IfErr};
ghost use Rattle.tools_cli_decide.specs.Command.{merge_value, sample_value, output_values, decision_value};
ghost use Rattle.tools_cli_spec.specs.Job.{Samples, Refuses, sample_merge, sample_modules, sample_outputs};
ghost use Rattle.tools_cli_decide.specs.Causes.{StopsWith};

use crate::merge::{MergeTask, Source};
use crate::merging::merge_modules;
use crate::output::{Decision, Output, plain_output};
use crate::sample::SampleTask;
use crate::sample_lines::sample_lines;
use crate::stop::Stop;
use merge_names::Mode;
use std::alloc::Global;
use wasm_bytes::NoMemory;
use wasm_gen::{Sample, sample};
use wasm_valid::Valid;

// Makes the two modules.
fn sample_modules(alloc: Global, task: &SampleTask<'_>) -> Result<Vec<Valid>, NoMemory>
    ensures { IfOk result (λ modules. modules.items ≡ sample_modules (sample_value task.now)) }
{
    let Sample { first, second } = sample(alloc, task.seed, task.count)?;
    let mut modules = Vec::new(alloc);
    modules.push(first)?;
    modules.push(second)?;
    Ok(modules)
}

// How the two modules are merged.
fn sample_merge<'a>(alloc: Global) -> Result<MergeTask<'a>, NoMemory>
    ensures { IfOk result (λ merge. merge_value merge ≡ sample_merge) }
{
    let mut sources = Vec::new(alloc);
    sources.push(Source {
        file: "a",
        name: "a",
    })?;
    sources.push(Source {
        file: "b",
        name: "b",
    })?;
    Ok(MergeTask {
        sources,
        output: "",
        mode: Mode::Refuse,
    })
}

// The merged module as the output, if the sample names one.
fn sample_outputs(
    alloc: Global,
    task: &SampleTask<'_>,
    tree: Valid,
) -> Result<Vec<Output>, NoMemory>
    ensures { IfOk result (λ outputs. output_values outputs.items ≡ sample_outputs (sample_value task.now) tree) }
{
    let mut outputs = Vec::new(alloc);
    if let Some(name) = task.output {
        outputs.push(plain_output(alloc, name, tree)?)?;
    }
    Ok(outputs)
}

/// Decides a `sample` task: makes two modules and merges them.
pub fn decide_sample<'a>(alloc: Global, task: &SampleTask<'a>) -> Result<Decision, Stop<'a>>
    ensures decided { IfOk result (λ decision. Samples (sample_value task.now) (decision_value decision)) }
    ensures stops { IfErr result (StopsWith (λ text. Samples (sample_value task.now) (Refuses text))) }
{
    let modules = sample_modules(alloc, task)?;
    let merge = sample_merge(alloc)?;
    let tree = merge_modules(alloc, &merge, modules)?;
    let lines = sample_lines(alloc, task, tree.module())?;
    let outputs = sample_outputs(alloc, task, tree)?;
    Ok(Decision { outputs, lines })
}
