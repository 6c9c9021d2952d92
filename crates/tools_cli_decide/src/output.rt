// The outputs of a task, and what it decides.
ghost use Rattle.std.specs.Prelude.{◌≡◌, ◌∷◌, [], IfOk};
ghost use Rattle.tools_cli_decide.specs.Command.{output_value, decision_value};
ghost use Rattle.tools_cli_spec.specs.Job.{Makes};

use std::alloc::Global;
use wasm_bytes::NoMemory;
use wasm_valid::Valid;

/// A module to be written, and the custom sections that follow it.
#[derive(Drop)]
pub struct Output {
    pub name: String,
    pub tree: Valid,
    pub custom: Vec<u8>,
}

/// The outputs, in the order of writing, and the lines for standard output.
#[derive(Drop)]
pub struct Decision {
    pub outputs: Vec<Output>,
    pub lines: Vec<u8>,
}

/// Makes an output without custom sections.
pub(crate) fn plain_output(alloc: Global, name: &str, tree: Valid) -> Result<Output, NoMemory>
    ensures { IfOk result (λ output. output_value output ≡ record { name = name.now; tree = tree; custom = [] }) }
{
    let name = String::from_str(alloc, name)?;
    let custom = Vec::new(alloc);
    Ok(Output { name, tree, custom })
}

/// Makes a decision of one output without custom sections, and lines.
pub fn one_output(
    alloc: Global,
    name: &str,
    tree: Valid,
    lines: Vec<u8>,
) -> Result<Decision, NoMemory>
    ensures { IfOk result (λ decision. decision_value decision ≡ Makes (record { name = name.now; tree = tree; custom = [] } ∷ []) lines.items) }
{
    let mut outputs = Vec::new(alloc);
    outputs.push(plain_output(alloc, name, tree)?)?;
    Ok(Decision { outputs, lines })
}

/// Makes a decision of two outputs, in the order of writing, and lines.
pub(crate) fn two_outputs(
    alloc: Global,
    first: Output,
    second: Output,
    lines: Vec<u8>,
) -> Result<Decision, NoMemory>
    ensures { IfOk result (λ decision. decision_value decision ≡ Makes (output_value first ∷ output_value second ∷ []) lines.items) }
{
    let mut outputs = Vec::new(alloc);
    outputs.push(first)?;
    outputs.push(second)?;
    Ok(Decision { outputs, lines })
}
