// The outputs of a decision, encoded.
ghost use Rattle.std.specs.Prelude.{◌≡◌, map, IfOk, IfErr};
ghost use Rattle.std.specs.List.{list_all};
ghost use Rattle.tools_cli_decide.specs.Command.{decision_value, output_value, output_values};
ghost use Rattle.tools_cli.specs.Writes.{write_entry, write_entries};
ghost use Rattle.tools_cli_spec.specs.Job.{Done, Refused, job_of, is_within, spelled_output};
ghost use Rattle.tools_cli_decide.specs.Causes.{StopsWith};

use crate::perform::Write;
use std::alloc::Global;
use std::mem::forget;
use tools_cli_decide::{Decision, Output, Refusal, Stop};
use wasm_bytes::NoMemory;
use wasm_tree::{MOST_OUTPUT_BYTES, Which};
use wasm_write::{fits, write};

/// The files to be written, and the lines for standard output.
#[derive(Drop)]
pub(crate) struct Plan {
    pub(crate) writes: Vec<Write>,
    pub(crate) lines: Vec<u8>,
}

// Whether the canonical encoding of each output is within the limit.
fn are_within(outputs: &[Output]) -> bool
    ensures { result ≡ list_all is_within (output_values outputs.now) }
{
    for output in outputs {
        if !fits(output.tree.module(), MOST_OUTPUT_BYTES) {
            return false;
        }
    }
    true
}

fn encode_output(alloc: Global, output: Output) -> Result<Write, NoMemory>
    ensures { IfOk result (λ write. write_entry write ≡ spelled_output (output_value output)) }
{
    let Output { name, tree, custom } = output;
    let mut bytes = write(alloc, tree.module())?;
    // The process ends soon and its memory is freed as a whole: the tree is not freed node by node.
    forget(tree);
    bytes.extend_from_slice(custom.as_slice())?;
    Ok(Write { name, bytes })
}

fn encode_outputs(alloc: Global, outputs: Vec<Output>) -> Result<Vec<Write>, NoMemory>
    ensures { IfOk result (λ writes. write_entries writes.items ≡ map spelled_output (output_values outputs.items)) }
{
    let mut writes = Vec::new(alloc);
    for output in outputs {
        let write = encode_output(alloc, output)?;
        writes.push(write)?;
    }
    Ok(writes)
}

/// Compares all outputs with the limit on output bytes, and then encodes them.
pub(crate) fn encode<'a>(alloc: Global, decision: Decision) -> Result<Plan, Stop<'a>>
    ensures plan { IfOk result (λ plan. job_of (decision_value decision) ≡ Done (write_entries plan.writes.items) plan.lines.items) }
    ensures stops { IfErr result (StopsWith (λ text. job_of (decision_value decision) ≡ Refused text)) }
{
    let Decision { outputs, lines } = decision;
    if !are_within(outputs.as_slice()) {
        return Err(Stop::Refused(Refusal::TooMany {
            which: Which::OutputBytes,
        }));
    }
    let writes = encode_outputs(alloc, outputs)?;
    Ok(Plan { writes, lines })
}
