ghost use Rattle.std.specs.Prelude.{◌≡◌, ◌++◌, decimal, string_bytes, IfOk, OnOk};
ghost use Rattle.tools_cli_decide.specs.Command.{sample_value};
ghost use Rattle.tools_cli_spec.specs.SampleLines.{sample_lines};

use crate::sample::SampleTask;
use itoa::Buffer;
use std::alloc::{AllocError, Global};
use wasm_bytes::NoMemory;
use wasm_tree::Module;
use wasm_write::write;

// Adds a text and a number.
fn add(lines: &mut String, text: &str, number: usize) -> Result<(), AllocError>
    ensures { OnOk result (string_bytes lines.new ≡ string_bytes lines.old ++ (text.now ++ decimal number)) }
{
    lines.push_str(text)?;
    lines.push_str(Buffer::new().format(number))
}

/// Returns the lines of a sample whose merged module is `tree`.
pub(crate) fn sample_lines(
    alloc: Global,
    sample: &SampleTask<'_>,
    tree: &Module,
) -> Result<Vec<u8>, NoMemory>
    ensures { IfOk result (λ lines. lines.items ≡ sample_lines (sample_value sample.now) tree.now) }
{
    // the module is encoded to count its bytes: wasm_write has no call that gives their number
    // (`fits` only compares it with a limit)
    let bytes = write(alloc, tree)?;
    let mut lines = String::new(alloc);
    add(&mut lines, "sample seed ", sample.seed as usize)?;
    add(&mut lines, " count ", sample.count as usize)?;
    add(&mut lines, "\nparts 2\nfunctions ", tree.funcs.len())?;
    add(&mut lines, "\nexports ", tree.exports.len())?;
    add(&mut lines, "\nbytes ", bytes.len())?;
    lines.push_str("\n")?;
    Ok(lines.into_bytes())
}
