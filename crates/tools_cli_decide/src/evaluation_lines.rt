// The lines that report an evaluation of constructors.
ghost use Rattle.std.specs.Prelude.{◌≡◌, ◌++◌, ◌≤◌, codes, length, slice_get, IfOk, OnOk};
ghost use Rattle.tools_cli_spec.specs.EvaluationLines.{constructor_line, ending_line, evaluated_lines, lines_after, stop_name};

use eval_spec::Stop;
use std::alloc::{AllocError, Global};
use tools_cli_spec::Ending;
use wasm_bytes::{Name, NoMemory};

// The name of what stops an evaluation.
fn stop_name<'a>(stop: Stop) -> &'a str
    ensures { result.now ≡ stop_name stop }
{
    match stop {
        Stop::Import => "import",
        Stop::Grow => "grow",
        Stop::TableWrite => "table write",
        Stop::Unknown => "unknown",
        Stop::Trap => "trap",
        Stop::Signature => "signature",
        Stop::Steps => "steps",
        Stop::Depth => "depth",
        Stop::Memory => "memory",
    }
}

// A line for each of these constructors, in order.
fn evaluated_lines(alloc: Global, names: &[Name]) -> Result<Vec<u8>, NoMemory>
    ensures { IfOk result (λ lines. lines.items ≡ evaluated_lines names.now) }
{
    let mut lines = Vec::new(alloc);
    for name in names {
        lines.extend_from_slice("evaluated ".as_bytes())?;
        lines.extend_from_slice(name.as_str().as_bytes())?;
        lines.push(b'\n')?;
    }
    Ok(lines)
}

// Adds the text `before` and what stopped an evaluation, and ends the line.
fn add_stop(lines: &mut Vec<u8>, before: &str, stop: Stop) -> Result<(), AllocError>
    ensures { OnOk result (lines.new.items ≡ lines.old.items ++ (before.now ++ (stop_name stop ++ codes "\n"))) }
{
    lines.extend_from_slice(before.as_bytes())?;
    lines.extend_from_slice(stop_name(stop).as_bytes())?;
    lines.extend_from_slice("\n".as_bytes())?;
    Ok(())
}

// Adds the line that reports what stopped the constructor `name`.
fn add_constructor(lines: &mut Vec<u8>, name: &str, stop: Stop) -> Result<(), AllocError>
    ensures { OnOk result (lines.new.items ≡ lines.old.items ++ constructor_line stop name.now) }
{
    lines.extend_from_slice("stopped at ".as_bytes())?;
    lines.extend_from_slice(name.as_bytes())?;
    add_stop(lines, ": ", stop)
}

// Adds the line that reports what stopped the instantiation, or the constructor at this place.
fn add_ending(
    lines: &mut Vec<u8>,
    ending: Ending,
    names: &[Name],
    place: usize,
) -> Result<(), AllocError>
    ensures { OnOk result (lines.new.items ≡ lines.old.items ++ ending_line ending (slice_get names.now place)) }
{
    match ending {
        Ending::Instantiation(stop) => add_stop(lines, "instantiation stopped: ", stop),
        Ending::Constructor(stop) if place < names.len() => {
            add_constructor(lines, names[place].as_str(), stop)
        }
        Ending::Constructor(_) | Ending::Complete => Ok(()),
    }
}

/// Returns the lines of an evaluation of `names` whose first `count` constructors were evaluated,
/// with this ending.
pub fn lines_after(
    alloc: Global,
    names: &[Name],
    count: usize,
    ending: Ending,
) -> Result<Vec<u8>, NoMemory>
    requires { count ≤ length names.now }
    ensures { IfOk result (λ lines. lines.items ≡ lines_after names.now count ending) }
{
    let mut lines = evaluated_lines(alloc, &names[..count])?;
    add_ending(&mut lines, ending, names, count)?;
    Ok(lines)
}
