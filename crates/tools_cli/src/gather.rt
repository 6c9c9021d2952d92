ghost use Rattle.std.specs.Prelude.{◌≡◌, ◌<◌, ◌≤◌, ◌^◌, map, IfOk, IfErr, IfSome};
ghost use Rattle.base_lists.specs.Every.{Every};
ghost use Rattle.wasm_bytes.specs.Reading.{IsBytes};
ghost use Rattle.tool_io.specs.FilesAndSinks.{NoneFell};
ghost use Rattle.tools_cli_spec.specs.Job.{gathered, Whole};
ghost use Rattle.tools_cli_decide.specs.Command.{names_of, input_entries};
ghost use Rattle.tools_cli.specs.Causes.{StopsGathering};
ghost use Rattle.tools_cli_decide.specs.Causes.{total};

use std::alloc::Global;
use tool_io::{Files, IoFault};
use tools_cli_decide::{Input, Refusal, Stop};
use wasm_tree::Which;

// States that the elements of a slice of bytes are below 256.
fn are_bytes(bytes: &[u8])
    ensures { IsBytes bytes.now }
{}

/// Reads the files of these names in order, at most `most` bytes together.
pub(crate) fn gather<'a, F: Files>(
    alloc: Global,
    files: &mut F,
    names: &[&'a str],
    most: usize,
) -> Result<Vec<Input<'a>>, Stop<'a>>
    requires { most < 2 ^ 32 }
    ensures stays { F.contents files.new ≡ F.contents files.old }
    ensures reads { NoneFell (F.read_faults files.old) (F.read_faults files.new) }
    ensures writes { NoneFell (F.write_faults files.old) (F.write_faults files.new) }
    ensures whole { IfOk result (λ inputs. IfSome (F.contents files.old) (λ held. gathered (names_of names.now) held most ≡ Whole (input_entries inputs.items))) }
    ensures names { IfOk result (λ inputs. map (λ e. e.0) (input_entries inputs.items) ≡ names_of names.now) }
    ensures room { IfOk result (λ inputs. total (input_entries inputs.items) ≤ most) }
    ensures bytes { IfOk result (λ inputs. Every (λ e. IsBytes e.1) (input_entries inputs.items)) }
    ensures stops { IfErr result (StopsGathering (F.contents files.old) (F.read_faults files.old) (F.read_faults files.new) (names_of names.now) most) }
{
    let mut inputs = Vec::new(alloc);
    let mut left = most;
    for name in names {
        match files.read(alloc, name, left + 1) {
            Ok(bytes) => {
                if bytes.len() > left {
                    return Err(Stop::Refused(Refusal::Limit {
                        file: name,
                        which: Which::InputBytes,
                    }));
                }
                left -= bytes.len();
                are_bytes(bytes.as_slice());
                inputs.push(Input { name, bytes })?;
            }
            Err(IoFault::Failed) => return Err(Stop::CannotRead(name)),
            Err(IoFault::NoMemory) => return Err(Stop::NoMemory),
        }
    }
    Ok(inputs)
}
