ghost use Rattle.std.specs.Prelude.{◌≡◌, OnOk, IfErr};
ghost use Rattle.tool_io.specs.FilesAndSinks.{NoneFell, Becomes};
ghost use Rattle.tools_cli_spec.specs.Effects.{made, AreWrittenInPart};
ghost use Rattle.tools_cli.specs.Writes.{write_entries};
ghost use Rattle.tools_cli.specs.Causes.{StopsWriting};

use tool_io::{Files, IoFault};
use tools_cli_decide::Stop;

/// A file to be written.
#[derive(Drop)]
pub(crate) struct Write {
    pub(crate) name: String,
    pub(crate) bytes: Vec<u8>,
}

/// Writes these files in order. Stops at the first that fails.
pub(crate) fn write_outputs<'a, F: Files>(
    files: &mut F,
    outputs: Vec<Write>,
) -> Result<(), Stop<'a>>
    ensures made { OnOk result (Becomes (F.contents files.old) (F.contents files.new) (λ old new. new ≡ made (write_entries outputs.items) old)) }
    ensures cut { Becomes (F.contents files.old) (F.contents files.new) (AreWrittenInPart (write_entries outputs.items)) }
    ensures reads { NoneFell (F.read_faults files.old) (F.read_faults files.new) }
    ensures writes { NoneFell (F.write_faults files.old) (F.write_faults files.new) }
    ensures stops { IfErr result (StopsWriting (F.write_faults files.old) (F.write_faults files.new) (write_entries outputs.items)) }
{
    for output in outputs {
        let Write { name, bytes } = output;
        match files.write(name.as_str(), bytes.as_slice()) {
            Ok(()) => {}
            Err(IoFault::Failed) => return Err(Stop::CannotWrite(name)),
            Err(IoFault::NoMemory) => return Err(Stop::NoMemory),
        }
    }
    Ok(())
}
