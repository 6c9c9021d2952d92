// The line about a stop, and the status after it.
ghost use Rattle.std.specs.Prelude.{◌≡◌, ◌≤◌, flat_map};
ghost use Rattle.tool_io.specs.FilesAndSinks.{Becomes, AppendsPrefix};
ghost use Rattle.tools_cli.specs.Reports.{status_of, line_of, Reports};

use crate::put::put_all;
use tool_io::{IoFault, Sink};
use tools_cli_decide::{Stop, refusal_pieces};
use tools_cli_spec::Status;

// The status of a stop.
fn status_of(stop: &Stop<'_>) -> Status
    ensures { result ≡ status_of stop.now }
{
    match stop {
        Stop::Usage(_) => Status::Usage,
        Stop::Refused(_) => Status::Refused,
        Stop::CannotRead(_) | Stop::CannotWrite(_) | Stop::CannotPrint => Status::Outside,
        Stop::NoMemory => Status::NoMemory,
    }
}

// The line about a stop, in pieces.
fn pieces<'a>(stop: &'a Stop<'a>) -> [&'a str; 6]
    ensures { flat_map (λ p. p.now) result ≡ line_of stop.now }
{
    let [first, second, third, fourth] = match stop {
        Stop::Usage(line) => return [line, "", "", "", "", ""],
        Stop::Refused(refusal) => refusal_pieces(refusal),
        Stop::CannotRead(file) => ["cannot read ", file, "", ""],
        Stop::CannotWrite(file) => ["cannot write ", file.as_str(), "", ""],
        Stop::CannotPrint => ["cannot write standard output", "", "", ""],
        Stop::NoMemory => ["no memory", "", "", ""],
    };
    ["binkit: ", first, second, third, fourth, "\n"]
}

/// Prints the line about a stop, and returns its status. If printing fails, the status is
/// `Outside`, and if memory runs out, it is `NoMemory`.
pub(crate) fn report<'a, E: Sink>(err: &mut E, stop: &'a Stop<'a>) -> Status
    ensures prefix { Becomes (E.bytes err.old) (E.bytes err.new) (AppendsPrefix (line_of stop.now)) }
    ensures later { E.faults err.old ≤ E.faults err.new }
    ensures reports { Reports stop.now (E.bytes err.old) (E.bytes err.new) (E.faults err.old) (E.faults err.new) result }
{
    match put_all(err, &pieces(stop)) {
        Ok(()) => status_of(stop),
        Err(IoFault::Failed) => Status::Outside,
        Err(IoFault::NoMemory) => Status::NoMemory,
    }
}
