// How a command ends.
ghost use Rattle.std.specs.Prelude.{◌≡◌};
ghost use Rattle.tools_cli_spec.specs.ErrorLines.{code_of};

/// How a command ended.
#[derive(Clone, Copy, Debug, PartialEq, Eq)]
pub enum Status {
    /// All outputs are written and all lines printed.
    Done,
    /// The input is refused. The line on standard error says why.
    Refused,
    /// The command line is invalid. The line on standard error is the usage line.
    Usage,
    /// A file or a standard stream failed. Some outputs may be written, and the next one in part
    /// (see `run`).
    Outside,
    /// Memory ran out. Outputs may be written as after `Outside`.
    NoMemory,
}

impl Status {
    /// Returns the exit status of the program, 0 to 4.
    pub fn code(self) -> u8
        ensures { result ≡ code_of self }
    {
        match self {
            Status::Done => 0,
            Status::Refused => 1,
            Status::Usage => 2,
            Status::Outside => 3,
            Status::NoMemory => 4,
        }
    }
}
