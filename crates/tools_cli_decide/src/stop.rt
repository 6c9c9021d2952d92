// Why a command stops.
ghost use Rattle.std.specs.Prelude.{◌≡◌};
ghost use Rattle.tools_cli_decide.specs.declared.stop.Stop.TheVariants.{NoMemory as OutOfMemory};

use crate::refusal::Refusal;
use std::alloc::AllocFailed;
use wasm_bytes::NoMemory;

/// Why a command stops before it is done.
#[derive(Drop)]
pub enum Stop<'a> {
    // with the usage line
    Usage(&'a str),
    Refused(Refusal<'a>),
    CannotRead(&'a str),
    CannotWrite(String),
    CannotPrint,
    NoMemory,
}

impl<'a> From<NoMemory> for Stop<'a> {
    ghost from_gives = { λ _ stop. stop ≡ OutOfMemory };

    fn from(_none: NoMemory) -> Stop<'a> {
        Stop::NoMemory
    }
}

impl<'a, T: Drop> From<AllocFailed<T>> for Stop<'a> {
    ghost from_gives = { λ _ stop. stop ≡ OutOfMemory };

    fn from(_none: AllocFailed<T>) -> Stop<'a> {
        Stop::NoMemory
    }
}
