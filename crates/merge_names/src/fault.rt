ghost use Rattle.std.specs.Prelude.{◌≡◌};
ghost use Rattle.merge_names.specs.declared.fault.NameFault.TheVariants.{NoMemory as OutOfMemory};

use std::alloc::{AllocError, AllocFailed};
use wasm_bytes::NoMemory;

/// Why no names are chosen.
#[derive(Clone, Copy, Debug, PartialEq, Eq)]
pub enum NameFault {
    /// The mode is `Refuse`, and the name at this place is the first that repeats an earlier one.
    Conflict { place: usize },
    /// Memory ran out, which says nothing about the names.
    NoMemory,
}

impl From<NoMemory> for NameFault {
    ghost from_gives = { λ _ e. e ≡ OutOfMemory };

    fn from(_none: NoMemory) -> NameFault {
        NameFault::NoMemory
    }
}

impl From<AllocError> for NameFault {
    ghost from_gives = { λ _ e. e ≡ OutOfMemory };

    fn from(_none: AllocError) -> NameFault {
        NameFault::NoMemory
    }
}

impl<T: Drop> From<AllocFailed<T>> for NameFault {
    ghost from_gives = { λ _ e. e ≡ OutOfMemory };

    fn from(_none: AllocFailed<T>) -> NameFault {
        NameFault::NoMemory
    }
}
