ghost use Rattle.std.specs.Prelude.{◌≡◌};
ghost use Rattle.dce_graph.specs.declared.fault.GraphFault.TheVariants.{NoMemory as OutOfMemory};

use std::alloc::{AllocError, AllocFailed};
use wasm_bytes::{Name, NoMemory};

/// Why a graph file is refused, in the order in which the faults are tested.
#[derive(Drop)]
pub enum GraphFault {
    /// The bytes are not UTF-8, not JSON, or nested more than 127 deep.
    GraphText,
    /// The first entry that does not have the shape of one; 0 if the value is not an array.
    GraphShape { entry: u32 },
    /// The first name that repeats an earlier one.
    NodeTwice { name: Name },
    /// The first name that is reached and that no entry has, in the order of the entries.
    UnknownNode { name: Name },
    /// Memory ran out, which says nothing about the file.
    NoMemory,
}

impl From<NoMemory> for GraphFault {
    ghost from_gives = { λ _ e. e ≡ OutOfMemory };

    fn from(_none: NoMemory) -> GraphFault {
        GraphFault::NoMemory
    }
}

impl From<AllocError> for GraphFault {
    ghost from_gives = { λ _ e. e ≡ OutOfMemory };

    fn from(_none: AllocError) -> GraphFault {
        GraphFault::NoMemory
    }
}

impl<T: Drop> From<AllocFailed<T>> for GraphFault {
    ghost from_gives = { λ _ e. e ≡ OutOfMemory };

    fn from(_none: AllocFailed<T>) -> GraphFault {
        GraphFault::NoMemory
    }
}
