// The faults of a split.

ghost use Rattle.std.specs.Prelude.{◌≡◌};
ghost use Rattle.split_spec.specs.declared.faults.SplitFault.TheVariants.{NoMemory as OutOfMemory};

use std::alloc::AllocError;
use wasm_bytes::{Name, NoMemory};
use wasm_tree::Which;

/// Why a module is not split. Of the first three faults, the first in this order is reported.
#[derive(Drop)]
pub enum SplitFault {
    /// The place of the first import whose module name is the placeholder namespace.
    NamespaceTaken { import: u32 },
    /// The first name of an added export that an export of the module already has.
    PrefixTaken { name: Name },
    /// The first quantity above its limit: the parameters of all moved functions together
    /// (`Trampolines`), then the counts of the primary module, then those of the secondary module.
    TooMany { which: Which },
    /// Memory ran out; this says nothing of the module.
    NoMemory,
}

impl From<NoMemory> for SplitFault {
    ghost from_gives = { λ _ e. e ≡ OutOfMemory };

    fn from(_none: NoMemory) -> SplitFault {
        SplitFault::NoMemory
    }
}

impl From<AllocError> for SplitFault {
    ghost from_gives = { λ _ e. e ≡ OutOfMemory };

    fn from(_none: AllocError) -> SplitFault {
        SplitFault::NoMemory
    }
}
