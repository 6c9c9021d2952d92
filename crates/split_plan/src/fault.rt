ghost use Rattle.std.specs.Prelude.{◌≡◌};
ghost use Rattle.split_plan.specs.declared.fault.PlanFault.TheVariants.{NoMemory as OutOfMemory};

use std::alloc::AllocError;
use wasm_bytes::{Name, NoMemory};

/// Why there is no plan. Each fault has the first name in `split` or `keep` that is at fault.
#[derive(Drop)]
pub enum PlanFault {
    /// No defined function has this name in the name list (`names` of `plan`), and none is exported
    /// under it.
    NoSuchFunction { name: Name },
    /// Two or more entries of the name list give this name to defined functions.
    AmbiguousFunction { name: Name },
    /// The function of this name in `split` is also named in `keep`.
    KeptAndSplit { name: Name },
    /// Memory ran out; this says nothing of the names.
    NoMemory,
}

impl From<NoMemory> for PlanFault {
    ghost from_gives = { λ _ e. e ≡ OutOfMemory };

    fn from(_none: NoMemory) -> PlanFault {
        PlanFault::NoMemory
    }
}

impl From<AllocError> for PlanFault {
    ghost from_gives = { λ _ e. e ≡ OutOfMemory };

    fn from(_none: AllocError) -> PlanFault {
        PlanFault::NoMemory
    }
}
