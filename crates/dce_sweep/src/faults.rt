ghost use Rattle.std.specs.Prelude.{◌≡◌};
ghost use Rattle.dce_sweep.specs.declared.faults.SweepFault.TheVariants.{NoMemory as OutOfMemory};

use wasm_bytes::NoMemory;
use wasm_tree::Which;

/// Why there is no swept module.
#[derive(Drop)]
pub enum SweepFault {
    /// A count of the swept module is above its limit; `which` is the first such count.
    TooMany { which: Which },
    /// Memory ran out, which says nothing about the module.
    NoMemory,
}

impl From<NoMemory> for SweepFault {
    ghost from_gives = { λ _ e. e ≡ OutOfMemory };

    fn from(_none: NoMemory) -> SweepFault {
        SweepFault::NoMemory
    }
}
