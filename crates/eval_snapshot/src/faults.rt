ghost use Rattle.std.specs.Prelude.{◌≡◌};
ghost use Rattle.eval_snapshot.specs.declared.faults.SnapshotFault.TheVariants.{NoMemory as OutOfMemory};

use wasm_bytes::NoMemory;
use wasm_tree::Which;

/// Why no snapshot was made.
#[derive(Drop)]
pub enum SnapshotFault {
    /// A count of the snapshot is above its limit; `which` is the first such count.
    TooMany { which: Which },
    /// Memory ran out, which says nothing about the snapshot.
    NoMemory,
}

impl From<NoMemory> for SnapshotFault {
    ghost from_gives = { λ _ e. e ≡ OutOfMemory };

    fn from(_none: NoMemory) -> SnapshotFault {
        SnapshotFault::NoMemory
    }
}
