// Why parts are not linked, and why they are not joined.

ghost use Rattle.std.specs.Prelude.{◌≡◌};
ghost use Rattle.merge_spec.specs.declared.faults.JoinFault.TheVariants.{NoMemory as OutOfMemory};
ghost use Rattle.merge_spec.specs.declared.faults.LinkFault.TheVariants.{NoMemory as NotLinkedForMemory};

use wasm_bytes::{Name, NoMemory};
use wasm_tree::Which;

/// Why the imports of parts are not linked.
#[derive(Clone, Copy, Drop)]
pub enum LinkFault {
    /// The import and its end differ in kind or type, or the limits of a defined table or memory do
    /// not match.
    ImportMismatch { part: u32, import: u32 },
    /// Following the import never ends.
    ImportCycle { part: u32, import: u32 },
    /// Of all imports that end at this one, the greatest minimum exceeds the least maximum.
    LimitsClash { part: u32, import: u32 },
    /// The merged module would have more than one memory.
    TooManyMemories,
    /// Following the value of this defined global never ends.
    GlobalCycle { part: u32, global: u32 },
    /// Memory ran out, which says nothing about the parts.
    NoMemory,
}

impl From<NoMemory> for LinkFault {
    ghost from_gives = { λ _ e. e ≡ NotLinkedForMemory };

    fn from(_none: NoMemory) -> LinkFault {
        LinkFault::NoMemory
    }
}

/// Why linked parts are not joined.
#[derive(Drop)]
pub enum JoinFault {
    /// The mode is `Refuse`, and `name` is the first export name that repeats an earlier one.
    ExportConflict { name: Name },
    /// A count of the merged module is above its limit; `which` is the first such count.
    TooMany { which: Which },
    /// Memory ran out, which says nothing about the parts.
    NoMemory,
}

impl From<NoMemory> for JoinFault {
    ghost from_gives = { λ _ e. e ≡ OutOfMemory };

    fn from(_none: NoMemory) -> JoinFault {
        JoinFault::NoMemory
    }
}
