ghost use Rattle.std.specs.Prelude.{◌≡◌};
ghost use Rattle.wasm_read_spec.specs.declared.fault.Fault.TheVariants.{Malformed as Misspelled, NoMemory as OutOfMemory};
ghost use Rattle.wasm_read_spec.specs.declared.fault.ReadFault.TheVariants.{NoMemory as ReadOutOfMemory};

use wasm_bytes::{NoMemory, Wrong};
use wasm_tree::Which;

/// Why an item could not be read. It does not say where in the file, because the reader of an item
/// does not know its place.
#[derive(Clone, Copy, Debug, PartialEq, Eq)]
pub enum Fault {
    /// Memory ran out. This says nothing about the bytes.
    NoMemory,
    /// The bytes encode nothing that is allowed there.
    Malformed,
    /// The bytes begin with a form of WebAssembly that is outside the integer profile.
    Unsupported,
    /// A written count, the nesting or the sum of the locals is over its limit.
    Limit { which: Which },
}

/// The first fault of a file.
#[derive(Clone, Copy, Debug, PartialEq, Eq)]
pub enum ReadFault {
    /// The first eight bytes are not the header (WebAssembly Core 2.0, section 5.5.16).
    NotModule,
    /// A section or its frame is malformed. Sections are counted from 0, with the custom ones. If
    /// `section` is the number of all sections, each is well formed, but they do not fit together:
    /// the function and the code section have different lengths, the data count is not the number
    /// of data segments, or there is no data count although a body names a data segment (section
    /// 5.5.16).
    Malformed { section: u32 },
    /// A code entry is malformed. Functions are counted from 0, with the imported ones.
    MalformedBody { func: u32 },
    /// A form outside the integer profile; `func` is the function if it is in a code entry.
    Unsupported { section: u32, func: Option<u32> },
    /// A written count, the nesting or the sum of the locals is over its limit.
    Limit { which: Which },
    /// Memory ran out. This says nothing about the bytes.
    NoMemory,
}

impl From<Wrong> for Fault {
    ghost from_gives = { λ _ e. e ≡ Misspelled };

    fn from(_wrong: Wrong) -> Fault {
        Fault::Malformed
    }
}

impl From<NoMemory> for Fault {
    ghost from_gives = { λ _ e. e ≡ OutOfMemory };

    fn from(_none: NoMemory) -> Fault {
        Fault::NoMemory
    }
}

impl From<NoMemory> for ReadFault {
    ghost from_gives = { λ _ e. e ≡ ReadOutOfMemory };

    fn from(_none: NoMemory) -> ReadFault {
        ReadFault::NoMemory
    }
}
