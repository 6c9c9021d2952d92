ghost use Rattle.std.specs.Prelude.{◌≡◌, IfOk, IsUtf8};

use std::alloc::{AllocError, AllocFailed, Global};
use std::marker::Model;

/// Memory ran out.
#[derive(Clone, Copy, Debug, PartialEq, Eq)]
pub struct NoMemory;

impl From<AllocError> for NoMemory {
    fn from(_none: AllocError) -> NoMemory {
        NoMemory
    }
}

impl<T: Drop> From<AllocFailed<T>> for NoMemory {
    fn from(_none: AllocFailed<T>) -> NoMemory {
        NoMemory
    }
}

/// UTF-8 text, as in the names of imports and exports (WebAssembly Core 2.0, section 5.2.4).
/// Contracts see its bytes.
#[derive(Drop)]
pub struct Name {
    text: String,
}

impl Model for Name {
    ghost use Rattle.std.specs.Prelude.{List, ℕ, string_bytes};

    ghost Value = { List ℕ };

    ghost view = { λ n. string_bytes n.text };
}

impl Name {
    /// Returns a name with this text, or `NoMemory`.
    pub fn from_text(alloc: Global, text: &str) -> Result<Name, NoMemory>
        ensures { IfOk result (λ n. n ≡ text.now) }
    {
        match String::from_str(alloc, text) {
            Ok(text) => Ok(Name { text }),
            Err(_) => Err(NoMemory),
        }
    }

    /// Returns the text of the name.
    pub fn as_str(&self) -> &str
        ensures text { result.now ≡ self.now }
        ensures utf8 { IsUtf8 self.now }
    {
        self.text.as_str()
    }

    /// Returns an equal name, or `NoMemory`.
    pub fn copy(&self, alloc: Global) -> Result<Name, NoMemory>
        ensures { IfOk result (λ n. n ≡ self.now) }
    {
        Name::from_text(alloc, self.as_str())
    }
}
