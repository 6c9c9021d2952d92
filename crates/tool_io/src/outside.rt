// Files and sinks: what they hold, if they tell contracts, and how often they have failed.
ghost use Rattle.std.specs.Prelude.{◌≡◌, ◌≤◌, ℕ, List, ◌++◌, Option, Some, IfOk, IfSome, OnOk, IsErrOf};
ghost use Rattle.std.specs.FinMap.{insert};
ghost use Rattle.tool_io.specs.FilesAndSinks.{FileContents, Rose, NoneFell, Becomes, first_bytes, IsUnchangedOrCut, AppendsPrefix};

use std::alloc::Global;

/// Why a call of `Files` or `Sink` does not succeed.
#[derive(Clone, Copy, Debug, PartialEq, Eq)]
pub enum IoFault {
    /// The file or the stream failed, and the call raised its count of faults.
    Failed,
    /// Memory ran out. After `read` or `write` the files are as before. After `put` the sink may
    /// have gained a prefix of the piece.
    NoMemory,
}

/// A map from names to bytes. An implementation may tell contracts its contents (`Some`) or not
/// (`None`); no call changes this. For each name it has a count of the faults of reading and one of
/// writing. No call lowers a count.
pub trait Files {
    /// The bytes of each name, if the implementation tells them.
    ghost contents: { Self → Option FileContents };

    /// How often reading a name has failed.
    ghost read_faults: { Self → List ℕ → ℕ };

    /// How often writing a name has failed.
    ghost write_faults: { Self → List ℕ → ℕ };

    /// Returns the first `most` bytes of a file, or all of them if it has fewer. Fails if the name
    /// is missing. It changes no file.
    fn read(&mut self, alloc: Global, name: &str, most: usize) -> Result<Vec<u8>, IoFault>
        ensures stays { contents self.new ≡ contents self.old }
        ensures bytes { IfOk result (λ v. IfSome (contents self.old) (λ files. first_bytes files name.now most ≡ Some v.items)) }
        ensures reads { NoneFell (read_faults self.old) (read_faults self.new) }
        ensures writes { NoneFell (write_faults self.old) (write_faults self.new) }
        ensures cause { IsErrOf result IoFault.Failed → Rose (read_faults self.old name.now) (read_faults self.new name.now) };

    /// Sets the bytes of a name. After `Failed` the name holds its old contents or a prefix of
    /// `bytes`, and after `NoMemory` its old contents. Other names are unchanged.
    fn write(&mut self, name: &str, bytes: &[u8]) -> Result<(), IoFault>
        ensures written { OnOk result (Becomes (contents self.old) (contents self.new) (λ old new. new ≡ insert old name.now bytes.now)) }
        ensures failed { IsErrOf result IoFault.Failed → Becomes (contents self.old) (contents self.new) (IsUnchangedOrCut name.now bytes.now) }
        ensures memory { IsErrOf result IoFault.NoMemory → contents self.new ≡ contents self.old }
        ensures reads { NoneFell (read_faults self.old) (read_faults self.new) }
        ensures writes { NoneFell (write_faults self.old) (write_faults self.new) }
        ensures cause { IsErrOf result IoFault.Failed → Rose (write_faults self.old name.now) (write_faults self.new name.now) };
}

/// Bytes that only grow. An implementation may tell contracts its bytes (`Some`) or not (`None`);
/// no call changes this. It counts its faults, and no call lowers the count.
pub trait Sink {
    /// The bytes so far, if the implementation tells them.
    ghost bytes: { Self → Option (List ℕ) };

    /// How often a `put` has failed.
    ghost faults: { Self → ℕ };

    /// Appends a piece. After an error a prefix of the piece is appended.
    fn put(&mut self, piece: &[u8]) -> Result<(), IoFault>
        ensures appended { OnOk result (Becomes (bytes self.old) (bytes self.new) (λ old new. new ≡ old ++ piece.now)) }
        ensures prefix { Becomes (bytes self.old) (bytes self.new) (AppendsPrefix piece.now) }
        ensures later { faults self.old ≤ faults self.new }
        ensures cause { IsErrOf result IoFault.Failed → Rose (faults self.old) (faults self.new) };
}
