// Files and a sink in memory, whose calls fail at chosen numbers.
ghost use Rattle.std.specs.Prelude.{◌≡◌, ◌≤◌, ◌++◌, ◌∷◌, ◌↔◌, ◌||◌, [], true, false, Some, None, IfOk, IfSome, OnOk, OnErr, IsErrOf, IsTrue, option_map, option_copied, find, bytes_eq, string_bytes};
ghost use Rattle.std.specs.FinMap.{empty, get, insert};
ghost use Rattle.tool_io.specs.Memory.{one_more, next_fails, is_missing, called, faulted, holding, first_half, next_put_fails, gained, gained_at_fault};
ghost use Rattle.wasm_bytes.specs.Reading.{IsBytes};
ghost use Rattle.tool_io.specs.FilesAndSinks.{Rose, NoneFell, Becomes, IsUnchangedOrCut, AppendsPrefix, first_bytes};

use crate::{Files, IoFault, Sink};
use std::alloc::Global;
use std::collections::VecDeque;
use std::marker::Model;
use wasm_bytes::NoMemory;

/// Files in memory, whose contents are known. Calls of `read` and `write` are numbered together,
/// from 1. A call with a chosen number does not succeed; any other call is `Failed` only if it is a
/// read of a missing name. One count of faults serves every name, and reads and writes together.
#[derive(Drop)]
pub struct MemFiles {
    alloc: Global,
    // each write, the newest first
    log: VecDeque<(String, Vec<u8>)>,
    calls: u64,
    faults: u64,
    failing: Vec<u64>,
}

impl Model for MemFiles {
    ghost use Rattle.tool_io.specs.Memory.{Disk, disk_code, files_of};

    ghost Value = { Disk };

    ghost coded = { disk_code };

    ghost view = { λ f. record { contents = files_of f.log.items; calls = f.calls; faults = f.faults; failing = f.failing.items } };
}

// The newest write of a name.
fn newest<'a>(log: &'a VecDeque<(String, Vec<u8>)>, name: &str) -> Option<&'a (String, Vec<u8>)>
    ensures { option_copied result ≡ find (λ e. bytes_eq name.now (string_bytes e.0)) log.now.items }
{
    log.iter().find(|write| name == write.0.as_str())
}

// States that the elements of a slice of bytes are below 256.
fn are_bytes(bytes: &[u8])
    ensures { IsBytes bytes.now }
{}

impl MemFiles {
    /// Returns a map without files, with no calls so far and no chosen numbers.
    pub fn new(alloc: Global) -> MemFiles
        ensures { result ≡ record { contents = empty; calls = 0; faults = 0; failing = [] } }
    {
        MemFiles {
            alloc,
            log: VecDeque::new(alloc),
            calls: 0,
            faults: 0,
            failing: Vec::new(alloc),
        }
    }

    /// Sets the bytes of a name. This does not count as a call. After `NoMemory` the files are
    /// unchanged.
    pub fn add(&mut self, name: &str, bytes: &[u8]) -> Result<(), NoMemory>
        ensures ok { OnOk result (self.new ≡ record self.old { contents = insert self.old.contents name.now bytes.now }) }
        ensures err { OnErr result (self.new ≡ self.old) }
    {
        let Ok(name) = String::from_str(self.alloc, name) else {
            return Err(NoMemory);
        };
        let Ok(bytes) = Vec::from_slice(self.alloc, bytes) else {
            return Err(NoMemory);
        };
        match self.log.push_front((name, bytes)) {
            Ok(()) => Ok(()),
            Err(_) => Err(NoMemory),
        }
    }

    /// Makes the `read` or `write` of this number fail. After `NoMemory` the files are unchanged.
    pub fn fail_at(&mut self, call: u64) -> Result<(), NoMemory>
        ensures ok { OnOk result (self.new ≡ record self.old { failing = self.old.failing ++ call ∷ [] }) }
        ensures err { OnErr result (self.new ≡ self.old) }
    {
        match self.failing.push(call) {
            Ok(()) => Ok(()),
            Err(_) => Err(NoMemory),
        }
    }

    /// Returns the bytes of a name, or `None` exactly if the name is missing.
    pub fn contents(&self, name: &str) -> Option<&[u8]>
        ensures held { option_map (λ b. b.now) result ≡ get self.now.contents name.now }
        ensures bytes { IfSome (get self.now.contents name.now) IsBytes }
    {
        match newest(&self.log, name) {
            Some(write) => {
                let bytes = write.1.as_slice();
                are_bytes(bytes);
                Some(bytes)
            }
            None => None,
        }
    }

    // Counts a call, and returns whether it fails.
    fn count(&mut self) -> bool
        ensures counted { self.new ≡ called self.old }
        ensures fails { result ≡ next_fails self.old }
    {
        self.calls = self.calls.saturating_add(1);
        self.failing.contains(&self.calls)
    }

    fn fail(&mut self)
        ensures counted { self.new ≡ record self.old { faults = one_more self.old.faults } }
        ensures later { self.old.faults ≤ self.new.faults }
    {
        self.faults = self.faults.saturating_add(1);
    }
}

impl Files for MemFiles {
    ghost contents = { λ f. Some f.contents };

    ghost read_faults = { λ f _. f.faults };

    ghost write_faults = { λ f _. f.faults };

    fn read(&mut self, alloc: Global, name: &str, most: usize) -> Result<Vec<u8>, IoFault>
        ensures stays { self.new.contents ≡ self.old.contents }
        ensures bytes { IfOk result (λ v. first_bytes self.old.contents name.now most ≡ Some v.items) }
        ensures reads { NoneFell (λ _. self.old.faults) (λ _. self.new.faults) }
        ensures writes { NoneFell (λ _. self.old.faults) (λ _. self.new.faults) }
        ensures cause { IsErrOf result IoFault.Failed → Rose self.old.faults self.new.faults }
        // exactly at the chosen numbers and if the name is missing
        ensures fails { IsErrOf result IoFault.Failed ↔ IsTrue (next_fails self.old || is_missing self.old name.now) }
        ensures fault { IsErrOf result IoFault.Failed → self.new ≡ faulted self.old }
        ensures ok { OnOk result (self.new ≡ called self.old) }
        ensures no_room { IsErrOf result IoFault.NoMemory → self.new ≡ called self.old }
    {
        if self.count() {
            self.fail();
            return Err(IoFault::Failed);
        }
        let Some(bytes) = self.contents(name) else {
            self.fail();
            return Err(IoFault::Failed);
        };
        match Vec::from_slice(alloc, &bytes[..bytes.len().min(most)]) {
            Ok(read) => Ok(read),
            Err(_) => Err(IoFault::NoMemory),
        }
    }

    fn write(&mut self, name: &str, bytes: &[u8]) -> Result<(), IoFault>
        ensures written { OnOk result (Becomes (Some self.old.contents) (Some self.new.contents) (λ old new. new ≡ insert old name.now bytes.now)) }
        ensures failed { IsErrOf result IoFault.Failed → Becomes (Some self.old.contents) (Some self.new.contents) (IsUnchangedOrCut name.now bytes.now) }
        ensures memory { IsErrOf result IoFault.NoMemory → Some self.new.contents ≡ Some self.old.contents }
        ensures reads { NoneFell (λ _. self.old.faults) (λ _. self.new.faults) }
        ensures writes { NoneFell (λ _. self.old.faults) (λ _. self.new.faults) }
        ensures cause { IsErrOf result IoFault.Failed → Rose self.old.faults self.new.faults }
        // only at the chosen numbers, and the first half is written
        ensures fails { IsErrOf result IoFault.Failed → IsTrue (next_fails self.old) }
        ensures half { IsErrOf result IoFault.Failed → self.new ≡ holding (faulted self.old) name.now (first_half bytes.now) }
        ensures succeeds { OnOk result (next_fails self.old ≡ false) }
        ensures whole { OnOk result (self.new ≡ holding (called self.old) name.now bytes.now) }
        ensures no_room { IsErrOf result IoFault.NoMemory → self.new ≡ called self.old }
    {
        let fails = self.count();
        let most = if fails { bytes.len() / 2 } else { bytes.len() };
        if self.add(name, &bytes[..most]).is_err() {
            return Err(IoFault::NoMemory);
        }
        if fails {
            self.fail();
            return Err(IoFault::Failed);
        }
        Ok(())
    }
}

/// A sink in memory, whose bytes are known. Its calls of `put` are numbered from 1. A call with a
/// chosen number does not succeed, and no other call is `Failed`.
#[derive(Drop)]
pub struct MemSink {
    bytes: Vec<u8>,
    calls: u64,
    faults: u64,
    failing: Vec<u64>,
}

impl Model for MemSink {
    ghost use Rattle.tool_io.specs.Memory.{Tape};

    ghost Value = { Tape };

    ghost view = { λ s. record { bytes = s.bytes.items; calls = s.calls; faults = s.faults; failing = s.failing.items } };
}

impl MemSink {
    /// Returns a sink without bytes, with no calls so far and no chosen numbers.
    pub fn new(alloc: Global) -> MemSink
        ensures { result ≡ record { bytes = []; calls = 0; faults = 0; failing = [] } }
    {
        MemSink {
            bytes: Vec::new(alloc),
            calls: 0,
            faults: 0,
            failing: Vec::new(alloc),
        }
    }

    /// Makes the `put` of this number fail. After `NoMemory` the sink is unchanged.
    pub fn fail_at(&mut self, call: u64) -> Result<(), NoMemory>
        ensures ok { OnOk result (self.new ≡ record self.old { failing = self.old.failing ++ call ∷ [] }) }
        ensures err { OnErr result (self.new ≡ self.old) }
    {
        match self.failing.push(call) {
            Ok(()) => Ok(()),
            Err(_) => Err(NoMemory),
        }
    }

    /// Returns the bytes so far.
    pub fn text(&self) -> &[u8]
        ensures { result.now ≡ self.now.bytes }
    {
        self.bytes.as_slice()
    }
}

impl Sink for MemSink {
    ghost bytes = { λ s. Some s.bytes };

    ghost faults = { λ s. s.faults };

    fn put(&mut self, piece: &[u8]) -> Result<(), IoFault>
        ensures appended { OnOk result (Becomes (Some self.old.bytes) (Some self.new.bytes) (λ old new. new ≡ old ++ piece.now)) }
        ensures prefix { Becomes (Some self.old.bytes) (Some self.new.bytes) (AppendsPrefix piece.now) }
        ensures later { self.old.faults ≤ self.new.faults }
        ensures cause { IsErrOf result IoFault.Failed → Rose self.old.faults self.new.faults }
        // only at the chosen numbers, and the first half is appended
        ensures fails { IsErrOf result IoFault.Failed → IsTrue (next_put_fails self.old) }
        ensures half { IsErrOf result IoFault.Failed → self.new ≡ gained_at_fault self.old (first_half piece.now) }
        ensures succeeds { OnOk result (next_put_fails self.old ≡ false) }
        ensures whole { OnOk result (self.new ≡ gained self.old piece.now) }
        ensures no_room { IsErrOf result IoFault.NoMemory → self.new ≡ gained self.old [] }
    {
        self.calls = self.calls.saturating_add(1);
        let fails = self.failing.contains(&self.calls);
        let most = if fails { piece.len() / 2 } else { piece.len() };
        if self.bytes.extend_from_slice(&piece[..most]).is_err() {
            return Err(IoFault::NoMemory);
        }
        if fails {
            self.faults = self.faults.saturating_add(1);
            return Err(IoFault::Failed);
        }
        Ok(())
    }
}
