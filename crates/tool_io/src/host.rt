// The real files and standard streams. Contracts do not know their contents. Files have one count
// of faults, for all names and for reads and writes together; each error raises it.
ghost use Rattle.std.specs.Prelude.{◌≡◌, ◌≤◌, None, IsErr};
ghost use Rattle.tool_io.specs.FilesAndSinks.{NoneFell, Rose};

use crate::{Files, IoFault, Sink};
use std::alloc::Global;
use std::fs;
use std::io::{self, ErrorKind, Read, Write};
use std::rt::Files as FileAccess;

/// Files of the system, through the runtime's file access. Their contents are not known.
#[derive(Drop)]
pub struct HostFiles<R> {
    access: R,
    faults: u64,
}

impl<R: FileAccess> HostFiles<R> {
    /// Returns files over what the runtime hands to `main`, with no fault so far.
    pub fn new(access: R) -> HostFiles<R>
        ensures { result.faults ≡ 0 }
    {
        HostFiles { access, faults: 0 }
    }
}

// The fault for an error of the system.
fn fault_of(error: &io::Error) -> IoFault {
    match error.kind() {
        ErrorKind::OutOfMemory => IoFault::NoMemory,
        _ => IoFault::Failed,
    }
}

// Reads the first `most` bytes of a file, or all of a shorter one.
fn read_first<R: FileAccess>(
    access: &R,
    alloc: Global,
    name: &str,
    most: usize,
) -> Result<Vec<u8>, IoFault> {
    let file = match fs::open(access, name) {
        Ok(file) => file,
        Err(error) => return Err(fault_of(&error)),
    };
    let mut bytes = Vec::new(alloc);
    match file.take(most as u64).read_to_end(&mut bytes) {
        Ok(_) => Ok(bytes),
        Err(error) => Err(fault_of(&error)),
    }
}

// Writes all of the bytes to a new file of this name. Once the file is created, its old contents
// are gone, so each later error is a failure.
fn write_file<R: FileAccess>(access: &R, name: &str, bytes: &[u8]) -> Result<(), IoFault> {
    let mut file = match fs::create(access, name) {
        Ok(file) => file,
        Err(error) => return Err(fault_of(&error)),
    };
    match file.write_all(bytes) {
        Ok(()) => Ok(()),
        Err(_) => Err(IoFault::Failed),
    }
}

impl<R: FileAccess> Files for HostFiles<R> {
    ghost contents = { λ f. None };

    ghost read_faults = { λ f _. f.faults };

    ghost write_faults = { λ f _. f.faults };

    fn read(&mut self, alloc: Global, name: &str, most: usize) -> Result<Vec<u8>, IoFault>
        ensures reads { NoneFell (λ _. self.old.faults) (λ _. self.new.faults) }
        ensures writes { NoneFell (λ _. self.old.faults) (λ _. self.new.faults) }
        // also if memory ran out
        ensures cause { IsErr result → Rose self.old.faults self.new.faults }
    {
        let read = read_first(&self.access, alloc, name, most);
        if read.is_err() {
            self.faults = self.faults.saturating_add(1);
        }
        read
    }

    fn write(&mut self, name: &str, bytes: &[u8]) -> Result<(), IoFault>
        ensures reads { NoneFell (λ _. self.old.faults) (λ _. self.new.faults) }
        ensures writes { NoneFell (λ _. self.old.faults) (λ _. self.new.faults) }
        // also if memory ran out
        ensures cause { IsErr result → Rose self.old.faults self.new.faults }
    {
        let written = write_file(&self.access, name, bytes);
        if written.is_err() {
            self.faults = self.faults.saturating_add(1);
        }
        written
    }
}

/// A standard stream, or any other writer of the system. Its bytes are not known.
#[derive(Drop)]
pub struct HostSink<W> {
    stream: W,
    faults: u64,
}

impl<W: Write> HostSink<W> {
    /// Returns a sink over a stream that the runtime hands to `main`, with no fault so far.
    pub fn new(stream: W) -> HostSink<W>
        ensures { result.faults ≡ 0 }
    {
        HostSink { stream, faults: 0 }
    }
}

impl<W: Write> Sink for HostSink<W> {
    ghost bytes = { λ s. None };

    ghost faults = { λ s. s.faults };

    fn put(&mut self, piece: &[u8]) -> Result<(), IoFault>
        ensures later { self.old.faults ≤ self.new.faults }
        // also if memory ran out
        ensures cause { IsErr result → Rose self.old.faults self.new.faults }
    {
        let put = match self.stream.write_all(piece) {
            Ok(()) => Ok(()),
            Err(error) => Err(fault_of(&error)),
        };
        if put.is_err() {
            self.faults = self.faults.saturating_add(1);
        }
        put
    }
}
