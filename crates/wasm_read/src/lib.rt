//! The binary reader: it returns the tree that a module file encodes, or the first fault of the
//! file.
//!
//! Files:
//!
//! - `codes`: Turns a fault in a section, or in the entry of a function in it, into a fault of the
//!   file.
//! - `file`: The whole file.
//! - `laws`: A law about definitions only, as the contract of a call that does nothing.
//! - `rules`: Rules on the whole file.
//! - `sections`: What the sections read so far contain.
//! - `specs/Told`: When a call returns a fault.
//! - `specs/Views`: The frames of a file and their contents, as results of the reader.
#![tactic(auto)]

mod codes;
mod file;
mod laws;
mod rules;
mod sections;

pub use file::read;
pub use laws::cut_files;
pub use wasm_read_spec::ReadFault;
