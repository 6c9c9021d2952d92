//! Files and sinks of a program: traits, with implementations in memory and over the host.
//!
//! Files:
//!
//! - `host`: The real files and standard streams.
//! - `memory`: Files and a sink in memory, whose calls fail at chosen numbers.
//! - `outside`: Files and sinks: what they hold, if they tell contracts, and how often they have
//!   failed.
//! - `specs/FilesAndSinks`: What files and sinks hold, if that is known, and how often they have
//!   failed.
//! - `specs/Memory`: What contracts say of files and sinks in memory.
#![tactic(auto)]

mod host;
mod memory;
mod outside;

pub use host::{HostFiles, HostSink};
pub use memory::{MemFiles, MemSink};
pub use outside::{Files, IoFault, Sink};
