//! Makes the snapshot of a module after evaluated constructors, from the machine that evaluated
//! them.
//!
//! Files:
//!
//! - `contents`: The contents of a memory as active data segments.
//! - `data_use`: Bodies that name data segments.
//! - `exports`: The exports of a snapshot.
//! - `faults`: Why no snapshot was made.
//! - `in_range`: Numbers of a module in the ranges of their types: a walk over them carries out what
//!   the types say.
//! - `left`: The globals and the data segments of a snapshot.
//! - `names`: Which exports stay, by name.
//! - `snapshots`: The snapshot, or the first count that is above its limit.
//! - `tree`: The snapshot of a module, before references are declared.
//! - `specs/Names`: How exports are looked up by name, and how single exports and segments change.
//! - `specs/Outcome`: What `snapshot` returns: the module, or why there is none.
//! - `specs/Scan`: Memories as they are scanned from a place on.
#![tactic(auto)]

mod contents;
mod data_use;
mod exports;
mod faults;
mod in_range;
mod left;
mod names;
mod snapshots;
mod tree;

pub use faults::SnapshotFault;
pub use snapshots::snapshot;
