//! Removes from a module what is not reached. What is kept is moved, and gets its new indices in
//! place.
//!
//! Files:
//!
//! - `faults`: Why there is no swept module.
//! - `kept`: What is kept of a module.
//! - `places`: The map of a sweep.
//! - `sweeping`: Removes from a module what is not marked.
//! - `specs/Sweeps`: What a sweep gives: the swept module, or why there is none.
#![tactic(auto)]

mod faults;
mod kept;
mod places;
mod sweeping;

pub use faults::SweepFault;
pub use sweeping::sweep;
