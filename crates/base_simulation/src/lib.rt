//! Machines that make steps and have events, and when one machine has the trace of another:
//! definitions and lemmas for states and events of any type, independent of WebAssembly.
//!
//! Files:
//!
//! - `specs/Machines`: Machines that make steps, and their traces of events.
//! - `specs/Simulations`: When one machine has the trace of another: in lockstep, or with
//!   stuttering.
#![tactic(auto)]
