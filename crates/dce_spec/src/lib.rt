//! What is left of a module when some of its exports, imports, functions and globals are removed.
//! The crate has only definitions, over marks on what is kept; its proofs compute small examples.
//!
//! Files:
//!
//! - `specs/Closed`: When marks are closed: what is kept names only what is kept.
//! - `specs/Marks`: What is to be kept of a module, as marks on exports and imports by their
//!   places, and on functions and globals by their indices.
//! - `specs/Reached`: What is kept where it is what a graph reaches.
//! - `specs/Swept`: The module that is left of another when only what is marked is kept.
//! - `specs/Unswept`: The world with which a swept module is compared: the whole module, with a
//!   view of only the exports that are kept.
#![tactic(auto)]
