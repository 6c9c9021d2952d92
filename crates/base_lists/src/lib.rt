//! Definitions and lemmas on lists, tests, options, results, numbers and texts that several crates
//! share and the standard library does not have, independent of WebAssembly.
//!
//! Files:
//!
//! - `specs/Every`: Each element of a list has a property: a product with one factor for each
//!   element.
//! - `specs/Members`: Numbers that a list has.
//! - `specs/Options`: Chains of look-ups, each of which may find nothing; an option that has
//!   whatever another has, and one that is there only if a test is true.
//! - `specs/Parts`: Parts of lists: cut off, cut out, written over, repeated.
//! - `specs/Places`: Places in lists, and consecutive numbers.
//! - `specs/Related`: Options and lists that are related by a relation of their elements.
//! - `specs/Results`: Chains of calls, each of which may fail.
//! - `specs/Same`: Whether two lists have the same elements in the same order, by a test of two
//!   elements.
#![tactic(auto)]
