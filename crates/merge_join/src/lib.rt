//! Joins linked parts into one module that is observationally equivalent to them.
//!
//! Files:
//!
//! - `all_spaces`: The merged index spaces of functions, tables, memories and globals.
//! - `consts`: Constant expressions, which may read joined globals.
//! - `defined`: How much of an index space a module defines itself.
//! - `exports`: The exports of all parts, under the names that the mode gives them.
//! - `imports`: The staying imports.
//! - `linked`: Look-ups in linked parts.
//! - `mapped_parts`: Linked parts, with the map of each part's indices.
//! - `maps`: The maps from the indices of each part to those of the merged module.
//! - `merging`: The merged module, or the first fault.
//! - `moved`: What a part defines, rewritten in place.
//! - `moving`: What the parts define, moved into the merged module.
//! - `numbers`: Consecutive numbers.
//! - `spaces`: A merged index space: first the staying imports, then what the parts define, part
//!   by part.
//! - `starts`: The start functions of the parts.
//! - `texts`: Function types as texts, which are the keys of look-ups.
//! - `tree`: What the merged module is made from.
//! - `types`: Types, each once, in order of first appearance.
//! - `specs/AllSpaces`: The four merged index spaces of parts.
//! - `specs/Kept`: What a staying import asks for, with the limits that it keeps.
//! - `specs/LinkedParts`: What the contracts of this crate say about parts, links and index
//!   spaces.
//! - `specs/Moved`: What moves from a part into the merged module: what the part defines, with new
//!   indices, and with values in place of the globals that it imports.
//! - `specs/Planned`: The merged module in two halves: the frame, which is made of all parts
//!   together, and what the parts define, which is moved.
//! - `specs/Reads`: What is read through the imported globals of a part, and which constant
//!   expressions have a type in a part.
//! - `specs/Repeats`: What a fault says about repeated names.
//! - `specs/Spaces`: A merged index space, as `MergedSpace` stores it.
//! - `specs/Texts`: Function types as texts: a letter for each parameter, `>`, and a letter for
//!   each result.
//! - `specs/Types`: Types and their places, found by text.
#![tactic(auto)]

mod all_spaces;
mod consts;
mod defined;
mod exports;
mod imports;
mod linked;
mod mapped_parts;
mod maps;
mod merging;
mod moved;
mod moving;
mod numbers;
mod spaces;
mod starts;
mod texts;
mod tree;
mod types;

pub use merge_names::Mode;
pub use merge_spec::JoinFault;
pub use merging::join;
