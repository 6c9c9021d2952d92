//! Links parts: finds where their imports end, which limits the staying imports keep, and what
//! constant expressions read, or the first fault.
//!
//! Files:
//!
//! - `cutting`: Lists with one entry for each import of all parts, cut into one list for each
//!   part.
//! - `externals`: The external types that imports ask for and that their ends have.
//! - `gathering`: Staying memory imports with the same module and field name end together, at the
//!   first of them.
//! - `globals`: The globals that parts define, and what their value expressions read.
//! - `limits`: The limits of staying tables and memories, which all their imports accept (import
//!   subtyping, WebAssembly Core 2.0, section 3.2.8, for several imports of one).
//! - `matching`: Faults of imports and their ends.
//! - `memories`: Whether there is more than one memory.
//! - `part_tables`: Parts, with tables for look-ups in them.
//! - `reads`: What is read through imported globals.
//! - `resolving`: The linked ends of imports, and the limits that they keep.
//! - `sites`: The place of an import: its part, and its place in the import section.
//! - `tables`: The look-up table of each part: the places of its imports in its index spaces, what
//!   its exports denote, and the numbers of its first import and of its first defined global among
//!   those of all parts.
//! - `specs/Cutting`: A list cut into pieces of given lengths.
//! - `specs/Externals`: External types, and those of what modules define.
//! - `specs/Gathering`: Staying memories, gathered by their module and field names.
//! - `specs/Globals`: Defined globals, and what their value expressions read.
//! - `specs/Limits`: Limits of staying imports.
//! - `specs/PartTables`: Following imports, in terms of linking by name.
//! - `specs/Reads`: What is read through imports.
//! - `specs/Resolving`: What each stage of linking gives: its result if there is no fault of its
//!   kind, or the first such fault.
//! - `specs/Sites`: The places of imports, in terms of linking by name.
//! - `specs/Tables`: What is looked up in parts, in terms of linking by name.
#![tactic(auto)]

mod cutting;
mod externals;
mod gathering;
mod globals;
mod limits;
mod matching;
mod memories;
mod part_tables;
mod reads;
mod resolving;
mod sites;
mod tables;

pub use resolving::resolve;
