//! Laws of a merge: the merged module is valid, its numbers are in range, and it is observationally
//! equivalent to its parts, linked by name, instantiated at once or one after the other.
//!
//! Files:
//!
//! - `behaves`: A law: a merged module is observationally equivalent to its parts, linked by name.
//! - `in_range`: The law that the numbers of merged modules are in the ranges of their types.
//! - `sequential`: A law: sequential instantiation of parts is observationally equivalent to their
//!   instantiation at once.
//! - `valid`: Laws: what joining gives is a valid module, and what this needs of the imports, maps
//!   and starts of linked parts.
//! - `specs/AgreeingInstances`: The instances of the parts, and the instance of the merged module.
//! - `specs/ImportEnds`: Where the imports of linked parts end, and where the types and entities
//!   of the parts are in the merged module.
//! - `specs/Joinable`: Which parts can be joined with which mode.
//! - `specs/MapEntries`: That the maps of parts have entries for what is read through joined
//!   globals.
//! - `specs/MergeEquivalence`: That a merged module is observationally equivalent to its parts,
//!   linked by name.
//! - `specs/SequentialEquivalence`: That sequential instantiation of parts is observationally
//!   equivalent to instantiation at once.
//! - `specs/SharedAddresses`: The addresses that the parts, linked by name, and their merged
//!   module both have: those of the environment's entities, and of what the parts define.
//! - `specs/StartTypes`: The start functions of parts.
#![tactic(auto)]

mod behaves;
mod in_range;
mod sequential;
mod valid;

pub use behaves::merged_module_equivalent;
pub use in_range::merged_modules_are_in_range;
pub use sequential::sequential_instantiation_equivalent;
pub use valid::{
    linked_imports_have_ends, maps_have_entries, merged_modules_are_valid, starts_take_nothing,
};
