//! What a merge is about: parts with names, the links of their imports, and the faults of linking
//! and of joining. The definitions are in `specs/`.
//!
//! Files:
//!
//! - `faults`: Why parts are not linked, and why they are not joined.
//! - `laws`: Laws about the types of the merged module and about the faults of linking.
//! - `links`: Where imports end, which limits the staying ones keep, and what constant expressions
//!   read.
//! - `parts`: The parts of a merge.
//! - `specs/Faults`: Why parts are not linked: the first fault, in this order.
//! - `specs/Joined`: What joining parts gives: the merged module with its references declared, or
//!   why there is none.
//! - `specs/Linked`: The links of parts: for each import its end, the limits that it keeps, and
//!   what is read through it.
//! - `specs/Merged`: The merged module: its lists are filtered or joined from the parts' lists,
//!   and its indices are places in these.
//! - `specs/Parts`: The parts of a merge, as parts of linking by name.
//! - `specs/Types`: The types of the merged module, in terms of those of the parts.
//! - `specs/View`: What the embedder sees of parts that are linked by name: their exports under
//!   the names that a mode gives them.
#![tactic(auto)]

mod faults;
mod laws;
mod links;
mod parts;

pub use faults::{JoinFault, LinkFault};
pub use laws::{link_faults_name_parts, merged_types_are_distinct};
pub use links::{End, Links, Read};
pub use parts::Part;
