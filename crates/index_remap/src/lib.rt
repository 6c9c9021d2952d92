//! Replaces the indices of module trees and declares their references, and states the law on steps
//! and on code with other indices.
//!
//! Files:
//!
//! - `declaring`: Declares the functions that `ref.func` names in bodies.
//! - `each`: Parts of a module that have indices, which are replaced in place.
//! - `in_place`: Replaces the indices of trees in place.
//! - `remap`: The maps of indices, and the parts of a module that have only a few indices.
//! - `renumbering`: Renumbers a copy of a module.
//! - `specs/Agreement`: When an index of one context agrees with its entry in a map, in another
//!   context.
//! - `specs/CodeNames`: How the indices that code names are related to their entries in a map.
//! - `specs/Laws`: The laws of code with other indices: it is related to the code that it is made
//!   of, and well typed.
//! - `specs/References`: A tree in which one more declarative element segment declares the
//!   functions that `ref.func` names in bodies, if any is not declared.
//! - `specs/Renumbered`: A tree in which each index is replaced by its entry in the map of its
//!   index space.
//! - `specs/Replaced`: Code in which each index is replaced by its entry in a map, and each call
//!   of a function of a list by other code.
#![tactic(auto)]

mod declaring;
mod each;
mod in_place;
mod remap;
mod renumbering;

ghost use Rattle.run_simulation.specs.Laws.{CodeIsRelatedToItself, NamedAreKnown, ShownAgree, StepsAgree, TrapsAgree};
ghost use Rattle.index_remap.specs.Laws.{NotOpaqueAreRenumbered, RenumberedCodeIsRelated, ReplacedCodeIsRelated, TypingIsKept};

pub use declaring::declare_refs;
pub use in_place::{renumber_funcs_in_place, renumber_in_place};
pub use remap::{Remap, renumber_const, renumber_export_desc};
pub use renumbering::renumber;
use run_simulation::related_steps_agree;

/// States how the next steps of two related configurations over related stores agree (WebAssembly
/// Core 2.0, section 4.4), and which code is related or well typed.
///
/// Two addresses are related if the simulation relation has them; code may name those that the code
/// relation has. An opaque function is one of a list. Two related ones need only have equal types,
/// and neither is the environment's own or both are the same function of it. Other code may stand
/// in place of a call of one.
///
/// - `steps`: both steps go on to related results, or both trap, or both are ill typed, if the
///   simulation relation is one to one except for functions, the entries that the step touches are
///   related, the next instruction names related addresses, and the step begins no call of an
///   opaque function, directly or through a table.
/// - `known`: if all of the code relation is related, the next instruction names related addresses.
/// - `shown`: the embedder is shown equal values for related ones, if the simulation relation is
///   one to one, functions included, and the functions that were shown before are related, number
///   by number.
/// - `traps`: a trap ends at the nearest mark of the embedder. If the two nearest marks are
///   related, the same caller waits at both, whatever is above them.
/// - `code`: a body is related to the same body with other indices, if each index that it names and
///   its entry denote addresses of the code relation, or equal types, or neither denotes anything.
/// - `replaced`: the same holds if calls of opaque functions are replaced by code that may stand in
///   their place; an index that only such calls name needs no entry.
/// - `not_opaque`: if the list of functions whose calls are replaced is empty, the body with other
///   indices is such a body, with no call replaced.
/// - `reflexive`: code is related to itself over an instance whose addresses are in the code
///   relation with themselves.
/// - `typed`: a well-typed body stays well typed with other indices and replaced calls, over the
///   same locals, results and labels, if the indices that instructions other than replaced calls
///   name agree with their entries, and code that replaces a call has the type of the called
///   function under the labels at that place (section 3.3).
pub fn steps_agree()
    ensures steps { StepsAgree }
    ensures known { NamedAreKnown }
    ensures shown { ShownAgree }
    ensures traps { TrapsAgree }
    ensures code { RenumberedCodeIsRelated }
    ensures replaced { ReplacedCodeIsRelated }
    ensures not_opaque { NotOpaqueAreRenumbered }
    ensures reflexive { CodeIsRelatedToItself }
    ensures typed { TypingIsKept }
{
    related_steps_agree();
}
