//! Laws of a sweep: marks on what is reached are closed; what closed marks leave of a module is
//! valid, has its numbers in range, and is observationally equivalent to the module.
//!
//! Files:
//!
//! - `behaves`: Laws: what closed marks leave of a valid module is observationally equivalent to
//!   the module, seen through the exports that are kept; so is a module without one function that
//!   nothing else names; and an environment that links the module links it with a view of only the
//!   kept exports.
//! - `in_range`: A law: the numbers of what is left of a module are in the ranges of their types,
//!   if those of the module are.
//! - `reach`: A law: marks on exactly what is reached are closed.
//! - `valid`: Laws: what closed marks leave of a valid module is valid, and the map of the sweep
//!   fits it.
//! - `specs/ReachedMarks`: The law of marks on exactly what is reached.
//! - `specs/SmallerViews`: That an environment that links a module links it as well if the
//!   embedder sees only some of its exports.
//! - `specs/SweptModuleEquivalence`: That what is left of a module is observationally equivalent
//!   to the module, seen through the exports that are kept.
//! - `specs/UnreachableFunction`: A module without one function that nothing else of it names:
//!   what is left when everything but that function is kept.
#![tactic(auto)]

mod behaves;
mod in_range;
mod reach;
mod valid;

pub use behaves::{
    smaller_views_link, swept_module_equivalent, unreachable_function_removal_equivalent,
};
pub use in_range::swept_modules_are_in_range;
pub use reach::reached_marks_are_closed;
pub use valid::{swept_modules_are_valid, what_is_kept_fits};
