//! Lists of which some elements are kept, those that are marked, and the new places of these.
//!
//! Files:
//!
//! - `kept`: The marked items of a list.
//! - `places`: The new places of marked items.
//! - `specs/Kept`: Which elements of a list are kept, by one mark for each place, and their new
//!   places.
//! - `specs/Marks`: Marks of the numbers that a list names, one mark for each of some numbers in a
//!   row.
#![tactic(auto)]

mod kept;
mod places;

pub use kept::keep_marked;
pub use places::{add_numbers, new_places};
