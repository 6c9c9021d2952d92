//! Computes where the paths from all places of a list end, in linear time.
//!
//! Files:
//!
//! - `follow`: Paths that end with something, or lead nowhere.
//! - `stops`: The end of the path from each place.
//! - `specs/Paths`: Paths over a list of steps, and where they end.
//! - `specs/Steps`: Places that go on to others, end with something, or lead nowhere.
#![tactic(auto)]

mod follow;
mod stops;

pub use follow::{Step, endings};
pub use stops::ends;
