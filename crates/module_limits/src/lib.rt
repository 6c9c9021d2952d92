//! The first count of a module that is over its limit.
//!
//! Files:
//!
//! - `counts`: The counts of a module, compared with their limits.
//! - `specs/Counts`: The counts of a module, compared with their limits.
#![tactic(auto)]

ghost use Rattle.module_limits.specs.Counts.{CountsAreWithinWhereNoneIsOver};

mod counts;

pub use counts::over_limit;

/// If no count of a module is over its limit, each count is at most its limit.
pub fn counts_are_within_where_none_is_over()
    ensures { CountsAreWithinWhereNoneIsOver }
{}
