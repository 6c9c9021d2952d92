//! Makes two modules from a seed: the first exports functions, the second imports and calls them.
//!
//! Files:
//!
//! - `draws`: A linear congruential generator.
//! - `first`: The first module: it exports functions that compute with drawn numbers.
//! - `laws`: The law that both modules are valid.
//! - `pair`: The result of `sample`.
//! - `sampling`: The public call `sample`.
//! - `second`: The second module: it imports the functions of the first, and calls one in each of
//!   its own.
//! - `shared`: What both modules share.
//! - `specs/Draws`: A linear congruential generator.
//! - `specs/Laws`: The law of both modules of a sample.
//! - `specs/Modules`: The two modules of a sample: the first exports functions that compute with
//!   drawn numbers, the second imports all of them and calls one in each of its own functions.
#![tactic(auto)]

mod draws;
mod first;
mod laws;
mod pair;
mod sampling;
mod second;
mod shared;

pub use laws::sample_modules_are_valid;
pub use pair::Sample;
pub use sampling::sample;
