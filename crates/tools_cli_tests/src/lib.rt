//! Tests of the commands over files and streams in memory: words, bodies, merges, samples, refusals, and
//! failing files and streams. `given` has what these tests and those of binkit_tests share.
#![tactic(auto)]

#[cfg(test)]
mod bodies;
#[cfg(test)]
mod broken;
pub mod given;
#[cfg(test)]
mod merges;
#[cfg(test)]
mod outside;
#[cfg(test)]
mod refusals;
#[cfg(test)]
mod sample;
#[cfg(test)]
mod tests;
