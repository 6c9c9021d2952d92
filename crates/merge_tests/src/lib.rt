//! Tests of merge_names, index_remap and wasm_gen.
#![tactic(auto)]

#[cfg(test)]
mod declaring;
#[cfg(test)]
mod names;
#[cfg(test)]
mod renumbering;
#[cfg(test)]
mod samples;
#[cfg(test)]
mod shared;
