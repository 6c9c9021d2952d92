//! Tests of wasm_read, wasm_write, wasm_valid_bodies and wasm_valid.
#![tactic(auto)]

#[cfg(test)]
mod bodies;
#[cfg(test)]
mod body_cases;
#[cfg(test)]
mod modules;
#[cfg(test)]
mod reading;
#[cfg(test)]
mod section_cases;
#[cfg(test)]
mod validity;
#[cfg(test)]
mod writing;
