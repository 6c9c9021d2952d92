//! Tests of wasm_names, split_plan and split_slots.
#![tactic(auto)]

#[cfg(test)]
mod modules;
#[cfg(test)]
mod names;
#[cfg(test)]
mod plans;
#[cfg(test)]
mod slots;
#[cfg(test)]
mod splits;
