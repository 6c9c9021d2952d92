//! Tests of wasm_tree, wasm_num and module_limits.
#![tactic(auto)]

#[cfg(test)]
mod limits;
#[cfg(test)]
mod num;
#[cfg(test)]
mod tree;
