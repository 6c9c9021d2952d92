//! Passes on the names of the module tree, for definitions and proofs, from one place. The crate
//! has no program.
#![tactic(auto)]
