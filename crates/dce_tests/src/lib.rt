//! Tests of dce_graph and dce_sweep.
#![tactic(auto)]

#[cfg(test)]
mod graph_files;
#[cfg(test)]
mod reach;
#[cfg(test)]
mod sweeps;
