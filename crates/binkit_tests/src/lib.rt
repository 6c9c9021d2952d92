//! Tests of the commands `split`, `metadce` and `ctor-eval` over files and streams in memory.
#![tactic(auto)]

#[cfg(test)]
mod budgets;
#[cfg(test)]
mod ctor_eval;
#[cfg(test)]
mod metadce;
#[cfg(test)]
mod split;
