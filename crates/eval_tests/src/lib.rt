//! Tests of eval_machine.
#![tactic(auto)]

#[cfg(test)]
mod built;
#[cfg(test)]
mod evaluated;
#[cfg(test)]
mod modules;
#[cfg(test)]
mod states;
#[cfg(test)]
mod stops;
