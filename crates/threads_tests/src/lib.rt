//! Tests of `turn_lock` over its public calls, in threads.
#![tactic(auto)]

pub mod depot;
pub mod notes;
pub mod stations;
#[cfg(test)]
mod tests;
