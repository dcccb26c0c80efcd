//! Tests of the slot side of a boot, over its public calls, with the systems that they share.
#![tactic(auto)]

pub mod damaged;
pub mod systems;
#[cfg(test)]
mod tests;
