//! Tests of runs over repositories and streams in memory, and what they share.
//!
//! The digits of roots were computed outside, from the formats. What a run prints was worked out by hand.
#![tactic(auto)]

#[cfg(test)]
mod hashing;
#[cfg(test)]
mod lanes;
#[cfg(test)]
mod packages;
#[cfg(test)]
mod refusals;
pub mod set_up;
#[cfg(test)]
mod sinks;
#[cfg(test)]
mod systems;
