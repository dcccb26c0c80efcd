//! Tests of the blobs of a disk over their public calls, with the set-up that they share.
#![tactic(auto)]

pub mod blobs;
pub mod looks;
#[cfg(test)]
mod power_loss;
#[cfg(test)]
mod refusals;
#[cfg(test)]
mod samples;
#[cfg(test)]
mod tests;
