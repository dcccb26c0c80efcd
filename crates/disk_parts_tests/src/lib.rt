//! Tests of the disk parts over their public calls, with the set-up that they share.
#![tactic(auto)]

pub mod entries;
#[cfg(test)]
mod slot_tests;
pub mod slots;
pub mod tables;
#[cfg(test)]
mod tests;
