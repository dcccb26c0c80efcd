//! Tests of resolves and updates at stores in memory, over public calls, and what they share.
#![tactic(auto)]

#[cfg(test)]
mod choices;
#[cfg(test)]
mod lines;
#[cfg(test)]
mod memory;
#[cfg(test)]
mod recovery;
#[cfg(test)]
mod resolves;
#[cfg(test)]
mod scene;
#[cfg(test)]
mod start;
pub mod stores;
#[cfg(test)]
mod updates;
