//! Tests of several lanes in turn at a store in memory.
#![tactic(auto)]

#[cfg(test)]
mod boots;
#[cfg(test)]
mod fetches;
pub mod hall;
#[cfg(test)]
mod images;
#[cfg(test)]
mod lanes;
#[cfg(test)]
mod openings;
#[cfg(test)]
mod rooms;
#[cfg(test)]
mod says;
pub mod stores;
#[cfg(test)]
mod updates;
