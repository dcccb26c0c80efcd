//! Tests of the store's parts in memory, over their public calls, and what they share.
#![tactic(auto)]

mod arrivals;
mod protection;

pub use arrivals::arrive;
pub use protection::Protection;

#[cfg(test)]
mod blobs;
#[cfg(test)]
mod collections;
#[cfg(test)]
mod indexes;
