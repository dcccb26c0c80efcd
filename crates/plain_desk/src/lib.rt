//! A store in memory, and a lane's desk at it.
#![tactic(auto)]

mod asking;
mod copying;
mod fetching;
mod filling;
mod keeping;
mod lane;
mod opening;
mod reading;
mod store;
mod stored;

pub use lane::Lane;
pub use opening::{Opening, Parts};
pub use store::Store;
pub use stored::StoredBlobs;
