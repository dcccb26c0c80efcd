//! Calls of a lane at a desk, for tests: each with what the lane has in hand.
#![tactic(auto)]

mod filling;
mod hand;
mod keeping;
mod packages;
mod short;
mod step;
mod taking;

pub use hand::Hand;
pub use step::{Copied, Step};
pub use taking::take_step;
