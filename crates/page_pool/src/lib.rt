//! The allocator of a region of pages: no page has two owners.
#![tactic(auto)]

mod laws;
mod pool;
pub mod slow;
mod words;

pub use laws::{free_or_taken, taken_after};
pub use pool::{Full, Pool};
pub use words::first_free_word;
