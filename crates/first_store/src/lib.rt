//! The store that the program begins with: the system package of an empty list, and the system of it in A.
#![tactic(auto)]

mod laws;
mod package;
mod parts;
mod start;

pub use laws::the_start_is_whole;
pub use start::start_store;
