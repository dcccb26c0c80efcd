//! The start of a store in memory: the boot of what lasted.
#![tactic(auto)]

mod looking;
mod starting;

pub use starting::{BootEnd, start};
