//! Tests of the names and streams that everything else speaks of, over their public calls, and what they
//! share.
#![tactic(auto)]

mod set_up;

pub use set_up::bytes_of;

#[cfg(test)]
mod names;
#[cfg(test)]
mod pools;
#[cfg(test)]
mod streams;
#[cfg(test)]
mod texts;
