//! Serving a script: its lanes one after the other, at the store that the program begins with.
//!
//! `docs/running.md` of the repository tells the steps.
#![tactic(auto)]

mod lanes;
mod serving;

pub use lanes::serve_lanes;
pub use serving::serve_script;
