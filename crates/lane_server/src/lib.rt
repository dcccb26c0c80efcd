//! Serving the requests of a lane at its desk, in order.
//!
//! `docs/scripts.md` of the repository tells the requests.
#![tactic(auto)]

mod calls;
mod laws;
mod names;
mod packages;
mod serving;

pub use laws::{names_are_bound_and_unbound, requests_are_done_in_order};
pub use serving::serve_lane;
