//! Resolving a package at a store: it is asked for, what is missing of it is fetched, and it is opened.
//!
//! `docs/resolving.md` of the repository tells the steps, and what each refusal leaves.
#![tactic(auto)]

mod fetching;
mod laws;
mod pieces;
mod reply;
mod resolving;
mod rounds;

pub use laws::{resolves_leave_nothing, resolves_open_what_is_chosen, runs_resolve_one_package};
pub use reply::ResolveReply;
pub use resolving::resolve;
