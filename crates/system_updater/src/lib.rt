//! Updating a system: the update package is resolved and read, its packages and images are brought to the store,
//! and the other slot is filled with them, sealed, and made the one that boots next.
//!
//! `docs/updating.md` of the repository tells the steps, and what each refusal leaves.
#![tactic(auto)]

mod closing;
mod images;
mod laws;
mod manifests;
mod packages;
mod plan;
mod reply;
mod system;
mod updating;

pub use laws::{replies_have_causes, staged_updates_are_in_order, updates_leave_nothing};
pub use reply::UpdateReply;
pub use updating::update;
