//! The ledger of a store in memory: its state, with the events that led to it.
#![tactic(auto)]

mod claims;
mod directories;
mod history;
mod ledger;
mod stages;
mod tickets;
mod whole;

pub use ledger::Ledger;
