//! The state of a store in memory: each answer and each next state of the model.
#![tactic(auto)]

mod books;
mod booting;
mod changes;
mod files;
mod holdings;
mod judging;
mod laws;
mod looks;
mod marking;
mod rest;
mod retaining;
mod room;
mod settling;
mod state;
mod turns;

pub use files::FileAt;
pub use judging::{Activation, Hand};
pub use laws::{
    collections_are_settled, openings_are_settled, still_acts_are_settled, stores_are_ready,
};
pub use state::{Standing, State};
