//! A lock that hands out turns in the order of tickets, and whose rule carries the history of the
//! value that it guards.
//!
//! `docs/turn_lock.md` of the repository says what a value's type must do.
#![tactic(auto)]

mod board;
mod logged;
mod plays;
mod seat;
mod turn;

pub use logged::Logged;
pub use seat::{Inside, Seat};
pub use turn::{MakeRefusal, Turn, make, make_from};
