//! Whether a system is whole, judged by what is at hand of it.
#![tactic(auto)]

mod judging;

pub use judging::{Evidence, Judgement, judge, listed};
