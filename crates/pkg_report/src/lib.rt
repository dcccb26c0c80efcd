//! How the program ends: its exit status, and its one line on standard error.
//!
//! `docs/formats.md` of the repository has both.
#![tactic(auto)]

mod ending;
mod lines;
mod memory_report;
mod publish_lines;
mod report;

pub use ending::{Ending, Opening};
pub use memory_report::MemReport;
pub use publish_lines::{Publication, tell_publication};
pub use report::{NotSaid, Report, Told, Untold, WriterReport, tell};

#[cfg(test)]
mod tests;
