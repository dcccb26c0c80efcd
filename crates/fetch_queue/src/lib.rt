//! The fetches under way: which lane fetches which root, and how a fetch ended.
#![tactic(auto)]

mod laws;
mod queue;

pub use laws::{claims_come_and_go, first_marks_stay};
use pkg_names::Root;
pub use queue::{ClaimEntry, MarkEntry, Queue};

#[cfg(test)]
mod tests;

/// How a fetch ended without its blob.
#[derive(Clone, Copy, Debug, PartialEq, Eq)]
pub enum FetchEnd {
    /// The repository has no such blob.
    Absent,
    /// The repository could not be read.
    Read,
    /// Fewer bytes came than were declared.
    Short { have: u64 },
    /// More bytes came than were declared.
    Long { len: u64 },
    /// The bytes have another root.
    Wrong { got: Root },
    /// The blob is declared longer than any blob may be.
    TooLarge { len: u64 },
    /// The table of blobs is full.
    NoNode,
    /// Fewer pages are free than the blob needs.
    NoSpace { need: u32, free: u32 },
}
