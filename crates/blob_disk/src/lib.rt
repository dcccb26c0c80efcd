//! The blobs of a disk: a stock that survives a power loss, and drafts that become blobs.
//!
//! `docs/blobs.md` of the repository has the rules.
#![tactic(auto)]

mod answers;
mod blobs;
mod checking;
mod entries;
mod landing;
mod marks;
mod pools;
mod reading;

pub use answers::{BlobFault, CheckFault, LandEnd, PutEnd, RemoveEnd, RoomFault, WriteEnd};
pub use blobs::Blobs;
