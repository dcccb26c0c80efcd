//! A repository in a folder of the host: its listing, and its blobs by their roots.
//!
//! `docs/repositories.md` of the repository tells what such a folder has.
#![tactic(auto)]

mod files;
mod folder;
mod listing;

pub use files::{BlobFiles, HostFiles};
pub use folder::DirRepo;
pub use listing::{DirFault, read_listing};

#[cfg(test)]
mod tests;
