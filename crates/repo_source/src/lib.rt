//! Where packages and their blobs come from: what a repository promises, and one in memory.
//!
//! `docs/repositories.md` of the repository says it in words.
#![tactic(auto)]

mod file;
mod laws;
mod memory;
mod repo;

pub use file::RepoFile;
pub use laws::pieces_make_the_file;
pub use memory::MemRepo;
pub use repo::{FetchReply, FindReply, NextReply, Repo};

#[cfg(test)]
mod tests;
