//! Publishing from a folder of the host into one: the files below a folder, and a folder that is a repository.
//!
//! `docs/publishing.md` of the repository says it in words.
#![tactic(auto)]

mod files;
mod post;
mod read;
mod tree;
mod walk;

pub use files::{FolderFiles, GatherFault, HostFolders, PutFiles};
pub use post::{FolderPost, PostTrouble};
pub use tree::FolderTree;
pub use walk::{FOLDER_LIMIT, GATHER_LIMIT, limits};

#[cfg(test)]
mod tests;
