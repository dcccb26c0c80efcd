//! Publishing a folder: its files become a package's meta blob, blobs, and a line of a listing.
//!
//! `docs/publishing.md` of the repository says it in words.
#![tactic(auto)]

mod draft;
mod files;
mod line;
mod listing;
mod memory_post;
mod memory_tree;
mod package;
mod post;
mod publishing;
mod tree;

pub use memory_post::MemPost;
pub use memory_tree::MemTree;
pub use post::{Post, PostListing, PostReply};
pub use publishing::{FILE_LIMIT, PublishEnd, limits, publish};
pub use tree::{Tree, TreeReply};

#[cfg(test)]
mod tests;
