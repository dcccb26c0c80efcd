//! The table of an image: which blobs are stored, and on which pages each of them lies.
//!
//! Two copies of it stand on the disk, and a selector tells which of them counts. `docs/disk.md` of the
//! repository has their pages, and the order of a commit's writes.
#![tactic(auto)]

mod admit;
mod copy;
mod entry;
mod index;
mod laws;
mod layout;
mod pages;
mod rows;
mod selector;
mod table;
mod write;

pub use entry::{BLOB_LIMIT, CHAIN_END, Chain, CommitReply, Entry, LoadFault};
pub use laws::limits;
pub use table::Table;
