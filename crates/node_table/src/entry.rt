//! Entries, and the answers of a table's calls.

use image_layout::Place;
use pkg_names::{Items, Root};

/// The most bytes that a blob has.
pub const BLOB_LIMIT: u64 = 33_554_432;

/// What stands in place of the next page at the end of a chain.
pub const CHAIN_END: u32 = 0xffff_ffff;

/// The numbers of the data pages of a blob, in the order of its bytes.
pub type Chain = Items<u32>;

/// A stored blob: its root, its length in bytes, and its data pages, counted from the first page of the
/// data region.
#[derive(Debug, Drop)]
pub struct Entry {
    pub root: Root,
    pub len: u64,
    pub pages: Chain,
}

/// Why a table was not loaded.
#[derive(Clone, Copy, Debug, PartialEq, Eq)]
pub enum LoadFault {
    /// The disk failed to read.
    Read,
    /// The table is not well formed there.
    Damaged { place: Place },
    NoMemory,
}

/// How a commit ended.
#[derive(Clone, Copy, Debug, PartialEq, Eq)]
pub enum CommitReply {
    Done,
    /// More entries would stand than the table has room for.
    NoNode,
    /// The disk failed to write or to sync.
    Broke,
}
