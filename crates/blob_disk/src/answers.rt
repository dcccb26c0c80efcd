//! The answers of the calls.

use pkg_names::{Bytes, Root};

/// Why no draft was made. The order is that in which they are judged.
#[derive(Clone, Copy, Debug, PartialEq, Eq)]
pub enum RoomFault {
    /// The blob would be longer than any may be.
    TooLarge { len: u64 },
    /// As many blobs and drafts are there as the table has entries.
    NoNode,
    /// Fewer data pages are free than are needed.
    NoSpace { need: u32, free: u32 },
    NoMemory,
}

/// How a piece was put.
#[derive(Clone, Copy, Debug, PartialEq, Eq)]
pub enum PutEnd {
    Taken,
    /// More bytes would have come than were declared.
    Long { len: u64 },
    /// The disk failed to write.
    Broke,
}

/// How the full pages of a draft were written.
#[derive(Clone, Copy, Debug, PartialEq, Eq)]
pub enum WriteEnd {
    Written,
    /// The disk failed to write.
    Broke,
}

/// What came of a draft.
#[derive(Drop)]
pub enum LandEnd {
    /// The blob is stored. Its bytes, where the draft kept them.
    Landed(Option<Bytes>),
    /// Fewer bytes came than were declared.
    Short { have: u64 },
    /// As many bytes came, and they have another root.
    Wrong { got: Root },
    /// The disk failed to write or to sync.
    Broke,
}

/// Why a blob was not read.
#[derive(Clone, Copy, Debug, PartialEq, Eq)]
pub enum BlobFault {
    /// It is longer than the caller's limit.
    TooLong { len: u64 },
    /// The disk failed to read.
    Read,
    /// The bytes read have another root.
    Rotten { got: Root },
    NoMemory,
}

/// Why a blob was not checked.
#[derive(Clone, Copy, Debug, PartialEq, Eq)]
pub enum CheckFault {
    /// The disk failed to read.
    Read,
    /// The bytes read have another root.
    Rotten { got: Root },
}

/// How blobs were removed.
#[derive(Clone, Copy, Debug, PartialEq, Eq)]
pub enum RemoveEnd {
    Removed,
    /// The disk failed to write or to sync.
    Broke,
}
