//! What a desk gives out, and what it replies.

use crate::ends::Cause;
use abr_record::Slot;
use fetch_queue::FetchEnd;
use image_layout::{ImageKind, ImageSum};
use pkg_names::{Bytes, Root, Roots};
use system_lists::SystemFault;

/// A package that arrives: the number of the event that made it, and its root. Whoever has it ends it by
/// `want` or `give_up`.
#[derive(Debug, Drop)]
pub struct Ticket {
    pub number: u64,
    pub root: Root,
}

/// A blob that its holder fetches. Whoever has it ends it by `room`, `put`, `land` or `miss`.
#[derive(Debug, Drop)]
pub struct Claim {
    pub root: Root,
}

/// An open directory, by the number of the event that made it.
#[derive(Clone, Copy, Debug, PartialEq, Eq)]
pub struct Dir {
    pub number: u64,
}

/// The reply of `begin`.
#[derive(Debug, Drop)]
pub enum BeginReply {
    Made(Ticket),
    InRecovery,
    NotFound,
    ListingFault,
    DiskRead,
    Rotten { root: Root, got: Root },
    Broken { number: u64 },
    NoMemory,
}

/// The reply of `want`.
#[derive(Debug, Drop)]
pub enum WantReply {
    Failed(Cause),
    Opened(Dir),
    /// The blob is to be fetched.
    Fetch(Ticket, Claim),
    /// Others fetch what is missing. The number is the bell's.
    NotYet(Ticket, u64),
    Broken { number: u64 },
    NoMemory(Ticket),
}

/// The reply of `room`.
#[derive(Debug, Drop)]
pub enum RoomReply {
    Made(Claim),
    Ended(FetchEnd),
    Broken { number: u64 },
    NoMemory(Claim),
}

/// The reply of `put`.
#[derive(Debug, Drop)]
pub enum PutReply {
    Taken(Claim),
    Ended(FetchEnd),
    Broken { number: u64 },
}

/// The reply of `land`.
#[derive(Debug, Drop)]
pub enum LandReply {
    Landed,
    Ended(FetchEnd),
    Broken { number: u64 },
    NoMemory(Claim),
}

/// The reply of `open_path`.
#[derive(Debug, Drop)]
pub enum OpenReply {
    Opened(Dir),
    NotHere,
    Broken { number: u64 },
    NoMemory,
}

/// The reply of `read`.
#[derive(Debug, Drop)]
pub enum ReadReply {
    Got(Bytes),
    BadDir,
    NoFile,
    TooLong { len: u64 },
    DiskRead,
    Rotten { root: Root, got: Root },
    Broken { number: u64 },
    NoMemory,
}

/// The reply of `check`.
#[derive(Debug, Drop)]
pub enum CheckReply {
    Checked { root: Root, len: u64 },
    BadDir,
    NoFile,
    DiskRead,
    Rotten { root: Root, got: Root },
    Broken { number: u64 },
    NoMemory,
}

/// The reply of `close`. Memory is wanted only where the number isn't open.
#[derive(Debug, Drop)]
pub enum CloseReply {
    Closed,
    BadDir,
    NoMemory,
}

/// The reply of `collect`.
#[derive(Debug, Drop)]
pub enum CollectReply {
    Removed(Roots),
    NotCommitted,
    Broken { number: u64 },
    NoMemory,
}

/// The reply of `retain`.
#[derive(Debug, Drop)]
pub enum RetainReply {
    Done,
    SlotInUse,
    DiskRead,
    Rotten { root: Root, got: Root },
    Broken { number: u64 },
    NoMemory,
}

/// The reply of `stage`.
#[derive(Debug, Drop)]
pub enum StageReply {
    Turn { slot: Slot },
    InRecovery,
    Busy { lane: u32 },
    NotCommitted,
    Older { have: u64 },
    Broken { number: u64 },
    NoMemory,
}

/// The reply of `copy_part`.
#[derive(Debug, Drop)]
pub enum CopyReply {
    BadDir,
    NoFile,
    TooLarge { len: u64, room: u64 },
    DiskRead,
    /// The image has so many bytes, and the file has more.
    More { have: u64 },
    /// The image has so many bytes, and the file has none behind that place.
    Whole { len: u64 },
    Broken { number: u64 },
    NoMemory,
}

/// The reply of `seal`.
#[derive(Debug, Drop)]
pub enum SealReply {
    Sealed,
    Differs { image: ImageKind, got: ImageSum },
    Broken { number: u64 },
    NoMemory,
}

/// The reply of `activate`.
#[derive(Debug, Drop)]
pub enum ActivateReply {
    Active { slot: Slot },
    BaseMissing { root: Root },
    NotASystem { why: SystemFault },
    DiskRead,
    Rotten { root: Root, got: Root },
    Broken { number: u64 },
    NoMemory,
}

/// The reply of `commit`.
#[derive(Debug, Drop)]
pub enum CommitReply {
    Committed,
    NotPending,
    Broken { number: u64 },
    NoMemory,
}

/// The reply of `reject`.
#[derive(Debug, Drop)]
pub enum RejectReply {
    Noted,
    Broken { number: u64 },
    NoMemory,
}
