//! How calls of the store end.

use abr_record::Slot;
use fetch_queue::FetchEnd;
use image_layout::{ImageKind, ImageSum};
use package_book::PackageFault;
use pkg_names::{Bytes, Root};
use system_lists::SystemFault;

/// The longest file that is read whole, in bytes.
pub const READ_LIMIT: usize = 262_144;

/// The most bytes that are put under a claim, or copied into an image, at once.
pub const PIECE_LIMIT: usize = 65_536;

/// What a package that is asked for is answered.
#[derive(Clone, Copy, Debug, PartialEq, Eq)]
pub enum BeginEnd {
    /// The package with this root arrives.
    Ticket(Root),
    InRecovery,
    NotFound,
    ListingFault,
    DiskRead,
    Rotten { root: Root, got: Root },
}

/// What the holder of a ticket is answered.
#[derive(Clone, Copy, Debug, PartialEq, Eq)]
pub enum WantEnd {
    /// This blob is missing, and this lane is to fetch it.
    Fetch(Root),
    /// All blobs of the package are stored. The event's number is the directory.
    Opened,
    Failed(Cause),
}

/// Why a package can't be had.
#[derive(Clone, Copy, Debug, PartialEq, Eq)]
pub enum Cause {
    /// One of its blobs could not be fetched.
    Fetch(FetchEnd),
    /// Its meta blob is no package.
    NotAPackage { why: PackageFault },
}

/// Why a grant ended without bytes.
#[derive(Clone, Copy, Debug, PartialEq, Eq)]
pub enum Miss {
    Absent,
    Read,
    Memory,
}

/// What the reader of a file is answered.
#[derive(Debug, Drop)]
pub enum ReadEnd {
    Got(Bytes),
    BadDir,
    NoFile,
    TooLong { len: u64 },
    DiskRead,
    Rotten { root: Root, got: Root },
}

/// What a check of a file finds.
#[derive(Clone, Copy, Debug, PartialEq, Eq)]
pub enum CheckEnd {
    /// The root and the length of the bytes that were read.
    Checked { root: Root, len: u64 },
    BadDir,
    NoFile,
    DiskRead,
    Rotten { root: Root, got: Root },
}

/// What becomes of the roots that are to be retained.
#[derive(Clone, Copy, Debug, PartialEq, Eq)]
pub enum RetainEnd {
    Done,
    SlotInUse,
    DiskRead,
    Rotten { root: Root, got: Root },
}

/// Whether an update may begin.
#[derive(Clone, Copy, Debug, PartialEq, Eq)]
pub enum StageEnd {
    /// The slot that is to be filled.
    Turn { slot: Slot },
    InRecovery,
    Busy { lane: u32 },
    NotCommitted,
    /// The running system has this later epoch.
    Older { have: u64 },
}

/// Why a part of a file isn't copied into an image.
#[derive(Clone, Copy, Debug, PartialEq, Eq)]
pub enum CopyEnd {
    BadDir,
    NoFile,
    TooLarge { len: u64, room: u64 },
    DiskRead,
}

/// An image that is another one than its system says, and what it is.
#[derive(Clone, Copy, Debug, PartialEq, Eq)]
pub struct Difference {
    pub image: ImageKind,
    pub got: ImageSum,
}

/// Whether the staged system is booted next.
#[derive(Clone, Copy, Debug, PartialEq, Eq)]
pub enum ActivateEnd {
    Active { slot: Slot },
    BaseMissing { root: Root },
    NotASystem { why: SystemFault },
    DiskRead,
    Rotten { root: Root, got: Root },
}
