//! What happens to a store: one event a call, with all that the call answered.

use crate::ends::{
    ActivateEnd, BeginEnd, CheckEnd, CopyEnd, Difference, Miss, ReadEnd, RetainEnd, StageEnd,
    WantEnd,
};
use abr_record::Slot;
use fetch_queue::FetchEnd;
use image_layout::{ImageKind, Sys};
use package_indexes::Choice;
use pkg_names::{Bytes, FilePath, Items, PackagePath, Root, Roots};
use system_lists::{ManifestFault, ManifestFile};

/// One event. Its number is its place in the history, counted from 1.
#[derive(Debug, Drop)]
pub struct Event {
    /// Which lane made the call; the boot is lane 0's.
    pub lane: u32,
    pub act: Act,
    /// A write to the disk failed in this call.
    pub broke: bool,
}

/// A call with its arguments and its answer.
#[derive(Debug, Drop)]
pub enum Act {
    /// The store is opened and this slot runs.
    Boot {
        slot: Slot,
        seen: Looked,
    },
    /// A package is asked for. Its event's number is the ticket.
    Begin {
        path: PackagePath,
        choice: Choice,
        reply: BeginEnd,
        seen: Looked,
    },
    /// The holder of a ticket asks what is missing.
    Want {
        ticket: u64,
        reply: WantEnd,
    },
    /// Room is made for a granted blob of this length; without an end it was made.
    Room {
        root: Root,
        len: u64,
        reply: Option<FetchEnd>,
    },
    /// More bytes came than were declared. Without an end it stands only where a write failed.
    Put {
        root: Root,
        reply: Option<FetchEnd>,
    },
    /// A granted blob's bytes are whole; without an end the blob is stored.
    Land {
        root: Root,
        len: u64,
        reply: Option<FetchEnd>,
        seen: Looked,
    },
    /// A grant ends without bytes.
    Missed {
        root: Root,
        why: Miss,
    },
    /// The holder of a ticket gives it up.
    GaveUp {
        ticket: u64,
    },
    /// A package that is here is opened. The event's number is the directory.
    OpenPath {
        path: PackagePath,
        reply: Option<Root>,
    },
    /// A file of an open package is read whole.
    Read {
        dir: u64,
        file: FilePath,
        reply: ReadEnd,
    },
    /// A file of an open package is read and its root is told.
    Check {
        dir: u64,
        file: FilePath,
        reply: CheckEnd,
    },
    Close {
        dir: u64,
        closed: bool,
    },
    /// What no protected package names is removed.
    Collect {
        reply: Option<Roots>,
    },
    /// These packages, and no others, are retained from now on.
    Retain {
        roots: Roots,
        reply: RetainEnd,
        seen: Looked,
    },
    /// An update to a system of this epoch begins.
    Stage {
        epoch: u64,
        reply: StageEnd,
    },
    /// A part of a file can't be copied into an image. Without an end it stands only where a write failed.
    Copy {
        image: ImageKind,
        dir: u64,
        file: FilePath,
        reply: Option<CopyEnd>,
    },
    /// The images are those of this system, or one of them isn't.
    Seal {
        sys: Sys,
        reply: Option<Difference>,
    },
    /// The sealed system is judged, and is to boot next.
    Activate {
        reply: ActivateEnd,
        seen: Looked,
    },
    /// The update is over.
    LeftStage,
    /// The running system is to stay.
    Commit {
        done: bool,
    },
    /// A manifest of an update is bad.
    Reject {
        file: ManifestFile,
        why: ManifestFault,
    },
    /// The call is refused, since a write failed in the event of this number.
    Refused {
        call: CallName,
        broken: u64,
    },
}

/// A call that is refused, with the values that its line prints.
#[derive(Debug, Drop)]
pub enum CallName {
    Begin(PackagePath),
    Want(u64),
    Room(Root),
    Put(Root),
    Land(Root),
    OpenPath(PackagePath),
    Read {
        dir: u64,
        file: FilePath,
    },
    Check {
        dir: u64,
        file: FilePath,
    },
    Collect,
    /// How many roots were given.
    Retain(u32),
    Stage(u64),
    Copy {
        image: ImageKind,
        dir: u64,
        file: FilePath,
    },
    Seal,
    Activate,
    Commit,
    Reject(ManifestFile),
}

/// A blob that a call first looked at.
#[derive(Debug, Drop)]
pub struct LookedAt {
    pub root: Root,
    pub bytes: Bytes,
}

/// The blobs that a call first looked at.
pub type Looked = Items<LookedAt>;
