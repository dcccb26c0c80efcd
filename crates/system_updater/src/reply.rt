//! How an update ends.

ghost use Rattle.std.specs.Prelude.{◌≡◌};
ghost use Rattle.system_updater.specs.Serving.{refusal_of};

use abr_record::Slot;
use image_layout::{ImageKind, ImageSum};
use pkg_names::Root;
use resolver::ResolveReply;
use system_lists::{ManifestFault, ManifestFile, SystemFault};

/// The reply of `update`.
#[derive(Clone, Copy, Debug, PartialEq, Eq)]
pub enum UpdateReply {
    /// The system is in this slot, and boots next.
    Staged {
        slot: Slot,
    },
    /// A package could not be had.
    Resolve(ResolveReply),
    /// A manifest is bad, and that is noted.
    Manifest {
        file: ManifestFile,
        why: ManifestFault,
    },
    /// This lane has an update under way.
    Busy {
        lane: u32,
    },
    NotCommitted,
    /// The running system has this later epoch.
    Epoch {
        have: u64,
        want: u64,
    },
    /// The package of the image has no such file.
    NoFile {
        image: ImageKind,
    },
    /// The file is longer than the room for the image.
    TooLarge {
        image: ImageKind,
        len: u64,
        room: u64,
    },
    /// The image is another one than the manifest says.
    Differs {
        image: ImageKind,
        got: ImageSum,
    },
    BaseMissing {
        root: Root,
    },
    NotASystem {
        why: SystemFault,
    },
    DiskRead,
    Rotten {
        root: Root,
        got: Root,
    },
    /// A write to the disk failed in the event of this number.
    Broken {
        number: u64,
    },
    NoMemory,
    /// No update begins in recovery. It is never replied: the resolve before is refused.
    InRecovery,
    /// Nothing is retained while another slot can be booted. It is never replied.
    SlotInUse,
    /// A directory isn't open. It is never replied.
    BadDir,
}

// The reply of an update whose resolve was refused.
pub(crate) fn refusal_of(reply: ResolveReply) -> UpdateReply
    ensures { result ≡ refusal_of reply }
{
    match reply {
        ResolveReply::NoMemory => UpdateReply::NoMemory,
        reply => UpdateReply::Resolve(reply),
    }
}
