//! What a lane does in a test.

use image_layout::{ImageKind, Sys};
use package_indexes::Choice;
use pkg_names::Root;
use store_model::Miss;
use system_lists::{ManifestFault, ManifestFile};

/// A call of a lane. What the lane holds is handed over with it.
#[derive(Clone, Copy)]
pub enum Step<'a> {
    Begin(&'a [u8], Choice),
    Want,
    GiveUp,
    Room(u64),
    /// These bytes are put, and landed.
    Land(&'a [u8]),
    Miss(Miss),
    Open(&'a [u8]),
    Read(u64, &'a [u8]),
    Check(u64, &'a [u8]),
    Close(u64),
    Collect,
    Retain(&'a [Root]),
    Stage(u64),
    Copy(ImageKind, u64, &'a [u8], Copied),
    Seal(Sys),
    Activate,
    LeaveStage,
    Commit,
    Reject(ManifestFile, ManifestFault),
    Pause(u64),
}

/// What a part that is copied is to leave. No event tells it.
#[derive(Clone, Copy, PartialEq, Eq)]
pub enum Copied {
    /// Nothing was copied, and an event says why.
    Nothing,
    /// The image has so many bytes, and the file has more.
    More(u64),
    /// The image has so many bytes, and the file has none behind that place.
    Whole(u64),
}
