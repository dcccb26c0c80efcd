//! What the calls answer.

use abr_record::Slot;
use image_layout::{ImageKind, ImageSum};

/// Why slots were not loaded.
#[derive(Clone, Copy, Debug, PartialEq, Eq)]
pub enum SlotFault {
    /// The disk failed to read.
    Read,
    /// The first slot of R, A and B that has to be good has no good header or image.
    Damaged { slot: Slot },
}

/// How a write ended.
#[derive(Clone, Copy, Debug, PartialEq, Eq)]
pub enum SlotEnd {
    Done,
    /// The disk failed. Nothing can be written with this value any more.
    Broke,
}

/// How a seal ended.
#[derive(Clone, Copy, Debug, PartialEq, Eq)]
pub enum SealEnd {
    Sealed,
    /// The first image, zbi before vbmeta, whose length or SHA-256 is another than the system's.
    Differs { image: ImageKind, got: ImageSum },
    /// The disk failed. Nothing can be written with these values any more.
    Broke,
}
