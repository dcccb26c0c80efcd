//! What lies where on a disk image, and what a sealed slot holds.
//!
//! `docs/disk.md` of the repository has the regions and the super page.
#![tactic(auto)]

mod geometry;
mod laws;
mod super_page;

use abr_record::Slot;
pub use geometry::{
    Geometry, RECORD_PAGE, SELECTOR_PAGE, SUPER_PAGE, VBMETA_PAGES, data_start, slot_size,
    slot_start, table_pages, table_start, total_pages,
};
pub use laws::regions_follow;
use pkg_names::Root;
pub use super_page::{SuperFault, read_super, write_super};

/// One of the two images of a slot.
#[derive(Clone, Copy, Debug, PartialEq, Eq)]
pub enum ImageKind {
    Zbi,
    Vbmeta,
}

/// An image's length in bytes and its SHA-256.
#[derive(Clone, Copy, Debug, PartialEq, Eq)]
pub struct ImageSum {
    pub len: u64,
    pub sha: [u8; 32],
}

/// The system of a sealed slot: the root of its system package, its epoch, and the sums of its images.
#[derive(Clone, Copy, Debug, PartialEq, Eq)]
pub struct Sys {
    pub system: Root,
    pub epoch: u64,
    pub zbi: ImageSum,
    pub vbmeta: ImageSum,
}

/// Where an image was found damaged.
#[derive(Clone, Copy, Debug, PartialEq, Eq)]
pub enum Place {
    Super,
    Selector,
    /// The disk page of the first bad entry.
    Table { page: u32 },
    Blob { root: Root },
    SlotPlace { slot: Slot },
}

#[cfg(test)]
mod tests;
