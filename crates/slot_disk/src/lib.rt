//! The boot record and the slots of an image: each change of the record is in every image whole or not at
//! all, and a slot that is sealed is good in every image.
//!
//! `docs/disk.md` of the repository has their pages, and the order of the writes.
#![tactic(auto)]

mod answers;
mod areas;
mod filling;
mod header;
mod load;
mod part;
mod read;
mod record_page;
mod seal;
mod slots;
mod write;

pub use answers::{SealEnd, SlotEnd, SlotFault};
pub use filling::Filling;
pub use image_layout::ImageKind;
pub use slots::Slots;
