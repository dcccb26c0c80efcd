//! The manifests of an update package: which packages and which images the next system has, and its epoch.
//!
//! `docs/update_manifests.md` has the formats, and what is proved of the readers.
#![tactic(auto)]

mod epoch;
mod found;
mod image;
mod images;
mod laws;
mod packages;
mod partition;

pub use epoch::read_epoch;
pub use image::{ImageRef, Images};
pub use images::read_images;
pub use laws::{images_name_files, manifests_have_a_first_fault, texts_bring_what_is_read};
pub use packages::read_packages;
pub use system_lists::{ManifestFault, ManifestFile, PinnedList};
