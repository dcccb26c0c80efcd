//! What the manifests of an update package say.

use update_manifest::{Images, PinnedList};

/// The next system: its epoch, its packages, and its images.
#[derive(Debug, Drop)]
pub(crate) struct Plan {
    pub(crate) epoch: u64,
    pub(crate) packages: PinnedList,
    pub(crate) images: Images,
}
