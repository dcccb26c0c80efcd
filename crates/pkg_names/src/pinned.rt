use crate::path::PackagePath;
use crate::root::Root;

/// A package path with the root of the package's meta blob.
#[derive(Debug, Drop)]
pub struct Pinned {
    pub path: PackagePath,
    pub root: Root,
}
