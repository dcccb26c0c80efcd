//! The sets of packages that a store knows by their paths, and which of them it protects.
#![tactic(auto)]

mod indexes;
mod laws;
mod lists;

pub use indexes::Indexes;
pub use laws::roots_stand_once;
use pkg_names::{PackagePath, Root};

/// What is known of a package's root before its path is looked up.
#[derive(Clone, Copy, Debug, PartialEq, Eq)]
pub enum Choice {
    /// The request names the root.
    Pinned(Root),
    /// The repository lists the root for the path.
    Listed(Root),
    /// The repository does not list the path.
    Absent,
    /// The repository could not be asked.
    Failed,
}

/// The root that a request is for.
#[derive(Clone, Copy, Debug, PartialEq, Eq)]
pub enum Chosen {
    Is(Root),
    /// There is none: the repository does not list the path.
    NotFound,
    /// There is none, and the repository could not be asked.
    ListingFault,
}

/// A set whose packages have paths.
#[derive(Clone, Copy, Debug, PartialEq, Eq)]
pub enum PathSet {
    /// The packages of the running system.
    Base,
    /// The packages that the running system lists as cached.
    Cached,
    /// The packages that were opened under their paths since the boot.
    Active,
}

/// A package that arrives: its ticket, the lane that holds it, its path and its root.
#[derive(Debug, Drop)]
pub struct Arriving {
    pub ticket: u64,
    pub lane: u32,
    pub path: PackagePath,
    pub root: Root,
}
