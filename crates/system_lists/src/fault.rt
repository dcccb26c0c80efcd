//! Why a list, a manifest or a system is refused.

ghost use Rattle.std.specs.Prelude.{◌≡◌};
ghost use Rattle.system_lists.specs.declared.fault.CachedFault.TheVariants as cached;
ghost use Rattle.system_lists.specs.declared.fault.ManifestFault.TheVariants as manifest;
ghost use Rattle.system_lists.specs.Faults.{cached_fault, manifest_fault};

use crate::document::DocumentFault;
use pkg_names::Root;
use std::alloc::AllocError;

/// What is wrong with a static list. Lines are counted from 1.
#[derive(Clone, Copy, Debug, PartialEq, Eq)]
pub enum StaticFault {
    /// The line isn't a path with its variant, `=` and a root; or it is line 4097.
    Line { n: u32 },
    /// The path stood before.
    Repeat { n: u32 },
    NoMemory,
}

/// What is wrong with a cached list. Entries are counted from 1.
#[derive(Clone, Copy, Debug, PartialEq, Eq)]
pub enum CachedFault {
    /// The text is no JSON object, or it has version 1 and no array `content`.
    Json,
    /// The version is neither the string `1` nor the number 1.
    Version,
    /// The entry isn't a URL with a pin and without a file, its path stood before, or it is entry 4097.
    Entry { n: u32 },
    NoMemory,
}

impl From<AllocError> for CachedFault {
    ghost from_gives = { λ _ e. e ≡ cached.NoMemory };

    fn from(_e: AllocError) -> CachedFault {
        CachedFault::NoMemory
    }
}

impl From<DocumentFault> for CachedFault {
    ghost from_gives = { λ fault e. e ≡ cached_fault fault };

    fn from(fault: DocumentFault) -> CachedFault {
        match fault {
            DocumentFault::Json => CachedFault::Json,
            DocumentFault::Version => CachedFault::Version,
            DocumentFault::NoMemory => CachedFault::NoMemory,
        }
    }
}

/// Why a system isn't one that can boot.
#[derive(Clone, Copy, Debug, PartialEq, Eq)]
pub enum SystemFault {
    /// The bytes of the system package are no book.
    NoBook,
    /// The system package has no static list.
    NoStatic,
    BadStatic(StaticFault),
    BadCached(CachedFault),
    /// A list has this many bytes, more than one is read of.
    LongList { len: u64 },
    /// The bytes of a base package are no book.
    BadBase { root: Root },
}

/// A manifest of an update package.
#[derive(Clone, Copy, Debug, PartialEq, Eq)]
pub enum ManifestFile {
    Epoch,
    Packages,
    Images,
}

/// What is wrong with a manifest. Entries and partitions are counted from 1.
#[derive(Clone, Copy, Debug, PartialEq, Eq)]
pub enum ManifestFault {
    Json,
    Version,
    Entry { n: u32 },
    /// No entry is the system package.
    NoSystem,
    /// The second partition of one slot and type.
    Twice { n: u32 },
    NoZbi,
    /// The update package has no such file.
    Missing,
    /// The file has this many bytes, more than one is read of.
    TooLong { len: u64 },
    NoMemory,
}

impl From<AllocError> for ManifestFault {
    ghost from_gives = { λ _ e. e ≡ manifest.NoMemory };

    fn from(_e: AllocError) -> ManifestFault {
        ManifestFault::NoMemory
    }
}

impl From<DocumentFault> for ManifestFault {
    ghost from_gives = { λ fault e. e ≡ manifest_fault fault };

    fn from(fault: DocumentFault) -> ManifestFault {
        match fault {
            DocumentFault::Json => ManifestFault::Json,
            DocumentFault::Version => ManifestFault::Version,
            DocumentFault::NoMemory => ManifestFault::NoMemory,
        }
    }
}
