//! Why bytes are no book.

ghost use Rattle.std.specs.Prelude.{◌≡◌};
ghost use Rattle.package_book.specs.declared.fault.PackageFault.TheVariants.{NoMemory};

use far_archive::FarFault;
use meta_contents::{ContentsFault, PackageNameFault};
use std::alloc::AllocError;

/// What is wrong with a meta blob: the first fault in the order of `docs/books.md`, which is that of
/// the variants.
#[derive(Clone, Copy, Debug, PartialEq, Eq)]
pub enum PackageFault {
    /// The blob has this many bytes, which is more than the limit.
    Long { len: u64 },
    /// The blob is no archive.
    Far(FarFault),
    /// The archive has no `meta/contents`.
    NoContents,
    Contents(ContentsFault),
    /// The archive has no `meta/package`.
    NoPackage,
    Package(PackageNameFault),
    NoMemory,
}

impl From<AllocError> for PackageFault {
    ghost from_gives = { λ _ e. e ≡ NoMemory };

    fn from(_e: AllocError) -> PackageFault {
        PackageFault::NoMemory
    }
}

/// What is wrong with bytes that are no book, and these bytes.
#[derive(Debug, Drop)]
pub struct NotABook {
    pub fault: PackageFault,
    pub bytes: Vec<u8>,
}
