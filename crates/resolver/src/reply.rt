//! How a resolve ends.

ghost use Rattle.std.specs.Prelude.{◌≡◌};
ghost use Rattle.resolver.specs.Steps.{reply_of};

use pkg_names::Root;
use store_model::{Cause, Dir};

/// The reply of `resolve`.
#[derive(Clone, Copy, Debug, PartialEq, Eq)]
pub enum ResolveReply {
    /// The package is open.
    Resolved(Dir),
    InRecovery,
    NotFound,
    ListingFault,
    /// A blob could not be had, or the package is none.
    Failed(Cause),
    DiskRead,
    Rotten { root: Root, got: Root },
    /// A write to the disk failed in the event of this number.
    Broken { number: u64 },
    NoMemory,
}

// Why a fetch is the last one of its resolve.
#[derive(Clone, Copy, Debug, PartialEq, Eq)]
pub(crate) enum Stop {
    Broken { number: u64 },
    NoMemory,
}

impl Stop {
    pub(crate) fn reply(self) -> ResolveReply
        ensures { result ≡ reply_of self }
    {
        match self {
            Stop::Broken { number } => ResolveReply::Broken { number },
            Stop::NoMemory => ResolveReply::NoMemory,
        }
    }
}
