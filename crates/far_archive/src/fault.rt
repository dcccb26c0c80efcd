//! Why a text is no archive, or a list of files can't be written as one.

ghost use Rattle.std.specs.Prelude.{◌≡◌};
ghost use Rattle.far_archive.specs.declared.fault.WriteFault.TheVariants.{NoMemory};

use std::alloc::AllocError;

/// What is wrong with an archive: the first fault in the order of `docs/archive.md`. Entries are
/// counted from 0.
#[derive(Clone, Copy, Debug, PartialEq, Eq)]
pub enum FarFault {
    Magic,
    Index,
    Directory,
    Name { entry: u32 },
    Range { entry: u32 },
}

/// Why no archive was written.
#[derive(Clone, Copy, Debug, PartialEq, Eq)]
pub enum WriteFault {
    /// The name of this entry, counted from 0, isn't greater than the one before.
    Order { entry: u32 },
    NoMemory,
}

impl From<AllocError> for WriteFault {
    ghost from_gives = { λ _ e. e ≡ NoMemory };

    fn from(_e: AllocError) -> WriteFault {
        WriteFault::NoMemory
    }
}
