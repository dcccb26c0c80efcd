//! Why a text is no contents or names no package.

ghost use Rattle.std.specs.Prelude.{◌≡◌};
ghost use Rattle.meta_contents.specs.declared.fault.AddFault.TheVariants as add;
ghost use Rattle.meta_contents.specs.declared.fault.PackageNameFault.TheVariants as naming;

use std::alloc::AllocError;

/// What is wrong with a contents text. Lines are counted from 1.
#[derive(Clone, Copy, Debug, PartialEq, Eq)]
pub enum ContentsFault {
    Utf8,
    /// No `=`, or no file path before the last one, or no root behind it.
    Line { n: u32 },
    /// The path begins with `meta/`.
    InMeta { n: u32 },
    /// The path stood before.
    Repeat { n: u32 },
    /// There are more than 4096 lines.
    TooMany,
    NoMemory,
}

/// Why a pair was not added.
#[derive(Clone, Copy, Debug, PartialEq, Eq)]
pub enum AddFault {
    /// The path begins with `meta/`.
    InMeta,
    /// The path is there.
    Repeat,
    /// 4096 pairs are there.
    TooMany,
    NoMemory,
}

impl From<AllocError> for AddFault {
    ghost from_gives = { λ _ e. e ≡ add.NoMemory };

    fn from(_e: AllocError) -> AddFault {
        AddFault::NoMemory
    }
}

/// Why a text names no package.
#[derive(Clone, Copy, Debug, PartialEq, Eq)]
pub enum PackageNameFault {
    /// The text is no JSON object.
    Json,
    /// `name` or `version` is missing or no string.
    Field,
    NoMemory,
}

impl From<AllocError> for PackageNameFault {
    ghost from_gives = { λ _ e. e ≡ naming.NoMemory };

    fn from(_e: AllocError) -> PackageNameFault {
        PackageNameFault::NoMemory
    }
}
