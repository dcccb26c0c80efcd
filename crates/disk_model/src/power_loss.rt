//! A disk after a power loss.

ghost use Rattle.std.specs.Prelude.{◌≡◌, ◌≢◌, ℕ, [], length, Some, IfOk, IfErr, OnOk};
ghost use Rattle.std.specs.List.{All};
ghost use Rattle.disk_model.specs.Past.{page_at};
ghost use Rattle.disk_model.specs.Images.{IsImage};
ghost use Rattle.disk_model.specs.Disks.{new_mem};
ghost use Rattle.disk_model.specs.Picks.{synced_contents, AreGood, AreLastPicks, HasCause, Takes};

use crate::mem::MemDisk;
use std::alloc::{AllocError, AllocFailed, Global};

/// The value that an act wrote to a page, or failed to. Acts are counted from 0.
#[derive(Clone, Copy, Debug, PartialEq, Eq)]
pub struct Pick {
    pub page: u32,
    pub act: u64,
}

/// Why a disk was not restarted.
#[derive(Clone, Copy, Debug, PartialEq, Eq)]
pub enum RestartFault {
    /// The pick of this number, counted from 0, names no write of its page after the last sync, or a
    /// page that was picked already.
    BadPick { n: u32 },
    NoMemory,
}

impl From<AllocError> for RestartFault {
    ghost use Rattle.std.specs.Prelude.{◌≡◌};
    ghost use Rattle.disk_model.specs.declared.power_loss.RestartFault.TheVariants.{NoMemory};

    ghost from_gives = { λ _ e. e ≡ NoMemory };

    fn from(_: AllocError) -> Self {
        RestartFault::NoMemory
    }
}

impl<T: Drop> From<AllocFailed<T>> for RestartFault {
    ghost use Rattle.std.specs.Prelude.{◌≡◌};
    ghost use Rattle.disk_model.specs.declared.power_loss.RestartFault.TheVariants.{NoMemory};

    ghost from_gives = { λ _ e. e ≡ NoMemory };

    fn from(_: AllocFailed<T>) -> Self {
        RestartFault::NoMemory
    }
}

/// The disk as a power loss may leave it: each picked page has the value of the pick's act, and each
/// other page what stood there at the last sync. The new disk has no acts and no failing calls.
pub fn restart(alloc: Global, disk: &MemDisk, picks: &[Pick]) -> Result<MemDisk, RestartFault>
    ensures good { OnOk result (AreGood disk.now.past.trail picks.now) }
    ensures taken { IfOk result
        (λ new. Takes disk.now.past.trail picks.now (synced_contents disk.now.past) new.past.start) }
    ensures image { IfOk result (λ new. IsImage disk.now.past new.past.start) }
    ensures fresh { IfOk result (λ new. new ≡ new_mem new.past.start []) }
    ensures cause { IfErr result (HasCause disk.now.past.trail picks.now) }
{
    disk.restarted(alloc, picks)
}

/// For each page that was written since the last sync the last write of it, made or failed, in the order
/// of the pages.
pub fn last_picks(alloc: Global, disk: &MemDisk) -> Result<Vec<Pick>, AllocError>
    ensures last { IfOk result (λ picks. AreLastPicks disk.now.past.trail picks.items) }
    ensures good { IfOk result (λ picks. AreGood disk.now.past.trail picks.items) }
{
    disk.last_writes(alloc)
}
