//! A disk that fails after a number of writes.

ghost use Rattle.std.specs.Prelude.{◌≡◌, ◌⊎◌, ℕ, ◌+◌, ◌<◌, ◌≤◌, length, true, false, Some, IsErr, OnOk, OnErr};
ghost use Rattle.disk_model.specs.declared.act.DiskAct.TheVariants.{Wrote, Failed, Synced};
ghost use Rattle.disk_model.specs.Past.{IsPast, then_act, state_of, MayRead, Rose};
ghost use Rattle.disk_model.specs.Disks.{one_more, after_fault, new_fuse, fuse_tie, IsFuse, FailsWrite, ReadsMem, WritesMem, SyncsMem, PassesOn, Blows};

use crate::disk::{Disk, DiskFailed};
use crate::mem::MemDisk;
use std::marker::Model;

/// A disk that passes on each read and the first few writes and syncs. The next write or sync fails,
/// and so does each call after it. Its counts are those of the disk within.
#[derive(Drop)]
pub struct FuseDisk {
    inner: MemDisk,
    left: u64,
    blown: bool,
    // as it was made: how many it was to pass on, and the acts and faults of the disk within
    allowed: u64,
    acts_before: u64,
    faults_before: u64,
}

impl Model for FuseDisk {
    ghost use Rattle.disk_model.specs.Disks.{Fuse, IsFuse};

    ghost Value = { Fuse };

    ghost view = { λ d. record {
      inner = d.inner;
      left = d.left;
      blown = d.blown;
      allowed = d.allowed;
      acts_before = d.acts_before;
      faults_before = d.faults_before;
    } };

    ghost invariant = { λ d. IsFuse (record {
      inner = d.inner;
      left = d.left;
      blown = d.blown;
      allowed = d.allowed;
      acts_before = d.acts_before;
      faults_before = d.faults_before;
    }) };
}

// Whether the next write or sync is passed on.
fn burns(left: &mut u64, blown: &mut bool) -> bool
    ensures passes { result ≡ true → (blown.old ≡ false) × (left.new + 1 ≡ left.old)
        × (blown.new ≡ false) }
    ensures blows { result ≡ false → ((blown.old ≡ true) ⊎ (left.old ≡ 0))
        × (left.new ≡ left.old) × (blown.new ≡ true) }
{
    if *blown || *left == 0 {
        *blown = true;
        return false;
    }
    *left -= 1;
    true
}

impl FuseDisk {
    /// Passes on this many writes and syncs.
    pub fn make(inner: MemDisk, left: u64) -> FuseDisk
        ensures { result ≡ new_fuse inner left }
    {
        let acts_before = inner.acts();
        let faults_before = inner.faults();
        FuseDisk {
            inner,
            left,
            blown: false,
            allowed: left,
            acts_before,
            faults_before,
        }
    }

    /// The disk within.
    pub fn inner(self) -> MemDisk
        ensures disk { result ≡ self.inner }
        ensures fuse { IsFuse self }
    {
        self.inner
    }
}

impl Disk for FuseDisk {
    ghost past = { λ d. Some d.inner.past };

    ghost pages = { λ d. length d.inner.past.start };

    ghost faults = { λ d. d.inner.faults };

    ghost reads = { λ d. d.inner.reads };

    ghost tie = { fuse_tie };

    fn pages(&self) -> u32 {
        self.inner.pages()
    }

    fn read(&mut self, page: u32, out: &mut [u8; 4096]) -> Result<(), DiskFailed>
        requires { page < length self.old.inner.past.start }
        ensures passes { self.old.blown ≡ false
            → ReadsMem page self.old.inner self.new.inner out.new result }
        ensures blown { self.old.blown ≡ true → IsErr result × (self.new.inner
            ≡ record (after_fault self.old.inner) { reads = one_more self.old.inner.reads }) }
        ensures fuse_stays { self.new ≡ record self.old { inner = self.new.inner } }
        ensures value { OnOk result (MayRead (state_of self.old.inner.past page) out.new) }
        ensures past_stays { self.new.inner.past ≡ self.old.inner.past }
        ensures tie_stays { fuse_tie self.new ≡ fuse_tie self.old }
        ensures counted { self.new.inner.reads ≡ one_more self.old.inner.reads }
        ensures faults_never_fall { self.old.inner.faults ≤ self.new.inner.faults }
        ensures told_before { IsPast (length self.old.inner.past.start) self.old.inner.past }
        ensures told { IsPast (length self.new.inner.past.start) self.new.inner.past }
        ensures cause { OnErr result (Rose self.old.inner.faults self.new.inner.faults) }
    {
        if self.blown {
            self.inner.fail_read();
            return Err(DiskFailed);
        }
        self.inner.read(page, out)
    }

    fn write(&mut self, page: u32, bytes: &[u8; 4096]) -> Result<(), DiskFailed>
        requires { page < length self.old.inner.past.start }
        ensures passes { PassesOn self.old
            → WritesMem page bytes.now self.old.inner self.new.inner result
            × (self.new.left + 1 ≡ self.old.left) × (self.new.blown ≡ false) }
        ensures blows { Blows self.old → IsErr result × (self.new.left ≡ self.old.left)
            × (self.new.blown ≡ true) × FailsWrite page bytes.now self.old.inner self.new.inner }
        ensures wrote { OnOk result
            (self.new.inner.past ≡ then_act self.old.inner.past (Wrote page bytes.now)) }
        ensures failed { OnErr result
            ((self.new.inner.past ≡ then_act self.old.inner.past (Failed page bytes.now))
            ⊎ (self.new.inner.past ≡ self.old.inner.past)) }
        ensures tie_stays { fuse_tie self.new ≡ fuse_tie self.old }
        ensures reads_stay { self.new.inner.reads ≡ self.old.inner.reads }
        ensures faults_never_fall { self.old.inner.faults ≤ self.new.inner.faults }
        ensures told_before { IsPast (length self.old.inner.past.start) self.old.inner.past }
        ensures told { IsPast (length self.new.inner.past.start) self.new.inner.past }
        ensures cause { OnErr result (Rose self.old.inner.faults self.new.inner.faults) }
    {
        if burns(&mut self.left, &mut self.blown) {
            return self.inner.write(page, bytes);
        }
        self.inner.fail_write(page, bytes);
        Err(DiskFailed)
    }

    fn sync(&mut self) -> Result<(), DiskFailed>
        ensures passes { PassesOn self.old → SyncsMem self.old.inner self.new.inner result
            × (self.new.left + 1 ≡ self.old.left) × (self.new.blown ≡ false) }
        ensures blows { Blows self.old → IsErr result × (self.new.left ≡ self.old.left)
            × (self.new.blown ≡ true) × (self.new.inner ≡ after_fault self.old.inner) }
        ensures synced { OnOk result (self.new.inner.past ≡ then_act self.old.inner.past Synced) }
        ensures failed { OnErr result (self.new.inner.past ≡ self.old.inner.past) }
        ensures tie_stays { fuse_tie self.new ≡ fuse_tie self.old }
        ensures reads_stay { self.new.inner.reads ≡ self.old.inner.reads }
        ensures faults_never_fall { self.old.inner.faults ≤ self.new.inner.faults }
        ensures told_before { IsPast (length self.old.inner.past.start) self.old.inner.past }
        ensures told { IsPast (length self.new.inner.past.start) self.new.inner.past }
        ensures cause { OnErr result (Rose self.old.inner.faults self.new.inner.faults) }
    {
        if burns(&mut self.left, &mut self.blown) {
            return self.inner.sync();
        }
        self.inner.fail();
        Err(DiskFailed)
    }
}
