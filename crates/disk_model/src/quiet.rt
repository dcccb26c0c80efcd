//! A disk in memory that tells nothing of its past and never fails.

ghost use Rattle.std.specs.Prelude.{◌≡◌, ◌⊎◌, ◌+◌, ◌-◌, ◌^◌, ◌<◌, ◌≤◌, min, length, [], Option, None, IsOk, IfOk, OnOk, OnErr, IfSome, slice_set};
ghost use Rattle.disk_model.specs.declared.act.DiskAct.TheVariants.{Wrote, Failed, Synced};
ghost use Rattle.disk_model.specs.Past.{Past, IsPast, with_act, state_of, MayRead, Rose, page_at, zero_pages};
ghost use Rattle.disk_model.specs.Disks.{one_more};

use crate::disk::{Disk, DiskFailed};
use crate::pages::zero_pages;
use std::alloc::{AllocError, Global};
use std::marker::Model;

/// A disk in memory that never fails and tells nothing of its past, so that it keeps its pages alone.
#[derive(Drop)]
pub struct QuietDisk {
    pages: Vec<[u8; 4096]>,
    reads: u64,
}

impl Model for QuietDisk {
    ghost use Rattle.std.specs.Prelude.{length, ◌<◌, ◌^◌};
    ghost use Rattle.disk_model.specs.Disks.{Quiet};

    ghost Value = { Quiet };

    ghost view = { λ d. record { pages = d.pages.items; reads = d.reads } };

    ghost invariant = { λ d. length d.pages.items < 2 ^ 32 };
}

impl QuietDisk {
    /// A disk of this number of pages, all zero.
    pub fn make(alloc: Global, pages: u32) -> Result<QuietDisk, AllocError>
        ensures pages { IfOk result (λ disk. disk.pages ≡ zero_pages pages) }
        ensures reads { IfOk result (λ disk. disk.reads ≡ 0) }
    {
        let pages = zero_pages(alloc, pages)?;
        Ok(QuietDisk { pages, reads: 0 })
    }
}

impl Disk for QuietDisk {
    ghost past = { λ d. None };

    ghost pages = { λ d. length d.pages };

    ghost faults = { λ d. 0 };

    ghost reads = { λ d. d.reads };

    ghost tie = { λ d. [] };

    fn pages(&self) -> u32 {
        self.pages.len() as u32
    }

    fn read(&mut self, page: u32, out: &mut [u8; 4096]) -> Result<(), DiskFailed>
        requires { page < length self.old.pages }
        ensures succeeds { IsOk result }
        ensures value { out.new ≡ page_at self.old.pages page }
        ensures disk { self.new ≡ record self.old { reads = one_more self.old.reads } }
    {
        self.reads = self.reads.saturating_add(1);
        *out = self.pages[page as usize];
        Ok(())
    }

    fn write(&mut self, page: u32, bytes: &[u8; 4096]) -> Result<(), DiskFailed>
        requires { page < length self.old.pages }
        ensures succeeds { IsOk result }
        ensures disk { self.new
            ≡ record self.old { pages = slice_set self.old.pages page bytes.now } }
    {
        self.pages[page as usize] = *bytes;
        Ok(())
    }

    fn sync(&mut self) -> Result<(), DiskFailed>
        ensures succeeds { IsOk result }
        ensures disk { self.new ≡ self.old }
    {
        Ok(())
    }
}
