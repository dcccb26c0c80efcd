//! A disk in memory that tells its past, and fails where it is told to.

ghost use Rattle.std.specs.Prelude.{◌≡◌, ◌⊎◌, ◌↔◌, ℕ, ◌+◌, ◌-◌, ◌^◌, ◌<◌, ◌≤◌, min, length, [], ◌∷◌, ◌++◌, true, false, Option, Some, vec_len, IsTrue, IsErr, IfOk, IfErr, OnOk, OnErr, IfSome};
ghost use Rattle.std.specs.List.{AllByRecursion, Contains};
ghost use Rattle.disk_model.specs.declared.act.DiskAct.TheVariants.{Wrote, Failed, Synced};
ghost use Rattle.disk_model.specs.Past.{Past, IsPage, IsPast, then_act, with_act, state_of, MayRead, Rose, page_at, zero_pages};
ghost use Rattle.disk_model.specs.Images.{IsImage, contents};
ghost use Rattle.disk_model.specs.Picks.{synced_contents, AreGood, AreLastPicks, HasCause, Takes};
ghost use Rattle.disk_model.specs.Disks.{new_mem, all_failing, call_after, IsNextListed, after_call, after_fault, after_want, one_more, FailsWrite};

use crate::act::DiskAct;
use crate::disk::{Disk, DiskFailed};
use crate::last::last_picks_of;
use crate::pages::zero_pages;
use crate::power_loss::{Pick, RestartFault};
use crate::replay::picked_pages;
use crate::trail::Trail;
use std::alloc::{AllocError, Global};
use std::marker::Model;

/// A disk in memory. It keeps what it began with and each act since. The calls of `read`, `write` and
/// `sync` are counted from 1, and those whose number is listed fail.
#[derive(Drop)]
pub struct MemDisk {
    start: Vec<[u8; 4096]>,
    acts: Vec<DiskAct>,
    // what stands on the pages after all acts
    current: Vec<[u8; 4096]>,
    failing: Vec<u64>,
    // one more call that is to fail
    fails_later: Option<u64>,
    calls: u64,
    faults: u64,
    reads: u64,
    starved: bool,
}

impl Model for MemDisk {
    ghost use Rattle.disk_model.specs.Disks.{Mem, all_failing, IsKept};

    ghost Value = { Mem };

    ghost view = { λ d. record {
      past = record { start = d.start.items; trail = d.acts.items };
      failing = all_failing d.failing.items d.fails_later;
      made_failing = d.failing.items;
      calls = d.calls;
      faults = d.faults;
      reads = d.reads;
      starved = d.starved;
    } };

    ghost invariant = { λ d.
        IsKept (record { start = d.start.items; trail = d.acts.items }) d.current.items };
}

fn is_listed(failing: &[u64], later: Option<u64>, call: u64) -> bool
    ensures { IsTrue result ↔ Contains (all_failing failing.now later) call }
{
    failing.contains(&call) || later == Some(call)
}

// Puts an act behind the others. Whether there was memory for it.
fn push_act(acts: &mut Vec<DiskAct>, act: DiskAct) -> bool
    ensures pushed { result ≡ true → acts.new.items ≡ acts.old.items ++ act ∷ [] }
    ensures lost { result ≡ false → acts.new.items ≡ acts.old.items }
{
    acts.push(act).is_ok()
}

impl MemDisk {
    /// A disk of this number of pages, all zero, and the calls of it that are to fail.
    pub fn make(alloc: Global, pages: u32, failing: Vec<u64>) -> Result<MemDisk, AllocError>
        ensures disk { IfOk result (λ disk. disk ≡ new_mem (zero_pages pages) failing.items) }
    {
        let start = zero_pages(alloc, pages)?;
        let current = zero_pages(alloc, pages)?;
        Ok(MemDisk {
            start,
            acts: Vec::new(alloc),
            current,
            failing,
            fails_later: None,
            calls: 0,
            faults: 0,
            reads: 0,
            starved: false,
        })
    }

    /// How many acts its trail has.
    pub fn acts(&self) -> u64
        ensures { result ≡ length self.now.past.trail }
    {
        self.acts.len() as u64
    }

    // How often it has failed.
    pub(crate) fn faults(&self) -> u64
        ensures { result ≡ self.now.faults }
    {
        self.faults
    }

    /// Whether memory was wanting for an act.
    pub fn starved(&self) -> bool
        ensures { result ≡ self.now.starved }
    {
        self.starved
    }

    /// Lets the call after this many further ones fail, as a listed one. It takes the place of the call
    /// that was named so before.
    pub fn fail_after(&mut self, calls: u64)
        ensures disk { self.new ≡ record self.old {
          failing = self.old.made_failing ++ call_after calls self.old ∷ [];
        } }
    {
        self.fails_later = Some(self.calls.saturating_add(calls).saturating_add(1));
    }

    /// The acts of its trail, without a copy.
    pub fn into_trail(self) -> Trail
        ensures trail { result ≡ self.past.trail }
        ensures told { IsPast (length self.past.start) self.past }
    {
        Trail::of(self.acts)
    }

    // A disk that begins with these pages.
    pub(crate) fn with_pages(alloc: Global, start: Vec<[u8; 4096]>) -> Result<MemDisk, AllocError>
        requires pages { AllByRecursion IsPage start.items }
        requires small { vec_len start < 2 ^ 32 }
        ensures { IfOk result (λ disk. disk ≡ new_mem start.items []) }
    {
        let current = Vec::from_slice(alloc, &start)?;
        Ok(MemDisk {
            start,
            acts: Vec::new(alloc),
            current,
            failing: Vec::new(alloc),
            fails_later: None,
            calls: 0,
            faults: 0,
            reads: 0,
            starved: false,
        })
    }

    pub(crate) fn restarted(&self, alloc: Global, picks: &[Pick]) -> Result<MemDisk, RestartFault>
        ensures good { OnOk result (AreGood self.now.past.trail picks.now) }
        ensures taken { IfOk result
            (λ new. Takes self.now.past.trail picks.now (synced_contents self.now.past) new.past.start) }
        ensures image { IfOk result (λ new. IsImage self.now.past new.past.start) }
        ensures fresh { IfOk result (λ new. new ≡ new_mem new.past.start []) }
        ensures cause { IfErr result (HasCause self.now.past.trail picks.now) }
    {
        let start = picked_pages(alloc, &self.start, &self.acts, picks)?;
        Ok(MemDisk::with_pages(alloc, start)?)
    }

    pub(crate) fn last_writes(&self, alloc: Global) -> Result<Vec<Pick>, AllocError>
        ensures last { IfOk result (λ picks. AreLastPicks self.now.past.trail picks.items) }
        ensures good { IfOk result (λ picks. AreGood self.now.past.trail picks.items) }
    {
        last_picks_of(alloc, self.start.len(), &self.acts)
    }

    // A failure that leaves no act.
    pub(crate) fn fail(&mut self)
        ensures disk { self.new ≡ after_fault self.old }
        ensures faults_never_fall { self.old.faults ≤ self.new.faults }
        ensures told_before { IsPast (length self.old.past.start) self.old.past }
        ensures told { IsPast (length self.new.past.start) self.new.past }
    {
        self.faults = self.faults.saturating_add(1);
    }

    // A read that fails.
    pub(crate) fn fail_read(&mut self)
        ensures disk { self.new ≡ record (after_fault self.old) { reads = one_more self.old.reads } }
        ensures told_before { IsPast (length self.old.past.start) self.old.past }
        ensures told { IsPast (length self.new.past.start) self.new.past }
        ensures faults_never_fall { self.old.faults ≤ self.new.faults }
    {
        self.reads = self.reads.saturating_add(1);
        self.fail();
    }

    // A call fails for want of memory.
    fn starve(&mut self)
        ensures disk { self.new ≡ after_want self.old }
        ensures faults_never_fall { self.old.faults ≤ self.new.faults }
        ensures told { IsPast (length self.new.past.start) self.new.past }
    {
        self.starved = true;
        self.faults = self.faults.saturating_add(1);
    }

    // A write that fails.
    pub(crate) fn fail_write(&mut self, page: u32, bytes: &[u8; 4096])
        requires { page < length self.old.past.start }
        ensures disk { FailsWrite page bytes.now self.old self.new }
        ensures faults_never_fall { self.old.faults ≤ self.new.faults }
        ensures told_before { IsPast (length self.old.past.start) self.old.past }
        ensures told { IsPast (length self.new.past.start) self.new.past }
    {
        if push_act(&mut self.acts, DiskAct::Failed(page, *bytes)) {
            self.fail();
        } else {
            self.starve();
        }
    }
}

impl Disk for MemDisk {
    ghost past = { λ d. Some d.past };

    ghost pages = { λ d. length d.past.start };

    ghost faults = { λ d. d.faults };

    ghost reads = { λ d. d.reads };

    ghost tie = { λ d. d.failing };

    fn pages(&self) -> u32 {
        self.start.len() as u32
    }

    fn read(&mut self, page: u32, out: &mut [u8; 4096]) -> Result<(), DiskFailed>
        requires { page < length self.old.past.start }
        ensures listed { IsErr result ↔ IsNextListed self.old }
        ensures current { OnOk result (out.new ≡ page_at (contents self.old.past) page) }
        ensures value { OnOk result (MayRead (state_of self.old.past page) out.new) }
        ensures ok { OnOk result (self.new
            ≡ record (after_call self.old) { reads = one_more self.old.reads }) }
        ensures err { OnErr result (self.new
            ≡ record (after_fault (after_call self.old)) { reads = one_more self.old.reads }) }
        ensures told_before { IsPast (length self.old.past.start) self.old.past }
        ensures faults_never_fall { self.old.faults ≤ self.new.faults }
    {
        self.calls = self.calls.saturating_add(1);
        self.reads = self.reads.saturating_add(1);
        if is_listed(&self.failing, self.fails_later, self.calls) {
            self.fail();
            return Err(DiskFailed);
        }
        *out = self.current[page as usize];
        Ok(())
    }

    fn write(&mut self, page: u32, bytes: &[u8; 4096]) -> Result<(), DiskFailed>
        requires { page < length self.old.past.start }
        ensures listed { IsNextListed self.old → IsErr result }
        ensures wrote { OnOk result (self.new
            ≡ record (after_call self.old) { past = then_act self.old.past (Wrote page bytes.now) }) }
        ensures failed { OnErr result
            ((IsNextListed self.old × FailsWrite page bytes.now (after_call self.old) self.new)
            ⊎ ((¬ IsNextListed self.old) × (self.new ≡ after_want (after_call self.old)))) }
        ensures told_before { IsPast (length self.old.past.start) self.old.past }
        ensures told { IsPast (length self.new.past.start) self.new.past }
        ensures faults_never_fall { self.old.faults ≤ self.new.faults }
    {
        self.calls = self.calls.saturating_add(1);
        if is_listed(&self.failing, self.fails_later, self.calls) {
            self.fail_write(page, bytes);
            return Err(DiskFailed);
        }
        if !push_act(&mut self.acts, DiskAct::Wrote(page, *bytes)) {
            self.starve();
            return Err(DiskFailed);
        }
        self.current[page as usize] = *bytes;
        Ok(())
    }

    fn sync(&mut self) -> Result<(), DiskFailed>
        ensures listed { IsNextListed self.old → IsErr result }
        ensures synced { OnOk result (self.new
            ≡ record (after_call self.old) { past = then_act self.old.past Synced }) }
        ensures failed { OnErr result
            ((IsNextListed self.old × (self.new ≡ after_fault (after_call self.old)))
            ⊎ ((¬ IsNextListed self.old) × (self.new ≡ after_want (after_call self.old)))) }
        ensures told_before { IsPast (length self.old.past.start) self.old.past }
        ensures told { IsPast (length self.new.past.start) self.new.past }
        ensures faults_never_fall { self.old.faults ≤ self.new.faults }
    {
        self.calls = self.calls.saturating_add(1);
        if is_listed(&self.failing, self.fails_later, self.calls) {
            self.fail(); // adds no act
            return Err(DiskFailed);
        }
        if !push_act(&mut self.acts, DiskAct::Synced) {
            self.starve();
            return Err(DiskFailed);
        }
        Ok(())
    }
}
