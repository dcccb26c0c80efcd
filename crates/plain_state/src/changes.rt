//! The state that each act leaves, but for its books.

ghost use Rattle.std.specs.Prelude.{◌≡◌, ◌≢◌, ℕ, All, false, true, Some, None, IsSome, OnOk, OnErr};
ghost use Rattle.abr_record.specs.declared.Slot.TheVariants as slots;
ghost use Rattle.fetch_queue.specs.Fetches.{is_claimed};
ghost use Rattle.store_model.specs.declared.ends.BeginEnd.TheVariants as begun;
ghost use Rattle.store_model.specs.declared.ends.Cause.{Cause as CauseOf};
ghost use Rattle.store_model.specs.declared.ends.WantEnd.TheVariants as wants;
ghost use Rattle.store_model.specs.declared.ends.RetainEnd.TheVariants as retains;
ghost use Rattle.store_model.specs.declared.ends.StageEnd.TheVariants as stages;
ghost use Rattle.store_model.specs.State.{arrival_of, without_ticket, other_slot};
ghost use Rattle.store_model.specs.Acts.Begin.{next_begin};
ghost use Rattle.store_model.specs.Acts.Want.{active_after_want, next_want};
ghost use Rattle.store_model.specs.Acts.GaveUp.{next_gave_up};
ghost use Rattle.store_model.specs.Acts.Room.{next_room};
ghost use Rattle.store_model.specs.Acts.Land.{next_land};
ghost use Rattle.store_model.specs.Acts.Marking.{unclaimed};
ghost use Rattle.store_model.specs.Acts.OpenPath.{next_open_path};
ghost use Rattle.store_model.specs.Acts.Close.{IsDueClose, next_close};
ghost use Rattle.store_model.specs.Acts.Collect.{next_collect};
ghost use Rattle.store_model.specs.Acts.Retain.{next_retain};
ghost use Rattle.store_model.specs.Acts.Stage.{next_stage};
ghost use Rattle.store_model.specs.Acts.Seal.{next_seal};
ghost use Rattle.store_model.specs.Acts.LeftStage.{next_left_stage};
ghost use Rattle.store_model.specs.Acts.Commit.{next_commit};

use crate::state::State;
use crate::turns::{PhaseOf, Turn};
use abr_record::{Slot, commit, mark_unbootable};
use image_layout::Sys;
use pkg_names::{PackagePath, Root, Roots};
use std::alloc::AllocError;

impl State {
    /// A package arrives under a new ticket.
    pub fn arrive(
        &mut self,
        number: u64,
        lane: u32,
        path: &PackagePath,
        root: Root,
    ) -> Result<(), AllocError>
        requires { All (λ arrival. arrival.ticket ≢ number) self.old.arriving }
        ensures ok { OnOk result (self.new ≡ next_begin self.old number lane path.now (begun.Ticket root)) }
        ensures err { OnErr result (self.new ≡ self.old) }
    {
        self.indexes.arrive(number, lane, path, root)?;
        if let Err(fault) = self.queue.enlist(number) {
            self.indexes.depart(number);
            return Err(fault);
        }
        Ok(())
    }

    /// A lane is to fetch a blob that nobody has claimed.
    pub fn grant(&mut self, root: Root, lane: u32) -> Result<(), AllocError>
        requires { is_claimed self.old.claims root ≡ false }
        ensures ok { OnOk result ((number ticket : ℕ)
            → self.new ≡ next_want self.old number lane ticket (wants.Fetch root)) }
        ensures err { OnErr result (self.new ≡ self.old) }
    {
        self.queue.claim(root, lane)
    }

    /// The package of a ticket arrives no longer.
    pub fn give_up(&mut self, ticket: u64)
        ensures given_up { self.new ≡ next_gave_up self.old ticket }
        ensures failed { (number lane : ℕ) (cause : CauseOf)
            → self.new ≡ next_want self.old number lane ticket (wants.Failed cause) }
    {
        self.indexes.depart(ticket);
        self.queue.delist(ticket);
    }

    /// The package of a ticket is opened as a directory with a new number.
    pub fn open_ticket(&mut self, number: u64, lane: u32, ticket: u64) -> Result<(), AllocError>
        requires fresh { All (λ dir. dir.number ≢ number) self.old.dirs }
        requires arrives { IsSome (arrival_of self.old.arriving ticket) }
        ensures ok { OnOk result (self.new ≡ next_want self.old number lane ticket wants.Opened) }
        ensures err { OnErr result (self.new ≡ self.old) }
    {
        let Some(root) = self.root_of_ticket(ticket) else {
            unreachable!()
        };
        self.open_path(number, lane, root)?;
        self.make_active(ticket);
        Ok(())
    }

    // The package of a ticket arrives no longer. It is active under its path, unless that is in the base.
    fn make_active(&mut self, ticket: u64)
        ensures { self.new ≡ record self.old {
          arriving = without_ticket self.old.arriving ticket;
          active = active_after_want self.old ticket wants.Opened;
        } }
    {
        self.indexes.activate(ticket);
        self.queue.delist(ticket);
    }

    /// Room of this length is made for the claimed blob.
    pub fn make_room(&mut self, root: &Root, len: u64)
        ensures { self.new ≡ next_room self.old root.now len None }
    {
        self.queue.set_room(root, len);
    }

    /// A claim goes, and marks nothing.
    pub fn unclaim(&mut self, root: &Root)
        ensures { self.new ≡ unclaimed self.old root.now }
    {
        self.queue.end_claim(root);
    }

    /// The claimed blob is stored.
    pub fn land(&mut self, root: Root, len: u64) -> Result<(), AllocError>
        ensures ok { OnOk result (self.new ≡ next_land self.old root len None) }
        ensures err { OnErr result (self.new ≡ self.old) }
    {
        self.stock.push(root, len)?;
        self.queue.end_claim(&root);
        Ok(())
    }

    /// A package is opened as a directory with a new number.
    pub fn open_path(&mut self, number: u64, lane: u32, root: Root) -> Result<(), AllocError>
        requires { All (λ dir. dir.number ≢ number) self.old.dirs }
        ensures ok { OnOk result (self.new ≡ next_open_path self.old number lane (Some root)) }
        ensures err { OnErr result (self.new ≡ self.old) }
    {
        self.dirs.add(number, lane, root)
    }

    /// Closes the lane's directory with this number, and tells whether it was open.
    pub fn close(&mut self, dir: u64, lane: u32) -> bool
        ensures closed { self.new ≡ next_close self.old lane dir }
        ensures was_open { IsDueClose self.old lane dir result }
    {
        self.dirs.close(dir, lane)
    }

    /// These blobs are removed.
    pub fn collect(&mut self, roots: &Roots)
        ensures { self.new ≡ next_collect self.old (Some roots.now) }
    {
        self.stock.remove(roots.as_slice());
    }

    /// These packages, and no others, are retained.
    pub fn retain(&mut self, roots: Roots)
        ensures { self.new ≡ next_retain self.old roots retains.Done }
    {
        self.indexes.replace_retained(roots);
    }

    /// An update begins. The slot that it fills can't be booted from now on.
    pub fn begin_stage(&mut self, lane: u32)
        requires { self.old.running ≢ slots.R }
        ensures { self.new ≡ next_stage self.old lane (stages.Turn (other_slot self.old.running)) }
    {
        let slot = self.other_slot();
        if self.is_other_bootable() {
            self.abr = mark_unbootable(&self.abr, slot);
        }
        self.stage = Some(Turn {
            lane,
            phase: PhaseOf::Filling,
        });
        self.staged = None;
        match slot {
            Slot::A => self.a = None,
            Slot::B => self.b = None,
            Slot::R => (),
        }
    }

    /// The images of the slot that is filled are those of this system.
    pub fn seal(&mut self, lane: u32, sys: Sys)
        ensures { self.new ≡ next_seal self.old lane sys None }
    {
        self.stage = Some(Turn {
            lane,
            phase: PhaseOf::Sealed(sys),
        });
    }

    /// The update is over.
    pub fn leave_stage(&mut self)
        ensures { self.new ≡ next_left_stage self.old }
    {
        self.stage = None;
    }

    /// The running system is to stay.
    pub fn commit(&mut self)
        requires { self.old.running ≢ slots.R }
        ensures { self.new ≡ next_commit self.old true }
    {
        self.abr = commit(&self.abr, self.running);
    }
}
