//! A lane's desk at a store.
#![tactic(auto, using(crate::proofs::Own::own_more, crate::proofs::Own::begun_more))]

ghost use Rattle.std.specs.Prelude.{◌≡◌, ◌≤◌, true, length};
ghost use Rattle.plain_desk.specs.Stores.{are_own};

use crate::store::Store;
use image_layout::{ImageKind, Sys};
use package_indexes::Choice;
use pkg_names::{FilePath, PackagePath, Root};
use std::marker::Model;
use store_model::{
    ActivateReply, BeginReply, CheckReply, Claim, CloseReply, CollectReply, CommitReply, CopyReply,
    Desk, Dir, LandReply, Miss, OpenReply, PutReply, ReadReply, RejectReply, RetainReply,
    RoomReply, SealReply, StageReply, Ticket, WantReply,
};
use system_lists::{ManifestFault, ManifestFile};

/// A lane's desk. While it stands, the store is the lane's alone.
#[derive(Drop)]
pub struct Lane<'a> {
    store: &'a mut Store,
    number: u32,
    // How long the history was when the loan began. What came since is the lane's.
    began: u64,
    ghost begun: { began ≤ length store.now.history },
    ghost own: { are_own number began store.now.history ≡ true },
}

impl<'a> Lane<'a> {
    ghost use Rattle.std.specs.Prelude.{take};
    ghost use Rattle.plain_desk.specs.Stores.{AddsOwn, LeavesOthers};

    /// The desk of the lane with this number.
    pub fn make(store: &'a mut Store, number: u32) -> Lane<'a>
        ensures store { result.store.now ≡ store.old }
        ensures number { result.number ≡ number }
        ensures began { result.began ≡ length store.old.history }
        ensures same { result.store.ghost_name ≡ store.entry.ghost_name }
    {
        let began = store.history_len();
        Lane {
            store,
            number,
            began,
        }
    }

    /// What came to the history since the loan began is the lane's: nobody else is at the store.
    pub fn alone(&self)
        ensures own { AddsOwn self.now.number (take self.now.began self.now.store.now.history)
            self.now.store.now.history }
        ensures others { LeavesOthers self.now.number (take self.now.began self.now.store.now.history)
            self.now.store.now.history }
        ensures began { self.now.began ≤ length self.now.store.now.history }
    {}
}

impl<'a> Desk for Lane<'a> {
    ghost use Rattle.std.specs.Prelude.{◌∷◌, []};
    ghost use Rattle.plain_desk.specs.Stores.{view_of, kept_for};

    // What ties a desk to its store is the loan, which began at this length of the history.
    ghost view = { λ l. view_of (l.store.ghost_name ∷ l.number ∷ l.began ∷ []) l.number l.store.now };

    ghost kept = { λ l. kept_for l.number l.store.now };

    // Nothing is read of a disk.
    ghost firm = { λ l. Unit };

    fn begin(&mut self, path: &PackagePath, choice: Choice) -> BeginReply {
        self.store.begin(self.number, path, choice)
    }

    fn want(&mut self, ticket: Ticket) -> WantReply {
        self.store.want(self.number, ticket)
    }

    fn room(&mut self, claim: Claim, len: u64) -> RoomReply {
        self.store.room(self.number, claim, len)
    }

    fn put(&mut self, claim: Claim, bytes: &[u8]) -> PutReply {
        self.store.put(self.number, claim, bytes)
    }

    fn land(&mut self, claim: Claim) -> LandReply {
        self.store.land(self.number, claim)
    }

    fn miss(&mut self, claim: Claim, why: Miss) {
        self.store.miss(self.number, claim, why);
    }

    fn give_up(&mut self, ticket: Ticket) {
        self.store.give_up(self.number, ticket);
    }

    fn open_path(&mut self, path: &PackagePath) -> OpenReply {
        self.store.open_path(self.number, path)
    }

    fn read(&mut self, dir: Dir, file: &FilePath) -> ReadReply {
        self.store.read(self.number, dir, file)
    }

    fn check(&mut self, dir: Dir, file: &FilePath) -> CheckReply {
        self.store.check(self.number, dir, file)
    }

    fn close(&mut self, dir: Dir) -> CloseReply {
        self.store.close(self.number, dir)
    }

    fn collect(&mut self) -> CollectReply {
        self.store.collect(self.number)
    }

    fn retain(&mut self, roots: &[Root]) -> RetainReply {
        self.store.retain(self.number, roots)
    }

    fn stage(&mut self, epoch: u64) -> StageReply {
        self.store.stage(self.number, epoch)
    }

    fn copy_part(&mut self, image: ImageKind, dir: Dir, file: &FilePath) -> CopyReply {
        self.store.copy_part(self.number, image, dir, file)
    }

    fn seal(&mut self, sys: &Sys) -> SealReply {
        self.store.seal(self.number, sys)
    }

    fn activate(&mut self) -> ActivateReply {
        self.store.activate(self.number)
    }

    fn leave_stage(&mut self) {
        self.store.leave_stage(self.number);
    }

    fn commit(&mut self) -> CommitReply {
        self.store.commit(self.number)
    }

    fn reject(&mut self, file: ManifestFile, why: ManifestFault) -> RejectReply {
        self.store.reject(self.number, file, why)
    }

    // Nobody else is at the store: there is no bell to wait for.
    fn pause(&mut self, _bell: u64) {
        self.store.pause(self.number);
    }
}
