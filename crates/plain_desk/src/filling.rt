//! Calls of a store on updates.

ghost use Rattle.std.specs.Prelude.{◌≡◌, [], List, ℕ, IfOk, OnErr};
ghost use Rattle.image_layout.specs.declared.Sys.{Sys as SysOf};
ghost use Rattle.store_model.specs.State.{IsStageOf};
ghost use Rattle.store_model.specs.State.Phase.{Filling, Sealed};
ghost use Rattle.store_model.specs.Desk.{Does, Keeps, KeepsBlob};
ghost use Rattle.store_model.specs.Replies.{HasLeftStage, IsActivated, IsCommitted, IsSealed, IsStaged};
ghost use Rattle.store_model.specs.Calls.{Stages, KeepsAtStage, fillers_at_stage, Seals, KeepsAtSeal, Activates, Commits, HoldsStage, HoldsSealed, HoldsAnyStage};
ghost use Rattle.store_model.specs.Acts.Stage.{stage_answer};
ghost use Rattle.plain_stock.specs.Contents.{AreBytesOf};
ghost use Rattle.plain_state.specs.Judged.{IsReadAll};
ghost use Rattle.plain_ledger.specs.Ledgers.{Stays, Tells};
ghost use Rattle.plain_desk.specs.Stores.{IsOwnCall, InMemory, view_of, kept_for};
ghost use Rattle.plain_desk.specs.Filling.{IsUnstaged, IsStagedAs, IsActivatedAs, IsSealedOf, StagedBy, images_at_stage};

use crate::store::Store;
use image_layout::Sys;
use plain_drafts::Images;
use plain_ledger::Ledger;
use plain_stock::Contents;
use std::alloc::AllocError;
use store_model::{
    Act, ActivateEnd, ActivateReply, CommitReply, Difference, SealReply, StageEnd, StageReply,
};

impl Store {
    /// Begins an update to a system of this epoch.
    pub fn stage(&mut self, lane: u32, epoch: u64) -> StageReply
        ensures event { (tie : List ℕ) → Stages epoch result (view_of tie lane self.old) (view_of tie lane self.new) }
        ensures kept { KeepsAtStage result (kept_for lane self.old) (kept_for lane self.new) }
        ensures fillers { self.new.images.fillers ≡ fillers_at_stage result self.old.images.fillers }
        ensures own { IsOwnCall lane self.old self.new }
    {
        let reply = stage(&mut self.ledger, lane, epoch);
        empty_at_turn(&mut self.images, &reply);
        reply
    }

    /// Ends the filling of the images, if they are those of this system.
    pub fn seal(&mut self, lane: u32, sys: &Sys) -> SealReply
        requires { HoldsStage (view_of [] lane self.old) Filling }
        ensures event { (tie : List ℕ) → Seals sys.now result (view_of tie lane self.old) (view_of tie lane self.new) }
        ensures kept { KeepsAtSeal sys.now result (kept_for lane self.old) (kept_for lane self.new) }
        ensures images { self.new.images ≡ self.old.images }
        ensures own { IsOwnCall lane self.old self.new }
    {
        match seal(&mut self.ledger, &self.images, lane, sys) {
            Ok(reply) => reply,
            Err(_) => SealReply::NoMemory,
        }
    }

    /// Judges the sealed system, and has it boot next.
    pub fn activate(&mut self, lane: u32) -> ActivateReply
        requires { HoldsSealed (view_of [] lane self.old) }
        ensures event { (tie : List ℕ) → Activates result (view_of tie lane self.old) (view_of tie lane self.new) }
        ensures kept { Keeps (kept_for lane self.old) (kept_for lane self.new) }
        ensures images { self.new.images ≡ self.old.images }
        ensures own { IsOwnCall lane self.old self.new }
    {
        match activate(&mut self.ledger, &self.contents, lane) {
            Ok(reply) => reply,
            Err(_) => ActivateReply::NoMemory,
        }
    }

    /// Ends the update.
    pub fn leave_stage(&mut self, lane: u32)
        requires { HoldsAnyStage (view_of [] lane self.old) }
        ensures event { (tie : List ℕ) → Does (view_of tie lane self.old) (view_of tie lane self.new) HasLeftStage }
        ensures kept { Keeps (kept_for lane self.old) (kept_for lane self.new) }
        ensures images { self.new.images ≡ self.old.images }
        ensures own { IsOwnCall lane self.old self.new }
    {
        self.ledger.leave_stage(lane);
    }

    /// Has the running system stay.
    pub fn commit(&mut self, lane: u32) -> CommitReply
        ensures event { (tie : List ℕ) → Commits result (view_of tie lane self.old) (view_of tie lane self.new) }
        ensures kept { Keeps (kept_for lane self.old) (kept_for lane self.new) }
        ensures images { self.new.images ≡ self.old.images }
        ensures own { IsOwnCall lane self.old self.new }
    {
        match commit(&mut self.ledger, lane) {
            Ok(reply) => reply,
            Err(_) => CommitReply::NoMemory,
        }
    }
}

fn stage(ledger: &mut Ledger, lane: u32, epoch: u64) -> StageReply
    ensures { StagedBy lane epoch result ledger.old ledger.new }
{
    match try_stage(ledger, lane, epoch) {
        Ok(reply) => reply,
        Err(_) => StageReply::NoMemory,
    }
}

fn try_stage(ledger: &mut Ledger, lane: u32, epoch: u64) -> Result<StageReply, AllocError>
    ensures ok { IfOk result (λ reply. Tells lane (InMemory (IsStaged epoch reply)) ledger.old ledger.new) }
    ensures err { OnErr result (Stays ledger.old ledger.new) }
{
    match ledger.state().stage_answer(epoch) {
        StageEnd::Turn { slot } => {
            ledger.begin_stage(lane, epoch, slot)?;
            Ok(StageReply::Turn { slot })
        }
        reply => note_unstaged(ledger, lane, epoch, reply),
    }
}

fn note_unstaged(
    ledger: &mut Ledger,
    lane: u32,
    epoch: u64,
    reply: StageEnd,
) -> Result<StageReply, AllocError>
    requires answer { reply ≡ stage_answer ledger.old.state epoch }
    requires none { IsUnstaged reply }
    ensures ok { IfOk result (λ told. Tells lane (InMemory (IsStaged epoch told)) ledger.old ledger.new) }
    ensures err { OnErr result (Stays ledger.old ledger.new) }
{
    ledger.note(lane, Act::Stage { epoch, reply })?;
    Ok(unstaged(reply))
}

fn unstaged(end: StageEnd) -> StageReply
    requires { IsUnstaged end }
    ensures { IsStagedAs end result }
{
    match end {
        StageEnd::InRecovery => StageReply::InRecovery,
        StageEnd::Busy { lane } => StageReply::Busy { lane },
        StageEnd::NotCommitted => StageReply::NotCommitted,
        StageEnd::Older { have } => StageReply::Older { have },
        StageEnd::Turn { .. } => unreachable!(),
    }
}

// An update begins with images without bytes.
fn empty_at_turn(images: &mut Images, reply: &StageReply)
    ensures { images.new ≡ images_at_stage reply.now images.old }
{
    if let StageReply::Turn { .. } = reply {
        images.clear();
    }
}

fn seal(ledger: &mut Ledger, images: &Images, lane: u32, sys: &Sys) -> Result<SealReply, AllocError>
    requires { IsStageOf ledger.old.state lane Filling }
    ensures ok { IfOk result (λ reply. Tells lane (InMemory (IsSealed sys.now reply)) ledger.old ledger.new) }
    ensures sums { IfOk result (IsSealedOf sys.now images.now) }
    ensures err { OnErr result (Stays ledger.old ledger.new) }
{
    match images.difference(sys) {
        Some(Difference { image, got }) => {
            let reply = Some(Difference { image, got });
            ledger.note(lane, Act::Seal { sys: *sys, reply })?;
            Ok(SealReply::Differs { image, got })
        }
        None => {
            ledger.seal(lane, sys)?;
            Ok(SealReply::Sealed)
        }
    }
}

fn activate(
    ledger: &mut Ledger,
    contents: &Contents,
    lane: u32,
) -> Result<ActivateReply, AllocError>
    requires stage { (sys : SysOf) × IsStageOf ledger.old.state lane (Sealed sys) }
    requires bytes { AreBytesOf contents.now ledger.old.state.stock }
    ensures ok { IfOk result (λ reply. Tells lane (InMemory (IsActivated reply)) ledger.old ledger.new) }
    ensures err { OnErr result (Stays ledger.old ledger.new) }
{
    let Some(sys) = ledger.state().sealed() else {
        unreachable!()
    };
    let end = ledger.activate(lane, sys, contents)?;
    Ok(activated(end))
}

// No list that had to be read was wanting.
fn activated(end: ActivateEnd) -> ActivateReply
    requires { IsReadAll end }
    ensures { IsActivatedAs end result }
{
    match end {
        ActivateEnd::Active { slot } => ActivateReply::Active { slot },
        ActivateEnd::BaseMissing { root } => ActivateReply::BaseMissing { root },
        ActivateEnd::NotASystem { why } => ActivateReply::NotASystem { why },
        ActivateEnd::DiskRead | ActivateEnd::Rotten { .. } => unreachable!(),
    }
}

fn commit(ledger: &mut Ledger, lane: u32) -> Result<CommitReply, AllocError>
    ensures ok { IfOk result (λ reply. Tells lane (InMemory (IsCommitted reply)) ledger.old ledger.new) }
    ensures err { OnErr result (Stays ledger.old ledger.new) }
{
    if ledger.state().is_pending() {
        ledger.commit(lane)?;
        return Ok(CommitReply::Committed);
    }
    ledger.note(lane, Act::Commit { done: false })?;
    Ok(CommitReply::NotPending)
}
