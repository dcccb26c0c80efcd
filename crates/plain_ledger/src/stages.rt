//! Updates.

ghost use Rattle.std.specs.Prelude.{◌≡◌, true, List, None, IfOk, OnOk, OnErr};
ghost use Rattle.store_model.specs.declared.ends.StageEnd.TheVariants as stages;
ghost use Rattle.store_model.specs.declared.events.Act.TheVariants as acts;
ghost use Rattle.store_model.specs.State.{IsStageOf, is_pending};
ghost use Rattle.store_model.specs.State.Phase.{Filling, Sealed};
ghost use Rattle.store_model.specs.declared.events.LookedAt.{LookedAt as LookedAtOf};
ghost use Rattle.plain_stock.specs.Contents.{AreBytesOf};
ghost use Rattle.store_model.specs.Acts.LeftStage.{IsDueLeftStage};
ghost use Rattle.store_model.specs.Acts.Stage.{stage_answer};
ghost use Rattle.plain_state.specs.Judged.{IsReadAll};
ghost use Rattle.plain_ledger.specs.Ledgers.{Notes, Stays};

use crate::ledger::{Ledger, make_room};
use abr_record::Slot;
use image_layout::Sys;
use plain_state::Activation;
use plain_stock::Contents;
use std::alloc::AllocError;
use store_model::{Act, ActivateEnd, StageEnd};

impl Ledger {
    /// An update begins, into this slot.
    pub fn begin_stage(&mut self, lane: u32, epoch: u64, slot: Slot) -> Result<(), AllocError>
        requires { stage_answer self.old.state epoch ≡ stages.Turn slot }
        ensures ok { OnOk result (Notes self.old lane (acts.Stage epoch (stages.Turn slot)) self.new) }
        ensures err { OnErr result (Stays self.old self.new) }
    {
        make_room(&mut self.history, &self.state, 2)?;
        self.state.begin_stage(lane);
        let reply = StageEnd::Turn { slot };
        self.history.note(lane, Act::Stage { epoch, reply });
        Ok(())
    }

    /// The images of the slot that is filled are those of this system.
    pub fn seal(&mut self, lane: u32, sys: &Sys) -> Result<(), AllocError>
        requires { IsStageOf self.old.state lane Filling }
        ensures ok { OnOk result (Notes self.old lane (acts.Seal sys.now None) self.new) }
        ensures err { OnErr result (Stays self.old self.new) }
    {
        make_room(&mut self.history, &self.state, 1)?;
        self.state.seal(lane, *sys);
        self.history.note(
            lane,
            Act::Seal {
                sys: *sys,
                reply: None,
            },
        );
        Ok(())
    }

    /// The sealed system is judged, and is to boot next if it is whole.
    pub fn activate(
        &mut self,
        lane: u32,
        sys: Sys,
        contents: &Contents,
    ) -> Result<ActivateEnd, AllocError>
        requires stage { IsStageOf self.old.state lane (Sealed sys) }
        requires bytes { AreBytesOf contents.now self.old.state.stock }
        ensures ok { IfOk result (λ reply. (seen : List LookedAtOf)
            × Notes self.old lane (acts.Activate reply seen) self.new) }
        ensures read { IfOk result IsReadAll }
        ensures err { OnErr result (Stays self.old self.new) }
    {
        make_room(&mut self.history, &self.state, 1)?;
        let Activation { reply, seen } = self.state.activate(lane, sys, contents)?;
        self.history.note(lane, Act::Activate { reply, seen });
        Ok(reply)
    }

    /// An update is over.
    pub fn leave_stage(&mut self, lane: u32)
        requires { IsDueLeftStage self.old.state lane }
        ensures { Notes self.old lane acts.LeftStage self.new }
    {
        self.state.leave_stage();
        self.history.note(lane, Act::LeftStage);
    }

    /// The running system is to stay.
    pub fn commit(&mut self, lane: u32) -> Result<(), AllocError>
        requires { is_pending self.old.state ≡ true }
        ensures ok { OnOk result (Notes self.old lane (acts.Commit true) self.new) }
        ensures err { OnErr result (Stays self.old self.new) }
    {
        make_room(&mut self.history, &self.state, 1)?;
        self.state.commit();
        self.history.note(lane, Act::Commit { done: true });
        Ok(())
    }
}
