//! What lanes hold, and the opening of what has arrived.

ghost use Rattle.std.specs.Prelude.{◌≡◌, ◌≢◌, ◌-◌, ◌^◌, [], All, min, IsSome, OnOk, OnErr};
ghost use Rattle.store_model.specs.declared.ends.WantEnd.TheVariants as wants;
ghost use Rattle.store_model.specs.State.{arrival_of};
ghost use Rattle.store_model.specs.Acts.Want.{next_want};
ghost use Rattle.plain_state.specs.Holdings.{ends_due, stage_ends};
ghost use Rattle.plain_state.specs.Learning.{IsReady, IsSettled};

use crate::state::State;
use crate::turns::Turn;
use std::alloc::AllocError;

impl State {
    /// How many events will end what lanes hold. The count stands still at its last value.
    pub fn ends_due(&self) -> usize
        ensures { result ≡ min (ends_due self.now) (2 ^ 64 - 1) }
    {
        let claims = self.queue.claims().len();
        let tickets = self.indexes.arriving().len();
        let dirs = self.dirs.entries().len();
        claims
            .saturating_add(tickets)
            .saturating_add(dirs)
            .saturating_add(stages(&self.stage))
    }

    /// The package of a ticket is opened as a directory with a new number, and takes the place of the active
    /// one under its path.
    pub fn open_arrived(&mut self, number: u64, lane: u32, ticket: u64) -> Result<(), AllocError>
        requires ready { IsReady self.old }
        requires fresh { All (λ dir. dir.number ≢ number) self.old.dirs }
        requires arrives { IsSome (arrival_of self.old.arriving ticket) }
        ensures ok { OnOk result (IsSettled [] (next_want self.old number lane ticket wants.Opened) self.new) }
        ensures err { OnErr result (self.new ≡ self.old) }
    {
        let replaced = self.replaced(ticket);
        self.open_ticket(number, lane, ticket)?;
        if let Some(root) = replaced {
            self.forget(&root);
        }
        Ok(())
    }
}

fn stages(stage: &Option<Turn>) -> usize
    ensures { result ≡ stage_ends stage.now }
{
    match stage {
        Some(_) => 1,
        None => 0,
    }
}
