//! The state with its history: each call is one event, or nothing.

ghost use Rattle.std.specs.Prelude.{◌≡◌, ◌+◌, ◌<◌, ◌≤◌, false, IfOk, OnOk, OnErr};
ghost use Rattle.store_model.specs.declared.events.Act.TheVariants as acts;
ghost use Rattle.store_model.specs.State.{opened};
ghost use Rattle.store_model.specs.Settling.{IsSeen};
ghost use Rattle.store_model.specs.Step.{IsActDue};
ghost use Rattle.store_model.specs.Acts.Boot.{IsDueBoot, next_boot};
ghost use Rattle.plain_state.specs.Holdings.{ends_due};
ghost use Rattle.plain_state.specs.Learning.{IsSettled};
ghost use Rattle.plain_ledger.specs.Ledgers.{Begins, Notes, Stays, IsStill, next_number, origin_of};

use crate::history::History;
use abr_record::Slot;
use image_layout::Geometry;
use plain_state::{Standing, State};
use std::alloc::{AllocError, Global};
use std::marker::Model;
use std::snapshot::Snapshot;
use store_model::{Act, Event, Looked};

/// The state of a store, and the events that led to it.
#[derive(Drop)]
pub struct Ledger {
    pub(crate) alloc: Global,
    pub(crate) geometry: Geometry,
    pub(crate) began: Snapshot<Standing>,
    pub(crate) state: State,
    pub(crate) history: History,
}

impl Model for Ledger {
    ghost use Rattle.plain_ledger.specs.Ledgers.{LedgerOf, origin_of, IsLedger};

    ghost Value = { LedgerOf };

    ghost view = { λ l. record {
      origin = origin_of l.geometry l.began.value;
      history = l.history.events;
      state = l.state;
    } };

    ghost invariant = { λ l. IsLedger (origin_of l.geometry l.began.value) l.history.events l.history.spare l.state };
}

impl Ledger {
    /// The ledger of a store that has booted. This lasted before the boot, which took this slot and looked at
    /// these blobs.
    pub fn open(
        alloc: Global,
        geometry: Geometry,
        lasted: Snapshot<Standing>,
        state: State,
        slot: Slot,
        seen: Looked,
    ) -> Result<Ledger, AllocError>
        requires due { IsDueBoot (opened geometry lasted.value) 0 slot seen }
        requires there { IsSeen seen lasted.value.stock }
        requires settled { IsSettled seen (next_boot (opened geometry lasted.value) seen) state }
        ensures { IfOk result (λ ledger. Begins (origin_of geometry lasted.value) (acts.Boot slot seen) state ledger) }
    {
        let mut history = History::new(alloc);
        history.reserve(1)?;
        history.note(0, Act::Boot { slot, seen });
        Ok(Ledger {
            alloc,
            geometry,
            began: lasted,
            state,
            history,
        })
    }

    /// The history, and the state after it.
    pub fn into_parts(self) -> (Vec<Event>, State)
        ensures history { result.0.items ≡ self.history }
        ensures state { result.1 ≡ self.state }
    {
        (self.history.into_vec(), self.state)
    }

    /// The state after the history.
    pub fn state(&self) -> &State
        ensures { result.now ≡ self.now.state }
    {
        &self.state
    }

    /// The number of the next event.
    pub fn next_number(&self) -> u64
        ensures { result ≡ next_number self.now }
    {
        self.history.next_number()
    }

    /// An act comes that leaves the state as it is.
    pub fn note(&mut self, lane: u32, act: Act) -> Result<(), AllocError>
        requires due { IsActDue self.old.state lane act }
        requires still { IsStill self.old.state act }
        ensures ok { OnOk result (Notes self.old lane act self.new) }
        ensures err { OnErr result (Stays self.old self.new) }
    {
        make_room(&mut self.history, &self.state, 1)?;
        self.history.note(lane, act);
        Ok(())
    }
}

/// Makes room for so many events beside the ends of what is held.
pub(crate) fn make_room(history: &mut History, state: &State, more: usize) -> Result<(), AllocError>
    requires { 0 < more }
    ensures events { history.new.events ≡ history.old.events }
    ensures ok { OnOk result (ends_due state.now + more ≤ history.new.spare) }
    ensures kept { history.old.spare ≤ history.new.spare }
{
    match state.ends_due().checked_add(more) {
        Some(places) => {
            history.reserve(places)?;
            Ok(())
        }
        None => Err(AllocError),
    }
}
