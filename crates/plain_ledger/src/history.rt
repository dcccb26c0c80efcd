//! The history of a store, with room for more.

ghost use Rattle.std.specs.Prelude.{◌≡◌, ◌+◌, ◌<◌, ◌≤◌, [], length, OnOk};
ghost use Rattle.plain_ledger.specs.Ledgers.{Pushes};

use std::alloc::{AllocError, Global};
use std::marker::Model;
use store_model::{Act, Event};

/// The events so far. Contracts see them, and how many more fit without memory.
#[derive(Debug, Drop)]
pub(crate) struct History {
    events: Vec<Event>,
}

impl Model for History {
    ghost use Rattle.std.specs.Prelude.{◌-◌, vec_len, vec_capacity};
    ghost use Rattle.plain_ledger.specs.Ledgers.{Noted};

    ghost Value = { Noted };

    ghost view = { λ h. record { events = h.events.items; spare = vec_capacity h.events - vec_len h.events } };
}

impl History {
    pub(crate) fn new(alloc: Global) -> History
        ensures { result.events ≡ [] }
    {
        History {
            events: Vec::new(alloc),
        }
    }

    /// The number of the next event.
    pub(crate) fn next_number(&self) -> u64
        ensures { result ≡ length self.now.events + 1 }
    {
        self.events.len() as u64 + 1
    }

    /// Makes room for so many more events in all.
    pub(crate) fn reserve(&mut self, places: usize) -> Result<(), AllocError>
        ensures events { self.new.events ≡ self.old.events }
        ensures ok { OnOk result (places ≤ self.new.spare) }
        ensures kept { self.old.spare ≤ self.new.spare }
    {
        self.events.reserve(places)
    }

    /// Puts the lane's event of this act last. No write failed in it.
    pub(crate) fn note(&mut self, lane: u32, act: Act)
        requires { 0 < self.old.spare }
        ensures { Pushes lane act self.old self.new }
    {
        self.events.push_reserved(Event {
            lane,
            act,
            broke: false,
        });
    }

    pub(crate) fn into_vec(self) -> Vec<Event>
        ensures { result.items ≡ self.events }
    {
        self.events
    }
}
