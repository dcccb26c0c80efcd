//! The tokens of the lock.
use crate::board::{Stamp, TableSeat};
use std::marker::Model;

/// A lane's place at the lock.
pub struct Seat<T> {
    pub(crate) place: TableSeat<T>,
    pub(crate) stamp: Stamp<T>,
    pub(crate) lane: u32,
}

impl<T> Model for Seat<T> {
    ghost use Rattle.turn_lock.specs.Sitting.{Sitting};

    ghost Value = { Sitting T };

    ghost use Rattle.std.specs.Prelude.{◌≡◌};
    ghost use Rattle.turn_lock.specs.Rule.{sitting, Rested, knows_or};

    ghost view = { λ s. sitting s.place.table_id s.stamp.table_id s.stamp.me.0 s.place.me.0 };

    ghost invariant = { λ s. Rested s.stamp.me.0 s.place.me × (s.lane ≡ (knows_or s.stamp.me.0 s.place.me.0).lane) };
}

impl<T> Seat<T> {
    ghost use Rattle.std.specs.Prelude.{◌≡◌};
    ghost use Rattle.turn_lock.specs.Rule.{sitting, Rested};

    /// The number of its lane.
    pub fn lane(&self) -> u32
        ensures { result ≡ self.now.lane }
    {
        self.lane
    }

    pub(crate) fn into_parts(self) -> (TableSeat<T>, Stamp<T>, u32)
        ensures rests { Rested result.1.me.0 result.0.me }
        ensures view { sitting result.0.table_id result.1.table_id result.1.me.0 result.0.me.0 ≡ self }
        ensures lane { result.2 ≡ self.lane }
    {
        let Seat { place, stamp, lane } = self;
        (place, stamp, lane)
    }
}

impl<T> Drop for Seat<T> {
    fn drop(self) {
        let Seat {
            place: _,
            stamp: _,
            lane: _,
        } = self;
    }
}

/// A turn, with the value.
pub struct Inside<T> {
    pub(crate) place: TableSeat<T>,
    pub(crate) stamp: Stamp<T>,
    pub(crate) lane: u32,
    pub(crate) value: T,
}

impl<T> Model for Inside<T> {
    ghost use Rattle.turn_lock.specs.Sitting.{Turning};

    ghost Value = { Turning T };

    ghost use Rattle.std.specs.Prelude.{◌≡◌};
    ghost use Rattle.turn_lock.specs.Rule.{turning, Turned, knows_or};

    ghost view = { λ s. turning s.place.table_id s.stamp.table_id s.stamp.me.0 s.place.me.0 s.value };

    ghost invariant = { λ s. Turned s.stamp.me.0 s.place.me × (s.lane ≡ (knows_or s.stamp.me.0 s.place.me.0).lane) };
}

impl<T> Inside<T> {
    ghost use Rattle.std.specs.Borrow.{Lends, sem};
    ghost use Rattle.turn_lock.specs.contracts.seat.Inside.{the_row};
    ghost use Rattle.std.specs.Prelude.{◌≡◌};

    /// The value.
    pub fn value(&mut self) -> &mut T
        ensures* lends { sem 𝓛 (Lends (the_row T.row) T.row self.entry result (λ w. record self.old { value = w })) }
        ensures value { result.now ≡ self.old.value }
    {
        &mut self.value
    }
}
