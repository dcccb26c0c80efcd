//! The slot that a record settles on.

ghost use Rattle.std.specs.Prelude.{◌≡◌, ◌≤◌, ◌↔◌, IsTrue};
ghost use Rattle.abr_record.specs.Settling.{SettlesOn};

use crate::booting::boot;
use crate::{Record, Slot};

/// The slot that boots once boots change nothing more, and how many boots that takes.
#[derive(Clone, Copy, Debug, PartialEq, Eq)]
pub struct Settled {
    pub slot: Slot,
    pub boots: u32,
}

fn is_same(a: &Record, b: &Record) -> bool
    ensures { IsTrue result ↔ (a.now ≡ b.now) }
{
    a == b
}

// Boots a record until a boot leaves it as it is.
fn rest_of(first: Record) -> Settled
    ensures settled { SettlesOn first result }
    ensures few { result.boots ≤ 511 }
{
    let mut current = first;
    let mut boots = 0;
    loop {
        let (slot, next) = boot(&current);
        if is_same(&next, &current) {
            return Settled { slot, boots };
        }
        current = next;
        boots += 1;
    }
}

/// The slot that a record settles on.
pub fn settles(value: &Record) -> Settled
    ensures settled { SettlesOn value.now result }
    ensures few { result.boots ≤ 511 }
{
    rest_of(*value)
}
