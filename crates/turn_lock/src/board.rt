//! The table that the seats share, and what a seat at it knows.
//! Word 0 counts the tickets, and word 1 is the number that is served. The rule says nothing of the words behind these.
//! The slot holds the value, but while a turn is out with it.
use crate::logged::Logged;
use atomic_table::{Seat, Table, TableRule};
use std::alloc::Global;
use std::collections::LinkedList;
use std::snapshot::Snapshot;

/// What a seat is about.
pub enum Stage<T> {
    Rests,
    /// It waits with a ticket.
    Waits(u64),
    /// It has its turn, which began at this value.
    Holds(u64, T),
    /// It names a lane that it will split off.
    Names(u64),
    /// It took in another seat: it had seen the first list, and the other the second.
    Joined(T, T, u64),
}

/// What a seat knows. No value of it is made. A clause reads an array as a list, of any length, and a `LinkedList` too.
pub struct Knows<T> {
    pub lane: u64,
    /// The value at `make`.
    pub made: T,
    /// The value whose list was seen.
    pub seen: T,
    /// A value that holds for the lane what the value under the lock holds for it.
    pub kept: T,
    /// The lanes that were split off.
    pub splits: [u64; 0],
    /// The lanes that were joined.
    pub ended: [u64; 0],
    /// The lanes that were joined, each with a value that holds for it what the value under the lock does.
    pub remains: LinkedList<(u64, T)>,
    pub stage: Stage<T>,
}

/// The view of a seat.
pub enum View<T> {
    Spent,
    Sits(Knows<T>),
}

/// The rule of the table.
pub struct Law;

impl<T: Logged> TableRule<Option<T>, View<T>, Snapshot<T>> for Law {
    ghost use Rattle.turn_lock.specs.Rule.{IsTable, log, starting};

    ghost holds = { λ key. IsTable (log T.entries T.by T.origin T.held) key.value };

    ghost first = { λ key. starting key.value };
}

pub type Board<T> = Table<Option<T>, View<T>, Snapshot<T>, Law, Global>;

pub type TableSeat<T> = Seat<Option<T>, View<T>>;

/// The rule of the second table: each view is the value at `make`.
pub struct Same;

impl<T> TableRule<(), T, Snapshot<T>> for Same {
    ghost use Rattle.turn_lock.specs.Rule.{AllSame};

    ghost holds = { λ key. AllSame key.value };

    ghost first = { λ key. key.value };
}

/// A table of no slots, whose seats remember the value at `make`.
pub type Stamps<T> = Table<(), T, Snapshot<T>, Same, Global>;

pub type Stamp<T> = Seat<(), T>;
