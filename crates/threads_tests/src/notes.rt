//! A list of numbers as the value under a lock.
ghost use Rattle.std.specs.Prelude.{◌≡◌, ◌∷◌, ◌++◌, [], ◌+◌, length, OnOk, OnErr, map};
ghost use Rattle.turn_lock.specs.Rule.{TakesTurn};
ghost use Rattle.turn_lock.specs.Sitting.{mine};
ghost use Rattle.threads_tests.specs.declared.notes.Note.{Note};
ghost use Rattle.threads_tests.specs.Notes.{notes_log};

use std::alloc::{AllocError, Global};
use std::sync::Wait;
use turn_lock::{Logged, Seat, Turn};

#[derive(Clone, Copy, Debug, PartialEq, Eq)]
pub struct Note {
    pub lane: u32,
    pub number: u64,
}

#[derive(Drop)]
pub struct Notes {
    pub name: u64,
    pub notes: Vec<Note>,
}

impl Logged for Notes {
    type Entry = Note;

    type Origin = u64;

    type Held = ();

    ghost entries = { λ n. n.notes.items };

    ghost by = { λ e. e.lane };

    ghost origin = { λ n. n.name };

    ghost held = { λ lane n. tt };
}

impl Notes {
    pub fn make(alloc: Global, name: u64) -> Notes
        ensures { (result.name ≡ name) × (result.notes.items ≡ []) }
    {
        Notes {
            name,
            notes: Vec::new(alloc),
        }
    }

    pub fn add(&mut self, note: Note) -> Result<(), AllocError>
        ensures turn { TakesTurn notes_log note.lane self.old self.new }
        ensures ok { OnOk result (self.new.notes.items ≡ self.old.notes.items ++ note ∷ []) }
        ensures err { OnErr result (self.new.notes.items ≡ self.old.notes.items) }
    {
        self.notes.push(note)?;
        Ok(())
    }
}

/// One turn, which adds a note, and rings.
pub fn add<R: Wait>(
    rt: &R,
    lock: &Turn<Notes>,
    seat: Seat<Notes>,
    note: Note,
) -> (Seat<Notes>, Result<(), AllocError>)
    requires lock { seat.lock ≡ lock.now }
    requires lane { note.lane ≡ seat.lane }
    ensures seat { result.0 ≡ record seat { seen = result.0.seen; kept = result.0.kept } }
    ensures ok { OnOk result.1 (map (λ p. p.1) (mine (λ n. n.notes.items) (λ e. e.lane) result.0)
        ≡ map (λ p. p.1) (mine (λ n. n.notes.items) (λ e. e.lane) seat) ++ note ∷ []) }
    ensures count { OnOk result.1 (length (mine (λ n. n.notes.items) (λ e. e.lane) result.0)
        ≡ length (mine (λ n. n.notes.items) (λ e. e.lane) seat) + 1) }
    ensures err { OnErr result.1 (mine (λ n. n.notes.items) (λ e. e.lane) result.0
        ≡ mine (λ n. n.notes.items) (λ e. e.lane) seat) }
{
    let mut inside = lock.enter(rt, seat);
    let added = inside.value().add(note);
    (lock.leave(inside, true), added)
}

/// Turns that add the numbers from `from` on, below `to`, in order. Tells how many were added.
pub fn add_all<R: Wait>(
    rt: &R,
    lock: &Turn<Notes>,
    mut seat: Seat<Notes>,
    from: u64,
    to: u64,
) -> (Seat<Notes>, u64)
    requires { seat.lock ≡ lock.now }
    ensures seat { result.0 ≡ record seat { seen = result.0.seen; kept = result.0.kept } }
    ensures count { length (mine (λ n. n.notes.items) (λ e. e.lane) result.0)
        ≡ length (mine (λ n. n.notes.items) (λ e. e.lane) seat) + result.1 }
{
    let lane = seat.lane();
    let mut count = 0;
    for number in from..to {
        let (next, added) = add(rt, lock, seat, Note { lane, number });
        seat = next;
        if added.is_ok() {
            count += 1;
        }
    }
    (seat, count)
}
