//! The lock.
ghost use Rattle.std.specs.Prelude.{◌≡◌, ◌≢◌, ◌<◌, ◌+◌, ◌++◌, length, List, ◌∷◌, [], ◌⊎◌, ℕ, All, IfOk, IfErr, None, Some};
ghost use mathlib.Core.List.{IsPrefix};
ghost use Rattle.turn_lock.specs.Entries.{entries_by};
ghost use Rattle.turn_lock.specs.Sitting.{Has, first_seat, mine, kept};
ghost use Rattle.turn_lock.specs.Rule.{log, TakesTurn};
ghost use Rattle.turn_lock.specs.Steps.{came, IsWaiting};

use crate::board::{Board, Stamps, TableSeat};
use crate::logged::Logged;
use crate::plays::{Cut, Look, Merge, Name, Serve, Stir, Take, Tell, Twin};
use crate::seat::{Inside, Seat};
use std::alloc::{AllocFailed, Global};
use std::marker::Model;
use std::snapshot::Snapshot;
use std::sync::Wait;

const TICKET: usize = 0;

const SERVING: usize = 1;

const BELL: usize = 2;

/// The first of the words on which waiting threads park, each on the one of its number.
const PARKING: usize = 3;

/// How many such words there are.
const PARKING_WORDS: u64 = 16;

const WORDS: usize = 19;

/// The lock, with the value while no turn is out with it.
#[derive(Drop)]
pub struct Turn<T: Logged> {
    board: Board<T>,
    stamps: Stamps<T>,
}

impl<T: Logged> Model for Turn<T> {
    ghost use Rattle.turn_lock.specs.Sitting.{Lock};

    ghost Value = { Lock };

    ghost use Rattle.std.specs.Prelude.{◌≡◌};

    ghost view = { λ t. record { board = t.board.shared.table_id; stamps = t.stamps.shared.table_id } };

    ghost invariant = { λ t. (t.board.shared.table_id.words ≡ 19) × (t.board.shared.table_id.slots ≡ 1)
        × (t.stamps.shared.table_id.words ≡ 1) };
}

/// There was no memory. The value comes back.
#[derive(Drop)]
pub struct MakeRefusal<T> {
    pub value: T,
}

/// A lock over the value, and the first seat, whose lane is 0.
pub fn make<T: Logged>(alloc: Global, value: T) -> Result<(Turn<T>, Seat<T>), MakeRefusal<T>>
    ensures ok { IfOk result (λ r. r.1 ≡ first_seat r.0 value) }
    ensures err { IfErr result (λ r. r.value ≡ value) }
{
    make_from(alloc, value, 0)
}

/// The same, with tickets and the bell counted from `number` on.
pub fn make_from<T: Logged>(
    alloc: Global,
    value: T,
    number: u64,
) -> Result<(Turn<T>, Seat<T>), MakeRefusal<T>>
    ensures ok { IfOk result (λ r. r.1 ≡ first_seat r.0 value) }
    ensures err { IfErr result (λ r. r.value ≡ value) }
{
    let about = Snapshot::of(&value);
    let Ok((stamps, stamp)) = Stamps::of_words(alloc, &[0], &about) else {
        return Err(MakeRefusal { value });
    };
    let slots = one_slot(alloc, value)?;
    match Board::new(alloc, &[number; WORDS], slots, &about) {
        Ok((board, place)) => Ok((
            Turn { board, stamps },
            Seat {
                place,
                stamp,
                lane: 0,
            },
        )),
        Err(refused) => Err(MakeRefusal {
            value: only_slot(refused.slots),
        }),
    }
}

fn one_slot<T>(alloc: Global, value: T) -> Result<Vec<Option<T>>, MakeRefusal<T>>
    ensures ok { IfOk result (λ v. v.items ≡ Some value ∷ []) }
    ensures err { IfErr result (λ r. r.value ≡ value) }
{
    let mut slots = Vec::new(alloc);
    match slots.push(Some(value)) {
        Ok(()) => Ok(slots),
        Err(failed) => {
            slots.destroy_empty();
            let AllocFailed { value } = failed;
            Err(MakeRefusal {
                value: value.unwrap(),
            })
        }
    }
}

fn only_slot<T>(mut slots: Vec<Option<T>>) -> T
    requires { (x : T) × (slots.items ≡ Some x ∷ []) }
    ensures { slots.items ≡ Some result ∷ [] }
{
    let value = slots.pop().unwrap().unwrap();
    slots.destroy_empty();
    value
}

// The word on which the thread with this number parks.
fn parking(number: u64) -> usize
    ensures { (1 < result) × (result < 19) }
{
    PARKING + (number % PARKING_WORDS) as usize
}

impl<T: Logged> Turn<T> {
    /// Waits for the seat's turn.
    #[tactic(auto, using(crate::proofs::Lists::others_behind))]
    pub fn enter<R: Wait>(&self, rt: &R, seat: Seat<T>) -> Inside<T>
        requires { seat.lock ≡ self.now }
        ensures seat { result.seat ≡ seat }
        ensures value { result.value ≡ result.start }
        ensures since { IsPrefix (T.entries seat.made) (T.entries result.value) }
        ensures origin { T.origin result.value ≡ T.origin seat.made }
        ensures seen { IsPrefix (T.entries seat.seen) (T.entries result.value) }
        ensures own { entries_by T.by seat.lane (T.entries result.value) ≡ mine T.entries T.by seat }
        ensures kept { T.held seat.lane result.value ≡ kept T.held seat }
        ensures ended { seat.lane ≡ 0 → (l : ℕ) → Has seat.ended l
            → entries_by T.by l (T.entries seat.seen) ≡ entries_by T.by l (T.entries result.value) }
        ensures others { (more : List T.Entry) → T.entries result.value ≡ T.entries seat.seen ++ more
            → All (λ e. T.by e ≢ seat.lane) more }
        ensures remains { seat.lane ≡ 0 → All (λ p. T.held p.0 p.1 ≡ T.held p.0 result.value) seat.remains }
        ensures unsplit { seat.lane ≡ 0 → (l : ℕ) → l ≢ 0 → ¬ Has seat.splits l
            → entries_by T.by l (T.entries seat.made) ≡ entries_by T.by l (T.entries result.value) }
        ensures untouched { seat.lane ≡ 0 → (l : ℕ) → l ≢ 0 → ¬ Has seat.splits l
            → T.held l seat.made ≡ T.held l result.value }
    {
        let (mut place, stamp, lane) = seat.into_parts();
        let shared = &self.board.shared;
        let number = shared.fetch_add::<Take>(&mut place, TICKET, 1);
        self.wait_turn(rt, &mut place, number);
        let value = self.board.shared.exchange(&mut place, 0, None).unwrap();
        Inside {
            place,
            stamp,
            lane,
            value,
        }
    }

    // Waits until the number is served.
    fn wait_turn<R: Wait>(&self, rt: &R, place: &mut TableSeat<T>, number: u64)
        requires lock { place.old.table_id ≡ self.now.board }
        requires waits { IsWaiting number place.old.me }
        ensures same { (place.new.table_id ≡ place.old.table_id) × (place.new.id ≡ place.old.id) }
        ensures came { came (log T.entries T.by T.origin T.held) place.old.me place.new.me }
    {
        let parking = parking(number);
        for _ in rt.forever() {
            let before = self.board.shared.peek(parking);
            let found = self.board.shared.load::<Look>(place, SERVING);
            if found == number {
                return;
            }
            self.park(rt, parking, before);
        }
        unreachable!()
    }

    // Sleeps while the word is `seen`. A wake may also come for no reason.
    fn park<R: Wait>(&self, rt: &R, word: usize, seen: u64)
        requires { word < 19 }
    {
        let low = (seen & 0xffff_ffff) as u32;
        self.board.shared.park(rt, word, low);
    }

    /// Ends the turn, and rings the bell if asked to.
    pub fn leave(&self, inside: Inside<T>, ring: bool) -> Seat<T>
        requires lock { inside.seat.lock ≡ self.now }
        requires turn { TakesTurn (log T.entries T.by T.origin T.held) inside.seat.lane inside.start inside.value }
        ensures seat { result ≡ record inside.seat { seen = inside.value; kept = inside.value } }
        ensures seen { IsPrefix (T.entries inside.seat.seen) (T.entries result.seen) }
        ensures quiet { T.entries inside.value ≡ T.entries inside.start
            → mine T.entries T.by result ≡ mine T.entries T.by inside.seat }
        ensures entry { (e : T.Entry) → T.by e ≡ inside.seat.lane
            → T.entries inside.value ≡ T.entries inside.start ++ e ∷ []
            → mine T.entries T.by result ≡ mine T.entries T.by inside.seat
            ++ (length (T.entries inside.start) + 1, e) ∷ [] }
        ensures others { (l : ℕ) → l ≢ inside.seat.lane
            → entries_by T.by l (T.entries inside.start) ≡ entries_by T.by l (T.entries result.seen) }
        ensures origin { T.origin result.seen ≡ T.origin inside.seat.made }
    {
        let mut seat = self.serve(inside);
        let next = self.board.shared.peek(SERVING);
        if self.board.shared.peek(TICKET) != next {
            self.stir(&mut seat, parking(next));
        }
        if ring {
            self.stir(&mut seat, BELL);
        }
        seat
    }

    // Ends the turn.
    fn serve(&self, inside: Inside<T>) -> Seat<T>
        requires lock { inside.seat.lock ≡ self.now }
        requires turn { TakesTurn (log T.entries T.by T.origin T.held) inside.seat.lane inside.start inside.value }
        ensures seat { result ≡ record inside.seat { seen = inside.value; kept = inside.value } }
        ensures seen { IsPrefix (T.entries inside.seat.seen) (T.entries result.seen) }
        ensures quiet { T.entries inside.value ≡ T.entries inside.start
            → mine T.entries T.by result ≡ mine T.entries T.by inside.seat }
        ensures entry { (e : T.Entry) → T.by e ≡ inside.seat.lane
            → T.entries inside.value ≡ T.entries inside.start ++ e ∷ []
            → mine T.entries T.by result ≡ mine T.entries T.by inside.seat
            ++ (length (T.entries inside.start) + 1, e) ∷ [] }
        ensures others { (l : ℕ) → l ≢ inside.seat.lane
            → entries_by T.by l (T.entries inside.start) ≡ entries_by T.by l (T.entries result.seen) }
        ensures origin { T.origin result.seen ≡ T.origin inside.seat.made }
    {
        let Inside {
            mut place,
            stamp,
            lane,
            value,
        } = inside;
        self.put(&mut place, value);
        let shared = &self.board.shared;
        shared.fetch_add::<Serve>(&mut place, SERVING, 1);
        Seat { place, stamp, lane }
    }

    // The seat's slot is empty, and takes the value.
    fn put(&self, place: &mut TableSeat<T>, value: T)
        requires { (place.old.table_id ≡ self.now.board) × (place.old.me.1 ≡ (0, None) ∷ []) }
        ensures { (place.new.table_id ≡ place.old.table_id) × (place.new.id ≡ place.old.id)
            × (place.new.me ≡ (place.old.me.0, (0, Some value) ∷ [])) }
    {
        match self.board.shared.exchange(place, 0, Some(value)) {
            None => {}
            Some(_) => unreachable!(),
        }
    }

    // Raises the word, and wakes the threads that park on it.
    fn stir(&self, seat: &mut Seat<T>, word: usize)
        requires lock { seat.old.lock ≡ self.now }
        requires word { (1 < word) × (word < 19) }
        ensures { seat.new ≡ seat.old }
    {
        let shared = &self.board.shared;
        shared.fetch_add::<Stir>(&mut seat.place, word, 1);
        shared.wake_all(word);
    }

    /// The number of the bell, which each ring raises by one. After 2^64 - 1 comes 0.
    pub fn bell(&self) -> u64 {
        self.board.shared.peek(BELL)
    }

    /// Waits while the bell has the number `seen`.
    pub fn wait_bell<R: Wait>(&self, rt: &R, seen: u64) {
        for _ in rt.forever() {
            if self.bell() != seen {
                return;
            }
            self.park(rt, BELL, seen);
        }
        unreachable!()
    }

    /// A seat for another lane.
    pub fn split(&self, seat: &mut Seat<T>, lane: u32) -> Seat<T>
        requires lock { seat.old.lock ≡ self.now }
        requires first { seat.old.lane ≡ 0 }
        requires lane { (lane ≢ 0) × (¬ Has seat.old.splits lane) }
        ensures seat { seat.new ≡ record seat.old { splits = lane ∷ seat.old.splits } }
        ensures new { result ≡ record (first_seat seat.old.lock seat.old.made) { lane = lane; seen = seat.old.seen } }
        ensures own { mine T.entries T.by result ≡ entries_by T.by lane (T.entries seat.old.made) }
        ensures unsplit { (l : ℕ) → l ≢ 0 → ¬ Has seat.old.splits l
            → entries_by T.by l (T.entries seat.old.made) ≡ entries_by T.by l (T.entries seat.old.seen) }
    {
        let name = lane as u64;
        let shared = &self.board.shared;
        shared.compare_exchange::<Name>(&mut seat.place, TICKET, name, name);
        let place = shared.split_seat::<Cut>(&mut seat.place);
        let stamp = self.stamps.shared.split_seat::<Twin>(&mut seat.stamp);
        Seat { place, stamp, lane }
    }

    /// Takes in the seat of a lane that has ended.
    pub fn join(&self, seat: &mut Seat<T>, other: Seat<T>)
        requires lock { (seat.old.lock ≡ self.now) × (other.lock ≡ self.now) }
        requires first { seat.old.lane ≡ 0 }
        ensures seat { seat.new ≡ record seat.old {
          seen = seat.new.seen;
          ended = other.lane ∷ seat.old.ended;
          remains = (other.lane, other.kept) ∷ seat.old.remains;
        } }
        ensures longer { (seat.new.seen ≡ seat.old.seen) ⊎ (seat.new.seen ≡ other.seen) }
        ensures mine { IsPrefix (T.entries seat.old.seen) (T.entries seat.new.seen) }
        ensures theirs { IsPrefix (T.entries other.seen) (T.entries seat.new.seen) }
        ensures own { mine T.entries T.by seat.new ≡ mine T.entries T.by seat.old }
        ensures joined { entries_by T.by other.lane (T.entries seat.new.seen) ≡ mine T.entries T.by other }
        ensures ended { (l : ℕ) → Has seat.old.ended l → l ≢ other.lane
            → entries_by T.by l (T.entries seat.old.seen) ≡ entries_by T.by l (T.entries seat.new.seen) }
        ensures unsplit { (l : ℕ) → l ≢ 0 → ¬ Has seat.old.splits l
            → entries_by T.by l (T.entries seat.old.made) ≡ entries_by T.by l (T.entries seat.new.seen) }
    {
        let (place, _, _) = other.into_parts();
        let shared = &self.board.shared;
        shared.join_seat::<Merge>(&mut seat.place, place);
        shared.load::<Tell>(&mut seat.place, TICKET);
    }

    /// Takes the value, once all other seats were joined.
    pub fn close(self, seat: Seat<T>) -> T
        requires lock { seat.lock ≡ self }
        requires first { seat.lane ≡ 0 }
        requires joined { (l : ℕ) → Has seat.splits l → Has seat.ended l }
        ensures origin { T.origin result ≡ T.origin seat.made }
        ensures list { T.entries result ≡ T.entries seat.seen }
        ensures since { IsPrefix (T.entries seat.made) (T.entries result) }
        ensures unsplit { (l : ℕ) → l ≢ 0 → ¬ Has seat.splits l
            → entries_by T.by l (T.entries seat.made) ≡ entries_by T.by l (T.entries result) }
        ensures kept { T.held 0 result ≡ kept T.held seat }
        ensures remains { All (λ p. T.held p.0 p.1 ≡ T.held p.0 result) seat.remains }
        ensures untouched { (l : ℕ) → l ≢ 0 → ¬ Has seat.splits l → T.held l seat.made ≡ T.held l result }
    {
        let Turn { board, stamps: _ } = self;
        let (place, _, _) = seat.into_parts();
        let mut closed = board.close_with(place);
        let value = closed.take(0).unwrap();
        closed.free();
        value
    }
}
