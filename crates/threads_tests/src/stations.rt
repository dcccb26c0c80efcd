//! Threads that borrow one value with the lock in it, each with a seat of its own.
ghost use Rattle.std.specs.Prelude.{◌≡◌, ◌<◌, ℕ, true, false, length, All, IfOk, IsSome, Some, slice_index_or, replicate};
ghost use Rattle.threads_tests.specs.Depot.{PutTimes, HasPut};
ghost use Rattle.threads_tests.specs.Stations.{IsReady, Served};

use crate::depot::Depot;
use disk_model::Disk;
use std::alloc::{AllocError, Global};
use std::sync::Wait;
use std::thread;
use std::thread::Threads;
use turn_lock::{Seat, Turn, make};

/// What all threads borrow.
#[derive(Drop)]
pub struct Shared<D: Disk + Drop> {
    pub turn: Turn<Depot<D>>,
    /// How many pieces each station is to put.
    pub pieces: u64,
}

/// What one thread has. The seat is out while it has a turn.
#[derive(Drop)]
pub struct Station<D: Disk + Drop> {
    pub seat: Option<Seat<Depot<D>>>,
    /// The byte that its pieces are of.
    pub byte: u8,
    /// How many pieces it has put.
    pub count: u64,
}

/// One turn, which puts a piece. Tells whether it was noted.
fn put<D: Disk + Drop, R: Wait>(
    rt: &R,
    lock: &Turn<Depot<D>>,
    seat: Seat<Depot<D>>,
    piece: &[u8; 4096],
) -> (Seat<Depot<D>>, bool)
    requires { seat.lock ≡ lock.now }
    ensures seat { result.0 ≡ record seat { seen = result.0.seen; kept = result.0.kept } }
    ensures done { result.1 ≡ true → PutTimes piece.now 1 seat result.0 }
    ensures refused { result.1 ≡ false → PutTimes piece.now 0 seat result.0 }
{
    let lane = seat.lane();
    let mut inside = lock.enter(rt, seat);
    let done = inside.value().put(lane, piece);
    (lock.leave(inside, false), done)
}

/// So many turns. Tells how many pieces were noted.
#[tactic(auto, using(crate::proofs::Depots::puts_begin))]
fn put_all<D: Disk + Drop, R: Wait>(
    rt: &R,
    lock: &Turn<Depot<D>>,
    mut seat: Seat<Depot<D>>,
    piece: &[u8; 4096],
    pieces: u64,
) -> (Seat<Depot<D>>, u64)
    requires { seat.lock ≡ lock.now }
    ensures { PutTimes piece.now result.1 seat result.0 }
{
    let mut count = 0;
    for turn in 0..pieces {
        let (next, done) = put(rt, lock, seat, piece);
        seat = next;
        if done {
            count += 1;
        }
    }
    (seat, count)
}

impl<D: Disk + Drop> Station<D> {
    pub fn new(seat: Seat<Depot<D>>, byte: u8) -> Station<D>
        ensures { result ≡ record { seat = Some seat; byte = byte; count = 0 } }
    {
        Station {
            seat: Some(seat),
            byte,
            count: 0,
        }
    }

    /// Its seat, and how many pieces it has put.
    pub fn into_seat(self) -> (Seat<Depot<D>>, u64)
        requires { IsSome self.seat }
        ensures { (self.seat ≡ Some result.0) × (self.count ≡ result.1) }
    {
        let Station { seat, count, .. } = self;
        (seat.unwrap(), count)
    }

    fn serve<R: Wait>(&mut self, rt: &R, shared: &Shared<D>)
        requires { IsReady shared.now.turn self.old }
        ensures { Served self.old self.new }
    {
        if let Some(seat) = self.seat.take() {
            let piece = [self.byte; 4096];
            let (seat, count) = put_all(rt, &shared.turn, seat, &piece, shared.pieces);
            self.seat = Some(seat);
            self.count = count;
        }
    }
}

/// Each station makes its turns, in a thread of its own. The disk need not be `Sync`.
pub fn serve_all<D: Disk + Drop + Send, R: Threads + Wait + Sync>(
    rt: &R,
    shared: &Shared<D>,
    stations: &mut [Station<D>],
)
    requires { All (IsReady shared.now.turn) stations.old }
    ensures len { length stations.new ≡ length stations.old }
    ensures each { (i : ℕ) (d : _) → i < length stations.old
        → Served (slice_index_or stations.old i d) (slice_index_or stations.new i d) }
{
    thread::for_each_mut(
        rt,
        stations,
        8,
        &|_, station: &mut Station<D>|
            requires { IsReady shared.now.turn station.old }
            ensures { Served station.old station.new }
        { station.serve(rt, shared) },
    );
}

/// Two stations make their turns, at once.
pub fn serve_two<D: Disk + Drop + Send, R: Threads + Wait + Sync>(
    rt: &R,
    alloc: Global,
    shared: &Shared<D>,
    one: Station<D>,
    two: Station<D>,
) -> Result<(Station<D>, Station<D>), AllocError>
    requires { IsReady shared.now.turn one × IsReady shared.now.turn two }
    ensures one { IfOk result (λ r. Served one r.0) }
    ensures two { IfOk result (λ r. Served two r.1) }
{
    let mut stations = Vec::with_capacity(alloc, 2)?;
    stations.push(one)?;
    stations.push(two)?;
    serve_all(rt, shared, stations.as_mut_slice());
    let two = stations.pop().unwrap();
    let one = stations.pop().unwrap();
    Ok((one, two))
}

/// Two stations put up to so many pieces each, at once, and then the lock is closed. Tells how many each has put.
pub fn serve_and_close<D: Disk + Drop + Send, R: Threads + Wait + Sync>(
    rt: &R,
    alloc: Global,
    disk: D,
    pieces: u64,
) -> Result<(Depot<D>, u64, u64), AllocError>
    ensures begun { IfOk result (λ r. r.0.begun ≡ disk) }
    ensures one { IfOk result (λ r. HasPut r.0 1 (replicate 4096 1) r.1) }
    ensures two { IfOk result (λ r. HasPut r.0 2 (replicate 4096 2) r.2) }
{
    let Ok((turn, mut first)) = make(alloc, Depot::make(alloc, disk)?) else {
        return Err(AllocError);
    };
    let one = Station::new(turn.split(&mut first, 1), 1);
    let two = Station::new(turn.split(&mut first, 2), 2);
    let shared = Shared { turn, pieces };
    let (one, two) = serve_two(rt, alloc, &shared, one, two)?;
    let (one, ones) = one.into_seat();
    let (two, twos) = two.into_seat();
    let Shared { turn, .. } = shared;
    turn.join(&mut first, one);
    turn.join(&mut first, two);
    Ok((turn.close(first), ones, twos))
}
