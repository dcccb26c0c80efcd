//! A list of numbers that seats append to, each in a thread of its own.
ghost use Rattle.std.specs.Prelude.{◌≡◌, [], ◌<◌, All, IfOk};
ghost use Rattle.turn_lock.specs.Rule.{TakesTurn};
ghost use Rattle.turn_lock_bench.specs.Tally.{tally_log};

use std::alloc::{AllocError, Global};
use std::rt::Clock;
use std::sync::{Mutex, Wait};
use std::thread;
use std::thread::Threads;
use std::time::Instant;
use turn_lock::{Logged, Seat, Turn};

/// An entry: who made it.
#[derive(Clone, Copy)]
pub struct Stroke {
    pub lane: u32,
}

/// The value under the lock.
#[derive(Drop)]
pub struct Tally {
    pub name: u64,
    pub strokes: Vec<Stroke>,
}

impl Logged for Tally {
    type Entry = Stroke;

    type Origin = u64;

    type Held = ();

    ghost entries = { λ t. t.strokes.items };

    ghost by = { λ e. e.lane };

    ghost origin = { λ t. t.name };

    ghost held = { λ lane t. tt };
}

impl Tally {
    pub fn make(alloc: Global) -> Tally
        ensures { result.strokes.items ≡ [] }
    {
        Tally {
            name: 0,
            strokes: Vec::new(alloc),
        }
    }

    fn add(&mut self, lane: u32) -> Result<(), AllocError>
        ensures turn { TakesTurn tally_log lane self.old self.new }
    {
        self.strokes.push(Stroke { lane })?;
        Ok(())
    }
}

/// Lets so many microseconds pass.
fn hold<R: Clock>(rt: &R, micros: u64) {
    if micros == 0 {
        return;
    }
    let Ok(start) = Instant::now(rt) else {
        return;
    };
    for _ in 0..u64::MAX {
        match start.elapsed(rt) {
            Ok(time) if time.as_micros() < u128::from(micros) => {}
            _ => return,
        }
    }
}

/// A seat that makes so many turns, each of so many microseconds.
fn strokes<R: Wait + Clock>(
    rt: &R,
    lock: &Turn<Tally>,
    mut seat: Seat<Tally>,
    turns: u64,
    micros: u64,
) -> Seat<Tally>
    requires { seat.lock ≡ lock.now }
    ensures { result ≡ record seat { seen = result.seen; kept = result.kept } }
{
    let lane = seat.lane();
    for _ in 0..turns {
        let mut inside = lock.enter(rt, seat);
        let _ = inside.value().add(lane);
        hold(rt, micros);
        seat = lock.leave(inside, false);
    }
    seat
}

/// Seats of lanes from 1 on, so many of them.
fn seats(
    alloc: Global,
    lock: &Turn<Tally>,
    first: &mut Seat<Tally>,
    count: u32,
) -> Result<Vec<Seat<Tally>>, AllocError>
    requires lock { first.old.lock ≡ lock.now }
    requires lane { first.old.lane ≡ 0 }
    requires splits { first.old.splits ≡ [] }
    requires count { count < 1000 }
    ensures lock { first.new.lock ≡ lock.now }
    ensures each { IfOk result (λ v. All (λ s. s.lock ≡ lock.now) v.items) }
{
    let mut all = Vec::with_capacity(alloc, count as usize)?;
    for lane in 1..count + 1 {
        all.push(lock.split(first, lane))?;
    }
    Ok(all)
}

/// Each seat makes so many turns, in a thread of its own. Gives how many strokes there are.
pub fn with_turns<R: Threads + Wait + Sync + Clock>(
    rt: &R,
    alloc: Global,
    count: u32,
    turns: u64,
    micros: u64,
) -> Result<usize, AllocError>
    requires { count < 1000 }
{
    let Ok((lock, mut first)) = turn_lock::make(alloc, Tally::make(alloc)) else {
        return Err(AllocError);
    };
    let all = seats(alloc, &lock, &mut first, count)?;
    thread::map_vec(
        rt,
        all,
        &|seat: Seat<Tally>| -> Seat<Tally>
            requires { seat.lock ≡ lock }
        { strokes(rt, &lock, seat, turns, micros) },
    )?;
    let mut inside = lock.enter(rt, first);
    let made = inside.value().strokes.len();
    lock.leave(inside, false);
    Ok(made)
}

/// The same under a `Mutex`.
pub fn with_mutex<R: Threads + Wait + Sync + Clock>(
    rt: &R,
    alloc: Global,
    count: u32,
    turns: u64,
    micros: u64,
) -> Result<usize, AllocError> {
    let lock = Mutex::new(Tally::make(alloc));
    thread::map_indices(
        rt,
        alloc,
        count as usize,
        &|_| {
            for _ in 0..turns {
                let mut tally = lock.lock(rt);
                let _ = tally.add(0);
                hold(rt, micros);
            }
        },
    )?;
    Ok(lock.into_inner().strokes.len())
}
