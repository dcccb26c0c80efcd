//! The bell. No clause speaks of how often it rang.
ghost use Rattle.std.specs.Prelude.{◌≡◌};

use crate::notes::{Note, Notes, add};
use std::alloc::{AllocError, Global};
use std::rt::Clock;
use std::sync::Wait;
use std::test::Fail;
use std::thread;
use std::thread::{Threads, join};
use std::time::Duration;
use turn_lock::{Seat, Turn, make_from};

/// Numbers from which the bell and the tickets are counted: the first, and those before a number wraps.
const NUMBERS: [u64; 3] = [0, 0xffff_ffff, u64::MAX];

/// A turn that begins late, takes its time, and rings.
fn slow<R: Wait + Clock>(rt: &R, lock: &Turn<Notes>, seat: Seat<Notes>) -> Seat<Notes>
    requires { seat.lock ≡ lock.now }
    ensures { (result.lock ≡ seat.lock) × (result.lane ≡ seat.lane) }
{
    thread::sleep(rt, Duration::from_millis(40));
    let lane = seat.lane();
    let mut inside = lock.enter(rt, seat);
    thread::sleep(rt, Duration::from_millis(40));
    let _ = inside.value().add(Note { lane, number: 0 });
    lock.leave(inside, true)
}

/// A turn after the bell has rung.
fn after_ring<R: Wait>(rt: &R, lock: &Turn<Notes>, seat: Seat<Notes>, seen: u64) -> Seat<Notes>
    requires { seat.lock ≡ lock.now }
    ensures { (result.lock ≡ seat.lock) × (result.lane ≡ seat.lane) }
{
    lock.wait_bell(rt, seen);
    let lane = seat.lane();
    add(rt, lock, seat, Note { lane, number: 0 }).0
}

/// One thread waits for the bell, whose number is the one that is served, while the other makes a slow turn.
fn rung<R: Threads + Wait + Sync + Clock>(
    rt: &R,
    alloc: Global,
    number: u64,
) -> Result<Notes, AllocError> {
    let Ok((lock, mut first)) = make_from(alloc, Notes::make(alloc, 7), number) else {
        return Err(AllocError);
    };
    let one = lock.split(&mut first, 1);
    let two = lock.split(&mut first, 2);
    let seen = lock.bell();
    let (one, two) = join(
        rt,
        || slow(rt, &lock, one),
        || after_ring(rt, &lock, two, seen),
    );
    lock.join(&mut first, one);
    lock.join(&mut first, two);
    Ok(lock.close(first))
}

#[test]
fn a_ring_wakes_the_one_that_waits(rt: HostRuntime) -> Result<(), Fail> {
    for number in NUMBERS {
        let notes = rung(&rt, rt.alloc(), number)?;
        assert_eq!(rt; notes.notes.len(), 2);
        assert_eq!(rt; notes.notes.iter().map(|note| note.lane).next(), Some(1));
    }
    Ok(())
}

#[test]
fn each_ring_raises_the_number_by_one(rt: HostRuntime) -> Result<(), Fail> {
    for number in NUMBERS {
        let Ok((lock, seat)) = make_from(rt.alloc(), Notes::make(rt.alloc(), 7), number) else {
            return Err(Fail::from("memory"));
        };
        assert_eq!(rt; lock.bell(), number);
        let inside = lock.enter(&rt, seat);
        let seat = lock.leave(inside, false);
        assert_eq!(rt; lock.bell(), number);
        let (seat, added) = add(&rt, &lock, seat, Note { lane: 0, number: 1 });
        added?;
        assert_eq!(rt; lock.bell(), number.wrapping_add(1));
        // an old number
        lock.wait_bell(&rt, number);
        lock.wait_bell(&rt, number.wrapping_sub(1));
        let (seat, added) = add(&rt, &lock, seat, Note { lane: 0, number: 2 });
        added?;
        assert_eq!(rt; lock.bell(), number.wrapping_add(2));
        assert_eq!(rt; lock.close(seat).notes.len(), 2);
    }
    Ok(())
}
