//! Lanes that add numbers, from where the numbers of tickets wrap too.
ghost use Rattle.std.specs.Prelude.{◌≡◌, ◌≢◌, [], ◌≤◌, ◌<◌, ◌+◌, ℕ, IfOk, vec_len, length, slice_index_or};
ghost use Rattle.turn_lock.specs.Entries.{entries_by};
ghost use Rattle.turn_lock.specs.Sitting.{Has};

use crate::notes::{Note, Notes, add_all};
use std::alloc::{AllocError, Global};
use std::rt::Clock;
use std::sync::Wait;
use std::test::Fail;
use std::thread;
use std::thread::{Threads, join};
use std::time::Duration;
use turn_lock::{Seat, Turn, make, make_from};

/// Two lanes add up to 100 numbers each, at once. Tells how many each added: the list has so many entries of each
/// lane, and no others.
fn both<R: Threads + Wait + Sync>(rt: &R, alloc: Global) -> Result<(Notes, u64, u64), AllocError>
    ensures name { IfOk result (λ r. r.0.name ≡ 7) }
    ensures one { IfOk result (λ r. length (entries_by (λ e. e.lane) 1 r.0.notes.items) ≡ r.1) }
    ensures two { IfOk result (λ r. length (entries_by (λ e. e.lane) 2 r.0.notes.items) ≡ r.2) }
    ensures others { IfOk result (λ r. (l : ℕ) → l ≢ 1 → l ≢ 2 → entries_by (λ e. e.lane) l r.0.notes.items ≡ []) }
{
    let Ok((lock, mut first)) = make(alloc, Notes::make(alloc, 7)) else {
        return Err(AllocError);
    };
    let one = lock.split(&mut first, 1);
    let two = lock.split(&mut first, 2);
    let ((one, ones), (two, twos)) = join(
        rt,
        || add_all(rt, &lock, one, 0, 100),
        || add_all(rt, &lock, two, 1000, 1100),
    );
    lock.join(&mut first, one);
    lock.join(&mut first, two);
    Ok((lock.close(first), ones, twos))
}

#[test]
fn two_lanes(rt: HostRuntime) -> Result<(), Fail> {
    let (notes, ones, twos) = both(&rt, rt.alloc())?;
    assert_eq!(rt; (ones, twos), (100, 100));
    assert_eq!(rt; notes.notes.len(), 200);
    let mut next = [0u64, 1000];
    for note in &notes.notes {
        let at = if note.lane == 1 { 0 } else { 1 };
        assert_eq!(rt; note.number, next[at]);
        next[at] = next[at].wrapping_add(1);
    }
    assert_eq!(rt; next[0], 100);
    assert_eq!(rt; next[1], 1100);
    Ok(())
}

/// Seats of the lanes from 1 to `count`.
fn split_all(
    alloc: Global,
    lock: &Turn<Notes>,
    first: &mut Seat<Notes>,
    count: u32,
) -> Result<Vec<Seat<Notes>>, AllocError>
    requires first { (first.old.lock ≡ lock.now) × (first.old.lane ≡ 0) × (first.old.splits ≡ []) }
    requires count { count < 1000 }
    ensures first { (first.new.lock ≡ lock.now) × (first.new.lane ≡ 0) }
    ensures lanes { IfOk result (λ v. (l : ℕ) → Has first.new.splits l → (0 < l) × (l ≤ vec_len v)) }
    ensures each { IfOk result (λ v. (i : ℕ) (d : _) → i < vec_len v
        → ((slice_index_or v.items i d).lane ≡ i + 1) × ((slice_index_or v.items i d).lock ≡ lock.now)) }
{
    let mut all = Vec::with_capacity(alloc, count as usize)?;
    for lane in 1..count + 1 {
        all.push(lock.split(first, lane))?;
    }
    Ok(all)
}

/// Takes all of them in.
fn join_all(lock: &Turn<Notes>, first: &mut Seat<Notes>, all: Vec<Seat<Notes>>)
    requires first { (first.old.lock ≡ lock.now) × (first.old.lane ≡ 0) }
    requires each { (i : ℕ) (d : _) → i < vec_len all
        → ((slice_index_or all.items i d).lane ≡ i + 1) × ((slice_index_or all.items i d).lock ≡ lock.now) }
    ensures first { (first.new.lock ≡ lock.now) × (first.new.lane ≡ 0) × (first.new.splits ≡ first.old.splits) }
    ensures ended { (l : ℕ) → 0 < l → l ≤ vec_len all → Has first.new.ended l }
{
    for seat in all {
        lock.join(first, seat);
    }
}

/// Turns that last a millisecond each, so that others park.
fn slow_turns<R: Wait + Clock>(rt: &R, lock: &Turn<Notes>, mut seat: Seat<Notes>) -> Seat<Notes>
    requires { seat.lock ≡ lock.now }
    ensures { (result.lock ≡ seat.lock) × (result.lane ≡ seat.lane) }
{
    let lane = seat.lane();
    for number in 0..5 {
        let mut inside = lock.enter(rt, seat);
        thread::sleep(rt, Duration::from_millis(1));
        let _ = inside.value().add(Note { lane, number });
        seat = lock.leave(inside, false);
    }
    seat
}

/// Forty lanes, more than there are words to park on, with the tickets counted from `number` on.
fn forty<R: Threads + Wait + Sync + Clock>(
    rt: &R,
    alloc: Global,
    number: u64,
) -> Result<Notes, AllocError> {
    let Ok((lock, mut first)) = make_from(alloc, Notes::make(alloc, 7), number) else {
        return Err(AllocError);
    };
    let all = split_all(alloc, &lock, &mut first, 40)?;
    let all = thread::map_vec(
        rt,
        all,
        &|seat: Seat<Notes>| -> Seat<Notes>
            requires { seat.lock ≡ lock }
            ensures { (result.lock ≡ seat.lock) × (result.lane ≡ seat.lane) }
        { slow_turns(rt, &lock, seat) },
    )?;
    join_all(&lock, &mut first, all);
    Ok(lock.close(first))
}

#[test]
fn forty_lanes(rt: HostRuntime) -> Result<(), Fail> {
    for number in [0, 0xffff_ffff, u64::MAX - 3] {
        let notes = forty(&rt, rt.alloc(), number)?;
        assert_eq!(rt; notes.notes.len(), 200);
        let mut next = [0u64; 41];
        for note in &notes.notes {
            let at = (note.lane % 41) as usize;
            assert_eq!(rt; note.number, next[at]);
            next[at] = next[at].wrapping_add(1);
        }
        for lane in 1..41 {
            assert_eq!(rt; next[lane], 5);
        }
    }
    Ok(())
}

/// A turn that begins after so many milliseconds, and lasts so many.
fn turn_after<R: Wait + Clock>(
    rt: &R,
    lock: &Turn<Notes>,
    seat: Seat<Notes>,
    after: u64,
    lasts: u64,
) -> Seat<Notes>
    requires { seat.lock ≡ lock.now }
    ensures { (result.lock ≡ seat.lock) × (result.lane ≡ seat.lane) }
{
    thread::sleep(rt, Duration::from_millis(after));
    let lane = seat.lane();
    let mut inside = lock.enter(rt, seat);
    thread::sleep(rt, Duration::from_millis(lasts));
    let _ = inside.value().add(Note { lane, number: 0 });
    lock.leave(inside, false)
}

/// While the first lane has a long turn, the others ask for theirs, the last one first.
fn queued<R: Threads + Wait + Sync + Clock>(rt: &R, alloc: Global) -> Result<Notes, AllocError> {
    let Ok((lock, mut first)) = make(alloc, Notes::make(alloc, 7)) else {
        return Err(AllocError);
    };
    let all = split_all(alloc, &lock, &mut first, 4)?;
    let all = thread::map_vec(
        rt,
        all,
        &|seat: Seat<Notes>| -> Seat<Notes>
            requires { seat.lock ≡ lock }
            ensures { (result.lock ≡ seat.lock) × (result.lane ≡ seat.lane) }
        {
            let lane = u64::from(seat.lane());
            if lane == 1 {
                turn_after(rt, &lock, seat, 0, 200)
            } else {
                turn_after(
                    rt,
                    &lock,
                    seat,
                    200u64.saturating_sub(40u64.saturating_mul(lane)),
                    0,
                )
            }
        },
    )?;
    join_all(&lock, &mut first, all);
    Ok(lock.close(first))
}

#[test]
fn turns_come_in_the_order_of_tickets(rt: HostRuntime) -> Result<(), Fail> {
    // a thread may be late, so the order is tried some times
    for _ in 0..5 {
        let notes = queued(&rt, rt.alloc())?;
        assert_eq!(rt; notes.notes.len(), 4);
        let mut lanes = [0; 4];
        for (at, note) in notes.notes.iter().enumerate() {
            lanes[at % 4] = note.lane;
        }
        if lanes == [1, 4, 3, 2] {
            return Ok(());
        }
    }
    Err(Fail::from("another order"))
}

#[test]
fn one_seat(rt: HostRuntime) -> Result<(), Fail> {
    let Ok((lock, seat)) = make(rt.alloc(), Notes::make(rt.alloc(), 7)) else {
        return Err(Fail::from("memory"));
    };
    let (seat, _) = add_all(&rt, &lock, seat, 0, 5);
    let notes = lock.close(seat);
    assert_eq!(rt; notes.name, 7);
    assert_eq!(rt; notes.notes.len(), 5);
    Ok(())
}
