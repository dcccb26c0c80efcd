//! Turns of the ticketed lock, beside a `Mutex` on the same work.
//! Without an argument it makes the turns and counts them. With the argument `time` it measures both. With `turns` or
//! `mutex`, a number of seats, and how many microseconds a turn lasts, it makes the turns of that one alone.
#![tactic(auto)]

ghost use Rattle.std.specs.Prelude.{◌<◌};

mod work;

use std::alloc::Global;
use std::rt::Clock;
use std::sync::Wait;
use std::thread::Threads;
use std::time::{Duration, Instant};
use std::{env, io};
use work::{with_mutex, with_turns};

const TURNS: u64 = 48_000;

const LONG_TURNS: u64 = 9_600;

const SEATS: [u32; 3] = [1, 4, 16];

const HOLDS: [u64; 2] = [0, 100];

fn main(rt: HostRuntime) -> io::Result<()> {
    let mut words = env::args(&rt)?;
    let word = words.nth(1);
    match word.as_ref().map(|word| word.as_str()) {
        Some("time") => measure(&rt, rt.alloc()),
        Some(word) => {
            let ours = word == "turns";
            let count = words
                .next()
                .and_then(|word| word.as_str().parse::<u32>().ok());
            let micros = words
                .next()
                .and_then(|word| word.as_str().parse::<u64>().ok());
            alone(
                &rt,
                rt.alloc(),
                ours,
                count.unwrap_or(1).clamp(1, 64),
                micros.unwrap_or(0),
            )
        }
        None => {
            for count in SEATS {
                let made = with_turns(&rt, rt.alloc(), count, TURNS / u64::from(count), 0)?;
                let same = with_mutex(&rt, rt.alloc(), count, TURNS / u64::from(count), 0)?;
                println!(rt; "{count} seats: {made} turns, {same} under a mutex")?;
            }
            Ok(())
        }
    }
}

fn turns_of(micros: u64) -> u64 {
    if micros == 0 { TURNS } else { LONG_TURNS }
}

fn alone<R: Threads + Wait + Sync + Clock + Print>(
    rt: &R,
    alloc: Global,
    ours: bool,
    count: u32,
    micros: u64,
) -> io::Result<()>
    requires { (0 < count) × (count < 1000) }
{
    let turns = turns_of(micros) / u64::from(count);
    let made = if ours {
        with_turns(rt, alloc, count, turns, micros)?
    } else {
        with_mutex(rt, alloc, count, turns, micros)?
    };
    println!(rt; "{made} turns")
}

fn measure<R: Threads + Wait + Sync + Clock + Print>(rt: &R, alloc: Global) -> io::Result<()> {
    for micros in HOLDS {
        for count in SEATS {
            let turns = turns_of(micros) / u64::from(count);
            let start = Instant::now(rt)?;
            with_turns(rt, alloc, count, turns, micros)?;
            let ours = in_micros(start.elapsed(rt)?);
            let start = Instant::now(rt)?;
            with_mutex(rt, alloc, count, turns, micros)?;
            let theirs = in_micros(start.elapsed(rt)?);
            let percent = ours.saturating_mul(100) / theirs.max(1);
            println!(rt;
                "{count} seats, {micros} us a turn: {ours} us, {theirs} us under a mutex, {percent} percent"
            )?;
        }
    }
    Ok(())
}

fn in_micros(time: Duration) -> u64 {
    u64::try_from(time.as_micros()).unwrap_or(u64::MAX)
}
