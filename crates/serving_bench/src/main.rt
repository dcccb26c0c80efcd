//! Times the serving of scripts from a folder. `make FOLDER` writes the repositories that are served; then
//! `time FOLDER` serves them, in turn with the bare work, and prints the least processor time of each, and ratios.
#![tactic(auto)]

mod content;
mod scripts;
mod serve;
mod store;

use content::{LARGE, SMALL, make};
use scripts::{REQUESTS, resolves, rounds};
use serve::{hash_all, serve};
use std::env;
use std::rt::Files;
use std::sync::Wait;
use std::test::Fail;
use std::time::{CpuClock, Duration};

const TURNS: u32 = 5;

/// The least processor time of each kind of work.
#[derive(Clone, Copy)]
struct Times {
    bare: Duration,
    large: Duration,
    rounds: Duration,
    few: Duration,
    all: Duration,
}

impl Times {
    // The lesser of each.
    fn least(self, other: Times) -> Times {
        Times {
            bare: self.bare.min(other.bare),
            large: self.large.min(other.large),
            rounds: self.rounds.min(other.rounds),
            few: self.few.min(other.few),
            all: self.all.min(other.all),
        }
    }
}

/// A tenth of the small packages.
const FEW: u32 = 50;

// One turn of all work, each at a new store.
fn turn<R: Files + CpuClock + Wait + AllocGlobal + Clone + Drop>(
    rt: &R,
    folder: &str,
) -> Result<Times, Fail> {
    let alloc = rt.alloc();
    let large = format!(in alloc; "{folder}/large")?;
    let small = format!(in alloc; "{folder}/small")?;
    let each = resolves(alloc, "large", LARGE)?;
    let many = rounds(alloc, "small", SMALL)?;
    let few = resolves(alloc, "small", FEW)?;
    let all = resolves(alloc, "small", SMALL)?;
    Ok(Times {
        bare: hash_all(rt, alloc, large.as_str())?,
        large: serve(rt, alloc, large.as_str(), each.as_str(), LARGE)?,
        rounds: serve(rt, alloc, small.as_str(), many.as_str(), SMALL)?,
        few: serve(rt, alloc, small.as_str(), few.as_str(), FEW)?,
        all: serve(rt, alloc, small.as_str(), all.as_str(), SMALL)?,
    })
}

fn per_mille(part: Duration, whole: Duration) -> u128 {
    let part = part.as_micros().saturating_mul(1000);
    part.checked_div(whole.as_micros()).unwrap_or(0)
}

// The time that one of so many takes.
fn each(time: Duration, count: u32) -> u128 {
    time.as_micros().checked_div(u128::from(count)).unwrap_or(0)
}

fn print<R: Print>(rt: &R, least: &Times) -> Result<(), Fail> {
    let ratio = per_mille(least.large, least.bare);
    let (bare, large) = (least.bare.as_micros(), least.large.as_micros());
    println!(rt;
        "files read and hashed {bare} us; {LARGE} packages resolved {large} us, {ratio} per mille"
    )?;
    let rounds = least.rounds.as_micros();
    println!(rt; "{REQUESTS} requests over {SMALL} packages {rounds} us")?;
    let (few, all) = (each(least.few, FEW), each(least.all, SMALL));
    println!(rt; "a resolve of {FEW} packages {few} us, of {SMALL} packages {all} us")?;
    Ok(())
}

fn time<R: Files + CpuClock + Wait + AllocGlobal + Clone + Drop + Print>(
    rt: &R,
    folder: &str,
) -> Result<(), Fail> {
    let mut least = turn(rt, folder)?;
    for _ in 1..TURNS {
        least = least.least(turn(rt, folder)?);
    }
    print(rt, &least)
}

fn main(rt: HostRuntime) -> Result<(), Fail> {
    let mut words = env::args(&rt)?.skip(1);
    let word = words.next();
    let folder = words.next();
    let Some(folder) = folder else {
        return Ok(println!(rt;
            "with make FOLDER and then time FOLDER: times the serving of scripts"
        )?);
    };
    match word {
        Some(word) if word.as_str() == "make" => make(&rt, rt.alloc(), folder.as_str()),
        _ => time(&rt, folder.as_str()),
    }
}
