//! Times a pool of 65,536 pages of which the last one alone is free, and the search among its words,
//! each beside its plain body. Under the argument `time` it prints the least processor time of each.
#![tactic(auto)]

ghost use Rattle.std.specs.Prelude.{◌≡◌, ◌≤◌, [], true, IfOk, IfSome, vec_capacity};
ghost use Rattle.page_pool.specs.Flags.{IsFree, free_count};

use page_pool::{Pool, first_free_word, slow};
use std::alloc::{AllocError, Global};
use std::time::{CpuClock, Duration};
use std::{env, io};

const PAGES: u32 = 65_536;

const LAST: u32 = 65_535;

const WORDS: usize = 1024;

/// How often each is done in a turn.
const TIMES: u32 = 1000;

const TURNS: usize = 41;

// Takes all pages and gives the last one back. Whether that could be done.
fn leave_last(pool: &mut Pool, pages: &mut Vec<u32>) -> bool
    requires empty { pages.old.items ≡ [] }
    requires room { PAGES ≤ vec_capacity pages.old }
    ensures last { result ≡ true → IsFree pool.new LAST }
    ensures alone { result ≡ true → free_count pool.new ≡ 1 }
{
    if pool.free() != PAGES || pool.take(PAGES, pages).is_err() || !pool.is_taken(LAST) {
        return false;
    }
    pool.give(&[LAST]);
    true
}

// A pool of which the last page alone is free.
fn last_free(alloc: Global) -> Result<Option<Pool>, AllocError>
    ensures { IfOk result (λ made. IfSome made (λ pool. (IsFree pool LAST) × (free_count pool ≡ 1))) }
{
    let mut pages = Vec::with_capacity(alloc, PAGES as usize)?;
    let mut pool = Pool::new(alloc, PAGES)?;
    if leave_last(&mut pool, &mut pages) {
        Ok(Some(pool))
    } else {
        Ok(None)
    }
}

// A plain pool of which one page is free.
fn one_free(alloc: Global) -> Result<Option<slow::Pool>, AllocError> {
    let mut pages = Vec::with_capacity(alloc, LAST as usize)?;
    let mut pool = slow::Pool::new(alloc, PAGES)?;
    if pool.take(LAST, &mut pages).is_ok() {
        Ok(Some(pool))
    } else {
        Ok(None)
    }
}

// Takes a page and gives it back so often, and what was taken.
fn take_last(pool: &mut Pool, page: &mut Vec<u32>) -> u32
    requires room { 1 ≤ vec_capacity page.old }
    ensures room_stays { vec_capacity page.new ≡ vec_capacity page.old }
{
    let mut seen = 0;
    for _ in 0..TIMES {
        page.clear();
        if pool.take(1, page).is_ok() {
            pool.give(page);
        }
        seen ^= page.first().copied().unwrap_or(0);
    }
    seen
}

fn take_last_plain(pool: &mut slow::Pool, page: &mut Vec<u32>) -> u32
    requires room { 1 ≤ vec_capacity page.old }
    ensures room_stays { vec_capacity page.new ≡ vec_capacity page.old }
{
    let mut seen = 0;
    for _ in 0..TIMES {
        page.clear();
        if pool.take(1, page).is_ok() {
            pool.give(page);
        }
        seen ^= page.first().copied().unwrap_or(0);
    }
    seen
}

// So many searches among the words, from another place each time, and what they found.
fn search(words: &[u64]) -> usize {
    let mut seen = 0;
    for k in 0..TIMES {
        seen ^= first_free_word(words, (k as usize % 8).min(words.len())).unwrap_or(0);
    }
    seen
}

fn search_plain(words: &[u64]) -> usize {
    let mut seen = 0;
    for k in 0..TIMES {
        seen ^= slow::first_free_word(words, (k as usize % 8).min(words.len())).unwrap_or(0);
    }
    seen
}

// The time of one call, in nanoseconds.
fn nanos(start: Duration, end: Duration) -> u128 {
    end.saturating_sub(start).as_nanos() / u128::from(TIMES)
}

fn time<R: AllocGlobal + CpuClock + Print>(rt: &R) -> io::Result<()> {
    let Some(mut pool) = last_free(rt.alloc())? else {
        return println!(rt; "the pool could not be filled");
    };
    let Some(mut plain) = one_free(rt.alloc())? else {
        return println!(rt; "the plain pool could not be filled");
    };
    let mut words = vec![in rt.alloc(); u64::MAX; WORDS]?;
    words[WORDS - 1] = u64::MAX >> 1;
    let mut page = Vec::with_capacity(rt.alloc(), 1)?;
    let mut least = [u128::MAX; 4];
    let mut seen = 0;
    for _ in 0..TURNS {
        let start = rt.thread_cpu_time()?;
        seen ^= take_last(&mut pool, &mut page) as usize;
        let first = rt.thread_cpu_time()?;
        seen ^= take_last_plain(&mut plain, &mut page) as usize;
        let second = rt.thread_cpu_time()?;
        seen ^= search(&words);
        let third = rt.thread_cpu_time()?;
        seen ^= search_plain(&words);
        let end = rt.thread_cpu_time()?;
        least = [
            least[0].min(nanos(start, first)),
            least[1].min(nanos(first, second)),
            least[2].min(nanos(second, third)),
            least[3].min(nanos(third, end)),
        ];
    }
    let [pool, plain, words, plain_words] = least;
    println!(rt; "pool {pool} ns, plain {plain} ns")?;
    println!(rt; "words {words} ns, plain {plain_words} ns, seen {seen}")
}

fn main(rt: HostRuntime) -> io::Result<()> {
    for word in env::args(&rt)?.skip(1) {
        if word.as_str() == "time" {
            return time(&rt);
        }
    }
    println!(rt; "with the argument time: times the search for the last free page")
}
