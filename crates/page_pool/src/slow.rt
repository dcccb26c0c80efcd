//! Plain bodies, under the contracts of the fast ones.

ghost use Rattle.std.specs.Prelude.{◌≡◌, ◌≢◌, ◌↔◌, ℕ, ◌+◌, None, IfSome, ◌^◌, ◌<◌, ◌≤◌, List, [], ◌∷◌, ◌++◌, Bool, true, false, length, replicate, slice_set, vec_len, vec_capacity, IsTrue, IsErr, IfOk, IfErr, OnOk, OnErr};
ghost use Rattle.std.specs.List.{All};
ghost use Rattle.page_pool.specs.Flags.{IsTaken, IsFree, free_count, taken_count, with_flags, AreDistinct};
ghost use Rattle.page_pool.specs.FreeList.{IsFreeList};
ghost use Rattle.page_pool.specs.Words.{AreTaken, IsFirstFree};

use crate::pool::Full;
use std::alloc::{AllocError, Global};
use std::marker::Model;

/// A pool that keeps a list of its free pages and a flag for each page.
#[derive(Drop)]
pub struct Pool {
    free: Vec<u32>,
    taken: Vec<bool>,
}

impl Model for Pool {
    ghost use Rattle.std.specs.Prelude.{List, Bool};
    ghost use Rattle.page_pool.specs.FreeList.{HasFreeList};

    ghost Value = { List Bool };

    ghost view = { λ p. p.taken.items };

    ghost invariant = { λ p. HasFreeList p.free p.taken };
}

impl Pool {
    /// A pool of this number of pages, all free.
    pub fn new(alloc: Global, pages: u32) -> Result<Pool, AllocError>
        ensures flags { IfOk result (λ pool. pool ≡ replicate pages false) }
        ensures count { IfOk result (λ pool. free_count pool ≡ pages) }
    {
        let free = all_pages(alloc, pages)?;
        let taken = vec![in alloc; false; pages as usize]?;
        Ok(Pool { free, taken })
    }

    /// Takes this number of pages, puts them into `out`, and allocates nothing.
    pub fn take(&mut self, n: u32, out: &mut Vec<u32>) -> Result<(), Full>
        requires empty { out.old.items ≡ [] }
        requires room { n ≤ vec_capacity out.old }
        ensures full { IsErr result ↔ (free_count self.old < n) }
        ensures counts { IfErr result (λ full. (full.need ≡ n)
            × (full.free ≡ free_count self.old)) }
        ensures given { OnOk result (length out.new.items ≡ n) }
        ensures were_free { OnOk result (All (IsFree self.old) out.new.items) }
        ensures apart { OnOk result (AreDistinct out.new.items) }
        ensures taken { OnOk result (self.new ≡ with_flags true out.new.items self.old) }
        ensures are_taken { OnOk result (All (IsTaken self.new) out.new.items) }
        ensures left { OnOk result (free_count self.new + n ≡ free_count self.old) }
        ensures room_stays { vec_capacity out.new ≡ vec_capacity out.old }
        ensures err { OnErr result ((self.new ≡ self.old) × (out.new.items ≡ [])) }
    {
        let free = self.free();
        if n > free {
            return Err(Full { need: n, free });
        }
        take_pages(&mut self.free, &mut self.taken, n, out);
        Ok(())
    }

    /// Gives pages back.
    pub fn give(&mut self, pages: &[u32])
        requires taken { All (IsTaken self.old) pages.now }
        requires apart { AreDistinct pages.now }
        ensures given { self.new ≡ with_flags false pages.now self.old }
        ensures are_free { All (IsFree self.new) pages.now }
        ensures count { free_count self.new ≡ free_count self.old + length pages.now }
    {
        give_pages(&mut self.free, &mut self.taken, pages);
    }

    /// How many pages are free.
    pub fn free(&self) -> u32
        ensures count { result ≡ free_count self.now }
    {
        self.free.len() as u32
    }

    pub fn is_taken(&self, page: u32) -> bool
        ensures { IsTrue result ↔ IsTaken self.now page }
    {
        flag_at(&self.taken, page)
    }
}

fn flag_at(flags: &[bool], page: u32) -> bool
    ensures { IsTrue result ↔ IsTaken flags.now page }
{
    match flags.get(page as usize) {
        Some(flag) => *flag,
        None => false,
    }
}

// The pages below this number, the highest first, so that the lowest are taken first.
fn all_pages(alloc: Global, pages: u32) -> Result<Vec<u32>, AllocError>
    ensures list { IfOk result (λ free. IsFreeList free.items (replicate pages false)) }
    ensures room { IfOk result (λ free. pages ≤ vec_capacity free) }
{
    let mut free = Vec::with_capacity(alloc, pages as usize)?;
    for page in (0..pages).rev() {
        free.push(page)?;
    }
    Ok(free)
}

// Takes one page.
fn take_one(free: &mut Vec<u32>, taken: &mut [bool]) -> u32
    requires list { IsFreeList free.old.items taken.old }
    requires some { 0 < vec_len free.old }
    ensures was_free { IsFree taken.old result }
    ensures taken { taken.new ≡ slice_set taken.old result true }
    ensures list { IsFreeList free.new.items taken.new }
    ensures count { vec_len free.new + 1 ≡ vec_len free.old }
    ensures room { vec_capacity free.new ≡ vec_capacity free.old }
{
    let page = free.pop().unwrap();
    taken[page as usize] = true;
    page
}

// Takes this number of pages.
fn take_pages(free: &mut Vec<u32>, taken: &mut [bool], n: u32, out: &mut Vec<u32>)
    requires list { IsFreeList free.old.items taken.old }
    requires some { n ≤ vec_len free.old }
    requires empty { out.old.items ≡ [] }
    requires space { n ≤ vec_capacity out.old }
    ensures given { length out.new.items ≡ n }
    ensures were_free { All (IsFree taken.old) out.new.items }
    ensures apart { AreDistinct out.new.items }
    ensures taken { taken.new ≡ with_flags true out.new.items taken.old }
    ensures are_taken { All (IsTaken taken.new) out.new.items }
    ensures left { free_count taken.new + n ≡ free_count taken.old }
    ensures room_stays { vec_capacity out.new ≡ vec_capacity out.old }
    ensures list { IsFreeList free.new.items taken.new }
    ensures room { vec_capacity free.new ≡ vec_capacity free.old }
{
    for _i in 0..n {
        out.push_reserved(take_one(free, taken));
    }
}

// Gives one page back.
fn give_one(free: &mut Vec<u32>, taken: &mut [bool], page: u32)
    requires list { IsFreeList free.old.items taken.old }
    requires taken { IsTaken taken.old page }
    requires space { length taken.old ≤ vec_capacity free.old }
    ensures given { taken.new ≡ slice_set taken.old page false }
    ensures list { IsFreeList free.new.items taken.new }
    ensures room { vec_capacity free.new ≡ vec_capacity free.old }
{
    taken[page as usize] = false;
    free.push_reserved(page);
}

// Gives pages back.
fn give_pages(free: &mut Vec<u32>, taken: &mut [bool], pages: &[u32])
    requires list { IsFreeList free.old.items taken.old }
    requires taken { All (IsTaken taken.old) pages.now }
    requires apart { AreDistinct pages.now }
    requires space { length taken.old ≤ vec_capacity free.old }
    ensures given { taken.new ≡ with_flags false pages.now taken.old }
    ensures are_free { All (IsFree taken.new) pages.now }
    ensures count { free_count taken.new ≡ free_count taken.old + length pages.now }
    ensures list { IsFreeList free.new.items taken.new }
    ensures room { vec_capacity free.new ≡ vec_capacity free.old }
{
    for page in pages {
        give_one(free, taken, *page);
    }
}

/// The place of the first word from `from` on that has a free page.
pub fn first_free_word(words: &[u64], from: usize) -> Option<usize>
    requires { from ≤ length words.now }
    ensures first { IfSome result (IsFirstFree words.now from) }
    ensures none { (result ≡ None) ↔ AreTaken words.now from (length words.now) }
{
    for place in from..words.len() {
        if words[place] != u64::MAX {
            return Some(place);
        }
    }
    None
}
