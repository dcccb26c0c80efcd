//! A pool of pages, in words of 64.

ghost use Rattle.std.specs.Prelude.{◌≡◌, ◌≢◌, ◌↔◌, ℕ, ◌+◌, ◌*◌, ◌<◌, ◌≤◌, List, [], Bool, true, false, length, replicate, slice_set, vec_capacity, IsTrue, IsErr, IfOk, IfErr, OnOk, OnErr};
ghost use Rattle.std.specs.List.{All};
ghost use Rattle.page_pool.specs.Flags.{IsTaken, IsFree, free_count, with_flags, AreDistinct};
ghost use Rattle.page_pool.specs.Words.{NoneFreeBelow};

use crate::words::{clear_flag, first_free_word, flag_of, free_words, lowest_clear, set_flag};
use std::alloc::{AllocError, Global};
use std::marker::Model;

/// Fewer pages are free than are needed.
#[derive(Clone, Copy, Debug, PartialEq, Eq)]
pub struct Full {
    pub need: u32,
    pub free: u32,
}

/// The pages of a region, each free or taken. Contracts see one flag a page, which tells whether the
/// page is taken.
#[derive(Drop)]
pub struct Pool {
    words: Vec<u64>,
    pages: u32,
    free: u32,
}

impl Model for Pool {
    ghost use Rattle.std.specs.Prelude.{List, Bool};
    ghost use Rattle.page_pool.specs.Words.{flags_of, IsPool};

    ghost Value = { List Bool };

    ghost view = { λ p. flags_of p.pages p.words.items };

    ghost invariant = { λ p. IsPool p.pages p.words.items p.free };
}

impl Pool {
    /// A pool of this number of pages, all free.
    pub fn new(alloc: Global, pages: u32) -> Result<Pool, AllocError>
        ensures flags { IfOk result (λ pool. pool ≡ replicate pages false) }
        ensures count { IfOk result (λ pool. free_count pool ≡ pages) }
    {
        let words = free_words(alloc, pages)?;
        Ok(Pool {
            words,
            pages,
            free: pages,
        })
    }

    /// Takes this number of pages, puts them into `out`, and allocates nothing.
    pub fn take(&mut self, n: u32, out: &mut Vec<u32>) -> Result<(), Full>
        requires empty { out.old.items ≡ [] }
        requires room { n ≤ vec_capacity out.old }
        ensures full { IsErr result ↔ (free_count self.old < n) }
        ensures counts { IfErr result (λ full. (full.need ≡ n)
            × (full.free ≡ free_count self.old)) }
        ensures given { OnOk result (length out.new.items ≡ n) }
        ensures were_free { OnOk result (All (IsFree self.old) out.new.items) }
        ensures apart { OnOk result (AreDistinct out.new.items) }
        ensures taken { OnOk result (self.new ≡ with_flags true out.new.items self.old) }
        ensures are_taken { OnOk result (All (IsTaken self.new) out.new.items) }
        ensures left { OnOk result (free_count self.new + n ≡ free_count self.old) }
        ensures room_stays { vec_capacity out.new ≡ vec_capacity out.old }
        ensures err { OnErr result ((self.new ≡ self.old) × (out.new.items ≡ [])) }
    {
        let free = self.free();
        if n > free {
            return Err(Full { need: n, free });
        }
        self.take_pages(n, out);
        Ok(())
    }

    /// Gives pages back.
    pub fn give(&mut self, pages: &[u32])
        requires taken { All (IsTaken self.old) pages.now }
        requires apart { AreDistinct pages.now }
        ensures given { self.new ≡ with_flags false pages.now self.old }
        ensures are_free { All (IsFree self.new) pages.now }
        ensures count { free_count self.new ≡ free_count self.old + length pages.now }
    {
        for page in pages {
            self.give_one(*page);
        }
    }

    /// How many pages are free.
    pub fn free(&self) -> u32
        ensures count { result ≡ free_count self.now }
    {
        self.free
    }

    pub fn is_taken(&self, page: u32) -> bool
        ensures { IsTrue result ↔ IsTaken self.now page }
    {
        page < self.pages && flag_of(&self.words, page)
    }

    // Takes the first free page, of which the word comes from the place `from` on.
    fn take_one(&mut self, from: &mut usize) -> u32
        requires some { 0 < free_count self.old }
        requires passed { NoneFreeBelow self.old (64 * from.old) }
        ensures was_free { IsFree self.old result }
        ensures taken { self.new ≡ slice_set self.old result true }
        ensures left { free_count self.new + 1 ≡ free_count self.old }
        ensures passed { NoneFreeBelow self.new (64 * from.new) }
    {
        let place = first_free_word(&self.words, *from).unwrap();
        let page = place as u32 * 64 + lowest_clear(self.words[place]);
        set_flag(&mut self.words, page);
        self.free -= 1;
        *from = place;
        page
    }

    // Takes this number of pages.
    fn take_pages(&mut self, n: u32, out: &mut Vec<u32>)
        requires some { n ≤ free_count self.old }
        requires empty { out.old.items ≡ [] }
        requires space { n ≤ vec_capacity out.old }
        ensures given { length out.new.items ≡ n }
        ensures were_free { All (IsFree self.old) out.new.items }
        ensures apart { AreDistinct out.new.items }
        ensures taken { self.new ≡ with_flags true out.new.items self.old }
        ensures are_taken { All (IsTaken self.new) out.new.items }
        ensures left { free_count self.new + n ≡ free_count self.old }
        ensures room_stays { vec_capacity out.new ≡ vec_capacity out.old }
    {
        let mut from = 0;
        for _i in 0..n {
            out.push_reserved(self.take_one(&mut from));
        }
    }

    // Gives one page back.
    fn give_one(&mut self, page: u32)
        requires taken { IsTaken self.old page }
        ensures given { self.new ≡ slice_set self.old page false }
    {
        clear_flag(&mut self.words, page);
        self.free += 1;
    }
}
