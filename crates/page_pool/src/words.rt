//! Words of 64 flags. A set bit is a taken page.

ghost use Rattle.std.specs.Prelude.{◌≡◌, ◌≢◌, ◌↔◌, ℕ, ◌-◌, ◌^◌, ◌+◌, ◌*◌, ◌/◌, ◌<◌, ◌≤◌, ◌++◌, true, false, length, replicate, None, IfOk, OnOk, IfSome};
ghost use Rattle.std.specs.Int.{bit_at};
ghost use Rattle.page_pool.specs.Words.{flag_in, flags_of, HasWords, AreTaken, IsFirstFree, SetsFlag, last_word};

use crate::slow;
use std::alloc::{AllocError, Global};
use std::simd::prelude::*;

/// How many words are compared at a time.
const LANES: usize = 8;

// Whether none of these eight words has a free page.
fn are_taken(words: &[u64], at: usize) -> bool
    requires { at + 8 ≤ length words.now }
    ensures { result ≡ true → AreTaken words.now at (at + 8) }
{
    let lanes = u64x8::from_slice(&words[at..]);
    lanes.simd_ne(u64x8::splat(u64::MAX)).to_bitmask() == 0
}

// Goes past the words without a free page, eight at a time.
fn past_taken(words: &[u64], from: usize) -> usize
    requires { from ≤ length words.now }
    ensures behind { from ≤ result }
    ensures inside { result ≤ length words.now }
    ensures taken { AreTaken words.now from result }
{
    let mut at = from;
    while words.len() - at >= LANES && are_taken(words, at) {
        at += LANES;
    }
    at
}

/// The place of the first word from `from` on that has a free page.
pub fn first_free_word(words: &[u64], from: usize) -> Option<usize>
    requires { from ≤ length words.now }
    ensures first { IfSome result (IsFirstFree words.now from) }
    ensures none { (result ≡ None) ↔ AreTaken words.now from (length words.now) }
{
    let at = past_taken(words, from);
    slow::first_free_word(words, at)
}

/// The lowest bit that is clear.
pub(crate) fn lowest_clear(word: u64) -> u32
    requires { word ≢ 2 ^ 64 - 1 }
    ensures below { result < 64 }
    ensures clear { bit_at word result ≡ 0 }
{
    word.trailing_ones()
}

/// Whether the page is taken.
pub(crate) fn flag_of(words: &[u64], page: u32) -> bool
    requires { page < 64 * length words.now }
    ensures { result ≡ flag_in words.now page }
{
    (words[page as usize / 64] >> (page % 64)) & 1 == 1
}

pub(crate) fn set_flag(words: &mut [u64], page: u32)
    requires { page < 64 * length words.old }
    ensures { SetsFlag page true words.old words.new }
{
    words[page as usize / 64] |= 1 << (page % 64);
}

pub(crate) fn clear_flag(words: &mut [u64], page: u32)
    requires { page < 64 * length words.old }
    ensures { SetsFlag page false words.old words.new }
{
    words[page as usize / 64] &= !(1 << (page % 64));
}

// Puts the last word behind the others, if it has only this many pages.
fn push_last(words: &mut Vec<u64>, rest: u32) -> Result<(), AllocError>
    requires { rest < 64 }
    ensures { OnOk result (words.new.items ≡ words.old.items ++ last_word rest) }
{
    if rest != 0 {
        words.push(u64::MAX << rest)?;
    }
    Ok(())
}

/// The words of this number of pages, all free. The bits past the end are set.
pub(crate) fn free_words(alloc: Global, pages: u32) -> Result<Vec<u64>, AllocError>
    ensures words { IfOk result (λ words. HasWords pages words.items) }
    ensures free { IfOk result (λ words. flags_of pages words.items ≡ replicate pages false) }
{
    let mut words = zeros(alloc, pages as usize / 64)?;
    push_last(&mut words, pages % 64)?;
    Ok(words)
}

fn zeros(alloc: Global, count: usize) -> Result<Vec<u64>, AllocError>
    ensures { IfOk result (λ words. words.items ≡ replicate count 0) }
{
    vec![in alloc; 0; count]
}
