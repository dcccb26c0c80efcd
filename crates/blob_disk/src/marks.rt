//! The pool of a stock that was loaded.

ghost use Rattle.std.specs.Prelude.{◌≡◌, ◌<◌, ◌≤◌, ℕ, true, [], length, vec_capacity, IfOk};
ghost use Rattle.std.specs.List.{All};
ghost use Rattle.node_table.specs.Entries.{AreSound};
ghost use Rattle.page_pool.specs.Flags.{IsTaken, with_flags};
ghost use Rattle.blob_disk.specs.Pooled.{IsPooled};

use image_layout::Geometry;
use node_table::Entry;
use page_pool::{Pool, free_or_taken, taken_after};
use std::alloc::{AllocError, Global};

/// A pool of which just the pages of these entries are taken. The vector is a place to work in.
pub(crate) fn pool_of(
    alloc: Global,
    geometry: &Geometry,
    entries: &[Entry],
    spare: &mut Vec<u32>,
) -> Result<Pool, AllocError>
    requires sound { AreSound geometry.now entries.now }
    requires empty { spare.old.items ≡ [] }
    requires room { geometry.now.data_pages ≤ vec_capacity spare.old }
    ensures pooled { IfOk result (λ pool. IsPooled entries.now pool geometry.now.data_pages) }
    ensures room { vec_capacity spare.new ≡ vec_capacity spare.old }
{
    let marks = marks_of(alloc, geometry, entries)?;
    let mut pool = all_taken(alloc, geometry.data_pages, spare)?;
    give_unmarked(&mut pool, &marks, geometry.data_pages);
    Ok(pool)
}

// A flag for each page: whether it lies in a chain.
fn marks_of(alloc: Global, geometry: &Geometry, entries: &[Entry]) -> Result<Vec<bool>, AllocError>
    requires { AreSound geometry.now entries.now }
    ensures { IfOk result (λ marks. IsPooled entries.now marks.items geometry.now.data_pages) }
{
    taken_after();
    let mut marks = vec![in alloc; false; geometry.data_pages as usize]?;
    for entry in entries {
        mark_chain(&mut marks, entry.pages.as_slice());
    }
    Ok(marks)
}

// Sets the flags of the pages of a chain.
fn mark_chain(marks: &mut [bool], chain: &[u32])
    requires { All (λ page. page < length marks.old) chain.now }
    ensures { marks.new ≡ with_flags true chain.now marks.old }
{
    for page in chain {
        marks[*page as usize] = true;
    }
}

// A pool of this number of pages, all taken.
fn all_taken(alloc: Global, count: u32, out: &mut Vec<u32>) -> Result<Pool, AllocError>
    requires empty { out.old.items ≡ [] }
    requires room { count ≤ vec_capacity out.old }
    ensures size { IfOk result (λ pool. length pool ≡ count) }
    ensures all { IfOk result (λ pool. (page : ℕ) → page < count → IsTaken pool page) }
    ensures room { vec_capacity out.new ≡ vec_capacity out.old }
{
    free_or_taken();
    taken_after();
    let mut pool = Pool::new(alloc, count)?;
    match pool.take(count, out) {
        Ok(()) => Ok(pool),
        Err(_) => unreachable!(),
    }
}

// Gives back the pages whose flag is not set.
fn give_unmarked(pool: &mut Pool, marks: &[bool], count: u32)
    requires marks { length marks.now ≡ count }
    requires size { length pool.old ≡ count }
    requires all { (page : ℕ) → page < count → IsTaken pool.old page }
    ensures { pool.new ≡ marks.now }
{
    free_or_taken();
    for page in 0..count {
        if !marks[page as usize] {
            pool.give(&[page]);
        }
    }
}
