//! Judging what was read: the entries that the rows and links of a copy list, or the first bad row.

ghost use Rattle.std.specs.Prelude.{◌≡◌, ◌⊎◌, ℕ, ◌+◌, ◌^◌, ◌<◌, ◌≤◌, ◌↔◌, List, [], false, length, vec_capacity, IsTrue, IfOk, IfSome, IfNone};
ghost use Rattle.std.specs.List.{Contains};
ghost use Rattle.std.specs.HashMap.{hash_map_len, spare};
ghost use Rattle.image_layout.specs.declared.geometry.Geometry.{Geometry as GeometryOf};
ghost use Rattle.node_table.specs.declared.entry.Entry.{Entry as EntryOf};
ghost use Rattle.node_table.specs.Entries.{pages_for};
ghost use Rattle.node_table.specs.Steps.{IsTaken, IsWalk, IsReadFrom, AreSheets, IsIndex, link_from, Judges};

use crate::entry::{BLOB_LIMIT, CHAIN_END, Entry};
use crate::index::put_last;
use crate::rows::Row;
use pkg_names::{Items, Root};
use std::alloc::{AllocError, Global};
use std::collections::HashMap;

// Takes a page, if there is such a page and it was not taken yet.
fn take_page(taken: &mut [bool], page: u32) -> bool
    ensures answer { IsTrue result ↔ ((page < length taken.old) × (IsTaken taken.old page → ⊥)) }
    ensures took { IsTrue result
        → (other : ℕ) → IsTaken taken.new other ↔ (IsTaken taken.old other ⊎ (page ≡ other)) }
{
    let at = page as usize;
    if at >= taken.len() || taken[at] {
        return false;
    }
    taken[at] = true;
    true
}

// Follows a chain of this many pages from its first page. `false` where there is no such chain whose
// pages exist, were free and differ.
fn walk(first: u32, count: usize, links: &[u32], taken: &mut [bool], pages: &mut Vec<u32>) -> bool
    requires some { 0 < count }
    requires sizes { length links.now ≡ length taken.old }
    requires empty { pages.old.items ≡ [] }
    requires room { count ≤ vec_capacity pages.old }
    ensures walked { IsTrue result
        → IsWalk (link_from links.now) taken.old first count pages.new.items }
    ensures took { IsTrue result → (page : ℕ)
        → IsTaken taken.new page ↔ (IsTaken taken.old page ⊎ Contains pages.new.items page) }
    ensures none { result ≡ false → (other : List ℕ)
        → IsWalk (link_from links.now) taken.old first count other → ⊥ }
{
    let mut page = first;
    for _k in 0..count {
        if !take_page(taken, page) {
            return false;
        }
        pages.push_reserved(page);
        page = links[page as usize];
    }
    page == CHAIN_END
}

fn pages_for(len: u64) -> usize
    requires { len ≤ BLOB_LIMIT }
    ensures { result ≡ pages_for len }
{
    if len == 0 {
        1
    } else {
        ((len + 4095) / 4096) as usize
    }
}

// The entry of a row, if the links have a chain for it.
fn entry_in(
    alloc: Global,
    row: &Row,
    links: &[u32],
    taken: &mut [bool],
) -> Result<Option<Entry>, AllocError>
    requires used { IsTrue row.now.used }
    requires sizes { length links.now ≡ length taken.old }
    ensures found { IfOk result (λ found. IfSome found
        (IsReadFrom row.now (link_from links.now) taken.old)) }
    ensures took { IfOk result (λ found. IfSome found (λ entry. (page : ℕ)
        → IsTaken taken.new page ↔ (IsTaken taken.old page ⊎ Contains entry.pages page))) }
    ensures none { IfOk result (λ found. IfNone found ((entry : EntryOf)
        → IsReadFrom row.now (link_from links.now) taken.old entry → ⊥)) }
{
    if row.len > BLOB_LIMIT {
        return Ok(None);
    }
    let count = pages_for(row.len);
    let mut pages = Vec::with_capacity(alloc, count)?;
    if !walk(row.first, count, links, taken, &mut pages) {
        return Ok(None);
    }
    Ok(Some(Entry {
        root: row.root,
        len: row.len,
        pages: Items::make(pages),
    }))
}

/// Finds the entries that rows and links list, or the number of the first bad row.
pub(crate) fn judge(
    alloc: Global,
    rows: &[Row],
    links: &[u32],
    taken: &mut [bool],
    entries: &mut Vec<Entry>,
    index: &mut HashMap<Root, u32>,
) -> Result<Option<u32>, AllocError>
    requires sizes { length links.now ≡ length taken.old }
    requires free { (page : ℕ) → IsTaken taken.old page → ⊥ }
    requires small { length rows.now < 2 ^ 32 }
    requires empty { entries.old.items ≡ [] }
    requires capacity { length rows.now ≤ vec_capacity entries.old }
    requires index { IsIndex index.old [] }
    requires spare { length rows.now ≤ spare index.old }
    ensures judged { (g : GeometryOf) → AreSheets g rows.now links.now
        → IfOk result (Judges g rows.now links.now entries.new.items) }
    ensures index { IfOk result (λ bad. IfNone bad (IsIndex index.new entries.new.items)) }
    ensures left { IfOk result (λ bad. IfNone bad
        (length rows.now ≤ length entries.new.items + spare index.new)) }
    ensures room { IfOk result (λ bad. IfNone bad
        (length rows.now ≤ hash_map_len index.new + spare index.new)) }
    ensures capacity { vec_capacity entries.new ≡ vec_capacity entries.old }
{
    for (i, row) in rows.iter().enumerate() {
        if !row.used {
            return Ok(None);
        }
        let Some(entry) = entry_in(alloc, row, links, taken)? else {
            return Ok(Some(i as u32));
        };
        if !put_last(index, entries, entry) {
            return Ok(Some(i as u32));
        }
    }
    Ok(None)
}
