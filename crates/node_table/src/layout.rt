//! The rows and links of a table, as a commit writes them.

ghost use Rattle.std.specs.Prelude.{◌≡◌, ◌≢◌, ◌↔◌, ℕ, ◌+◌, ◌<◌, ◌≤◌, List, [], ◌∷◌, ◌++◌, length, slice_index_or, slice_set, replicate, IsTrue};
ghost use Rattle.std.specs.List.{All, AllPairs, Contains};
ghost use Rattle.std.specs.Option.{ForSome};
ghost use Rattle.node_table.specs.declared.entry.Entry.{Entry as EntryOf};
ghost use Rattle.node_table.specs.Entries.{IsEntry, AreApart, MayStandTogether, without, with_added};
ghost use Rattle.node_table.specs.Spelling.{row_of, unused_row, IsChain};
ghost use Rattle.node_table.specs.Steps.{LaidOut, link_from};

use crate::entry::{CHAIN_END, Entry};
use crate::index::is_among;
use crate::rows::{Row, row_of, unused_row};
use pkg_names::Root;

fn next_page(pages: &[u32], k: usize) -> u32
    requires { k < length pages.now }
    ensures { result ≡ slice_index_or pages.now (k + 1) CHAIN_END }
{
    match pages.get(k + 1) {
        Some(page) => *page,
        None => CHAIN_END,
    }
}

/// Links the pages of a chain, one to the next, and the last to the end mark.
pub(crate) fn put_chain(pages: &[u32], links: &mut [u32])
    requires below { All (λ page. page < length links.old) pages.now }
    requires distinct { AllPairs (λ a b. a ≢ b) pages.now }
    ensures chain { IsChain (link_from links.new) pages.now }
    ensures others { (page : ℕ) → (Contains pages.now page → ⊥)
        → link_from links.new page ≡ link_from links.old page }
{
    for (k, page) in pages.iter().enumerate() {
        links[*page as usize] = next_page(pages, k);
    }
}

/// Puts an entry at a row, with its chain.
pub(crate) fn put_entry(entry: &Entry, at: usize, rows: &mut [Row], links: &mut [u32])
    requires at { at < length rows.old }
    requires entry { IsEntry (length links.old) entry.now }
    ensures rows { rows.new ≡ slice_set rows.old at (row_of entry.now) }
    ensures chain { IsChain (link_from links.new) entry.now.pages }
    ensures others { (page : ℕ) → (Contains entry.now.pages page → ⊥)
        → link_from links.new page ≡ link_from links.old page }
{
    rows[at] = row_of(entry);
    put_chain(entry.pages.as_slice(), links);
}

/// Clears all rows and links.
pub(crate) fn clear(rows: &mut [Row], links: &mut [u32])
    ensures rows { rows.new ≡ replicate (length rows.old) unused_row }
    ensures links { links.new ≡ replicate (length links.old) 0 }
{
    rows.fill(unused_row());
    links.fill(0);
}

// Puts an entry at the next row, if it stays, and answers which row is the next one then.
fn lay_next(entry: &Entry, gone: &[Root], at: usize, rows: &mut [Row], links: &mut [u32]) -> usize
    requires at { at < length rows.old }
    requires entry { IsEntry (length links.old) entry.now }
    ensures next { result ≡ at + length (without gone.now (entry.now ∷ [])) }
    ensures laid { (kept : List EntryOf) → length kept ≡ at
        → All (λ other. AreApart other.pages entry.now.pages) kept
        → LaidOut rows.old links.old kept
        → LaidOut rows.new links.new (kept ++ without gone.now (entry.now ∷ [])) }
{
    if is_among(gone, &entry.root) {
        return at;
    }
    put_entry(entry, at, rows, links);
    at + 1
}

// Lays out the entries that stay, and answers how many they are.
fn lay_out(entries: &[Entry], gone: &[Root], rows: &mut [Row], links: &mut [u32]) -> usize
    requires room { length entries.now ≤ length rows.old }
    requires each { All (IsEntry (length links.old)) entries.now }
    requires together { AllPairs MayStandTogether entries.now }
    ensures count { result ≡ length (without gone.now entries.now) }
    ensures laid { LaidOut rows.new links.new (without gone.now entries.now) }
{
    clear(rows, links);
    let mut at = 0;
    for entry in entries {
        at = lay_next(entry, gone, at, rows, links);
    }
    at
}

// Lays out the entries that stay, unless they are laid out already, and answers how many they are.
fn lay_kept(
    entries: &[Entry],
    gone: &[Root],
    laid: bool,
    rows: &mut [Row],
    links: &mut [u32],
) -> usize
    requires room { length entries.now ≤ length rows.old }
    requires each { All (IsEntry (length links.old)) entries.now }
    requires together { AllPairs MayStandTogether entries.now }
    requires laid { IsTrue laid → LaidOut rows.old links.old entries.now }
    ensures count { result ≡ length (without gone.now entries.now) }
    ensures laid { LaidOut rows.new links.new (without gone.now entries.now) }
{
    if laid && gone.is_empty() {
        return entries.len();
    }
    lay_out(entries, gone, rows, links)
}

// Puts an entry at the row behind the last one that is used, if there is one.
fn lay_last(entry: &Entry, at: usize, rows: &mut [Row], links: &mut [u32]) -> bool
    requires at { at ≤ length rows.old }
    requires entry { IsEntry (length links.old) entry.now }
    ensures fits { IsTrue result ↔ (at < length rows.old) }
    ensures laid { IsTrue result → (kept : List EntryOf) → length kept ≡ at
        → All (λ other. AreApart other.pages entry.now.pages) kept
        → LaidOut rows.old links.old kept → LaidOut rows.new links.new (kept ++ entry.now ∷ []) }
{
    if at == rows.len() {
        return false;
    }
    put_entry(entry, at, rows, links);
    true
}

/// Lays out the entries that stay and the one that comes. `false` where there is no row for that one.
/// Where the entries are laid out already and all stay, only the one that comes is laid out.
pub(crate) fn lay_all(
    entries: &[Entry],
    gone: &[Root],
    add: &Option<Entry>,
    laid: bool,
    rows: &mut [Row],
    links: &mut [u32],
) -> bool
    requires room { length entries.now ≤ length rows.old }
    requires each { All (IsEntry (length links.old)) entries.now }
    requires together { AllPairs MayStandTogether entries.now }
    requires added { ForSome add.now (λ entry. IsEntry (length links.old) entry
        × All (λ other. MayStandTogether other entry) entries.now) }
    requires laid { IsTrue laid → LaidOut rows.old links.old entries.now }
    ensures fits { IsTrue result
        ↔ (length (with_added add.now (without gone.now entries.now)) ≤ length rows.old) }
    ensures laid { IsTrue result
        → LaidOut rows.new links.new (with_added add.now (without gone.now entries.now)) }
{
    let at = lay_kept(entries, gone, laid, rows, links);
    match add {
        None => true,
        Some(entry) => lay_last(entry, at, rows, links),
    }
}
