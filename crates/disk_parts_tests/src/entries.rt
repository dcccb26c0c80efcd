//! Entries that may come to a table.

ghost use Rattle.std.specs.Prelude.{◌≡◌, ◌≢◌, ℕ, ◌+◌, ◌<◌, ◌≤◌, false, length, IfOk, IsTrue};
ghost use Rattle.std.specs.Option.{ForSome};
ghost use Rattle.std.specs.List.{All, Contains, range_with_len};
ghost use Rattle.image_layout.specs.declared.geometry.Geometry.{Geometry as GeometryOf};
ghost use Rattle.node_table.specs.Entries.{IsChained, IsEntry, MayCome, pages_for};

use image_layout::Geometry;
use node_table::{BLOB_LIMIT, Entry};
use pkg_names::{Items, Root};
use std::alloc::{AllocError, Global};

fn has_page(pages: &[u32], page: u32) -> bool
    ensures { result ≡ false → Contains pages.now page → ⊥ }
{
    for other in pages {
        if *other == page {
            return true;
        }
    }
    false
}

fn is_chained(entries: &[Entry], page: u32) -> bool
    ensures { result ≡ false → IsChained entries.now page → ⊥ }
{
    for entry in entries {
        if has_page(entry.pages.as_slice(), page) {
            return true;
        }
    }
    false
}

fn are_free(entries: &[Entry], pages: &[u32]) -> bool
    ensures { IsTrue result → All (λ page. IsChained entries.now page → ⊥) pages.now }
{
    for page in pages {
        if is_chained(entries, *page) {
            return false;
        }
    }
    true
}

fn is_new(entries: &[Entry], root: &Root) -> bool
    ensures { IsTrue result → All (λ other. other.root ≢ root.now) entries.now }
{
    for entry in entries {
        if entry.root == *root {
            return false;
        }
    }
    true
}

/// Numbers in a row.
pub fn pages_from(alloc: Global, first: u32, count: u32) -> Result<Vec<u32>, AllocError>
    requires { first + count ≤ 65_536 }
    ensures { IfOk result (λ pages. pages.items ≡ range_with_len first count) }
{
    let mut pages = Vec::with_capacity(alloc, count as usize)?;
    for page in first..first + count {
        pages.push(page)?;
    }
    Ok(pages)
}

/// An entry with these pages, if it may come to the others.
pub fn entry_from(
    entries: &[Entry],
    geometry: &Geometry,
    root: Root,
    len: u64,
    first: u32,
    pages: Vec<u32>,
) -> Option<Entry>
    requires pages { pages.items ≡ range_with_len first (pages_for len) }
    requires limit { len ≤ BLOB_LIMIT }
    requires room { first + pages_for len ≤ geometry.now.data_pages }
    ensures { ForSome result (MayCome geometry.now entries.now) }
{
    if !is_new(entries, &root) || !are_free(entries, &pages) {
        return None;
    }
    Some(Entry {
        root,
        len,
        pages: Items::make(pages),
    })
}
