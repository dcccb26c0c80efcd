//! Calls of a table that look first whether they may be made.

ghost use Rattle.std.specs.Prelude.{◌≡◌, ◌≤◌, IsTrue};
ghost use Rattle.image_layout.specs.Geometry.{IsWithinLimits, total_pages};
ghost use Rattle.node_table.specs.Entries.{pages_for};

use crate::entries::{entry_from, pages_from};
use disk_model::Disk;
use image_layout::{Geometry, total_pages};
use node_table::{BLOB_LIMIT, CommitReply, LoadFault, Table};
use pkg_names::Root;
use std::alloc::{AllocError, Global};

/// The root of this number.
pub fn root(number: u8) -> Root {
    Root([number; 32])
}

fn has_room<D: Disk>(disk: &D, geometry: &Geometry) -> bool
    ensures within { IsTrue result → IsWithinLimits geometry.now }
    ensures room { IsTrue result → total_pages geometry.now ≤ D.pages disk.now }
{
    geometry.is_within_limits() && total_pages(geometry) <= disk.pages()
}

/// Writes an empty table.
pub fn format<D: Disk>(disk: &mut D, geometry: &Geometry) -> bool {
    has_room(disk, geometry) && Table::format(disk, geometry).is_ok()
}

/// Loads the table.
pub fn load<D: Disk>(
    alloc: Global,
    disk: &mut D,
    geometry: &Geometry,
) -> Option<Result<Table, LoadFault>> {
    if !has_room(disk, geometry) {
        return None;
    }
    Some(Table::load(alloc, disk, geometry))
}

fn page_count(len: u64) -> u32
    requires { len ≤ BLOB_LIMIT }
    ensures { result ≡ pages_for len }
{
    if len == 0 {
        1
    } else {
        ((len + 4095) / 4096) as u32
    }
}

/// Commits a blob with this root, on pages in a row.
pub fn add<D: Disk>(
    alloc: Global,
    table: &mut Table,
    disk: &mut D,
    number: u8,
    len: u64,
    first: u32,
) -> Result<Option<CommitReply>, AllocError> {
    let geometry = *table.geometry();
    if len > BLOB_LIMIT || first > 65_536 || table.is_broken() || !has_room(disk, &geometry) {
        return Ok(None);
    }
    let count = page_count(len);
    if first + count > geometry.data_pages {
        return Ok(None);
    }
    let pages = pages_from(alloc, first, count)?;
    let Some(entry) = entry_from(table.entries(), &geometry, root(number), len, first, pages) else {
        return Ok(None);
    };
    Ok(Some(table.commit(disk, Some(entry), &[])))
}

/// Commits that a blob goes.
pub fn remove<D: Disk>(table: &mut Table, disk: &mut D, number: u8) -> Option<CommitReply> {
    let geometry = *table.geometry();
    if table.is_broken() || !has_room(disk, &geometry) {
        return None;
    }
    Some(table.commit(disk, None, &[root(number)]))
}

/// Writes bytes into a page.
pub fn put<D: Disk>(disk: &mut D, page: u32, at: usize, bytes: &[u8]) -> bool {
    let mut whole = [0; 4096];
    if page >= disk.pages() || disk.read(page, &mut whole).is_err() {
        return false;
    }
    for (i, byte) in bytes.iter().enumerate() {
        if i <= 4095 && at <= 4095 - i {
            whole[at + i] = *byte;
        }
    }
    disk.write(page, &whole).is_ok()
}

/// Whether a page has zeros from this byte on.
pub fn is_zero_from<D: Disk>(disk: &mut D, page: u32, at: usize) -> bool {
    let mut whole = [0; 4096];
    if page >= disk.pages() || at > 4096 || disk.read(page, &mut whole).is_err() {
        return false;
    }
    whole[at..].iter().all(|byte| *byte == 0)
}
