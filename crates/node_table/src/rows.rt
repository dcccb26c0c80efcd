//! What a copy says of one entry, in 64 bytes.

ghost use Rattle.std.specs.Prelude.{◌≡◌, ◌<◌, length};
ghost use Rattle.node_table.specs.Spelling.{row_in, row_on, row_of, unused_row};
ghost use Rattle.node_table.specs.Steps.{numbers_text, row_text};

use crate::entry::Entry;
use pkg_names::Root;
use pkg_names::numbers::{u32_at, u64_at};

/// The row of an entry: its root, its length, its first page, and whether there is an entry at all.
#[derive(Clone, Copy, Debug, PartialEq, Eq)]
pub struct Row {
    pub root: Root,
    pub len: u64,
    pub first: u32,
    pub used: bool,
}

/// The row of no entry.
pub(crate) fn unused_row() -> Row
    ensures { result ≡ unused_row }
{
    Row {
        root: Root([0; 32]),
        len: 0,
        first: 0,
        used: false,
    }
}

/// The row of an entry.
pub(crate) fn row_of(entry: &Entry) -> Row
    requires { 0 < length entry.now.pages }
    ensures { result ≡ row_of entry.now }
{
    let pages = entry.pages.as_slice();
    Row {
        root: entry.root,
        len: entry.len,
        first: pages[0],
        used: true,
    }
}

fn row_in(bytes: &[u8]) -> Row
    requires { length bytes.now ≡ 64 }
    ensures { result ≡ row_in bytes.now }
{
    let mut root = [0; 32];
    root.copy_from_slice(&bytes[..32]);
    Row {
        root: Root(root),
        len: u64_at(bytes, 32),
        first: u32_at(bytes, 40),
        used: bytes[44] != 0,
    }
}

/// Row `k` of a page.
pub(crate) fn row_on(page: &[u8; 4096], k: usize) -> Row
    requires { k < 64 }
    ensures { result ≡ row_on page.now k }
{
    row_in(&page[64 * k..64 * k + 64])
}

// What stands behind the root.
fn numbers_text(row: &Row) -> [u8; 32]
    ensures { result ≡ numbers_text row.now }
{
    let mut bytes = [0; 32];
    bytes[..8].copy_from_slice(&row.len.to_le_bytes());
    bytes[8..12].copy_from_slice(&row.first.to_le_bytes());
    bytes[12] = u8::from(row.used);
    bytes
}

fn row_text(row: &Row) -> [u8; 64]
    ensures text { result ≡ row_text row.now }
    ensures root { length row.now.root.0 ≡ 32 }
{
    let mut bytes = [0; 64];
    bytes[..32].copy_from_slice(&row.root.0);
    bytes[32..].copy_from_slice(&numbers_text(row));
    bytes
}

/// The bytes of a row, with zeros behind.
pub(crate) fn row_bytes(row: &Row) -> [u8; 64]
    ensures { row_in result ≡ row.now }
{
    let _len = row.len;
    let _first = row.first;
    row_text(row)
}
