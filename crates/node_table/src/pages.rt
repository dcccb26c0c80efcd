//! Pages of rows, and pages of links.

ghost use Rattle.std.specs.Prelude.{◌≡◌, ℕ, ◌+◌, ◌*◌, ◌<◌, ◌≤◌, ◌++◌, map, length, slice_index_or, vec_len, vec_capacity};
ghost use Rattle.std.specs.List.{range_with_len};
ghost use Rattle.node_table.specs.declared.rows.Row.{Row as RowOf};
ghost use Rattle.node_table.specs.Spelling.{row_on, link_on};

use crate::rows::{Row, row_bytes, row_on};
use pkg_names::numbers::u32_at;

/// How many rows a page has, and how many links.
pub(crate) const ROWS: usize = 64;

pub(crate) const LINKS: usize = 1024;

/// Adds the rows of a page.
pub(crate) fn take_rows(page: &[u8; 4096], rows: &mut Vec<Row>)
    requires { vec_len rows.old + 64 ≤ vec_capacity rows.old }
    ensures rows { rows.new.items ≡ rows.old.items ++ map (row_on page.now) (range_with_len 0 64) }
    ensures capacity { vec_capacity rows.new ≡ vec_capacity rows.old }
{
    for k in 0..ROWS {
        rows.push_reserved(row_on(page, k));
    }
}

/// Adds the links of a page.
pub(crate) fn take_links(page: &[u8; 4096], links: &mut Vec<u32>)
    requires { vec_len links.old + 1024 ≤ vec_capacity links.old }
    ensures links { links.new.items ≡ links.old.items ++ map (link_on page.now) (range_with_len 0 1024) }
    ensures capacity { vec_capacity links.new ≡ vec_capacity links.old }
{
    for k in 0..LINKS {
        links.push_reserved(u32_at(page, 4 * k));
    }
}

/// Makes the page of these rows.
pub(crate) fn put_rows(rows: &[Row], page: &mut [u8; 4096])
    requires { length rows.now ≡ 64 }
    ensures { (k : ℕ) (d : RowOf) → k < 64 → row_on page.new k ≡ slice_index_or rows.now k d }
{
    for k in 0..ROWS {
        page[64 * k..64 * k + 64].copy_from_slice(&row_bytes(&rows[k]));
    }
}

/// Makes the page of these links.
pub(crate) fn put_links(links: &[u32], page: &mut [u8; 4096])
    requires { length links.now ≡ 1024 }
    ensures { (k d : ℕ) → k < 1024 → link_on page.new k ≡ slice_index_or links.now k d }
{
    for k in 0..LINKS {
        page[4 * k..4 * k + 4].copy_from_slice(&links[k].to_le_bytes());
    }
}
