//! What a draft does with its bytes.

ghost use Rattle.std.specs.Prelude.{◌≡◌, ◌<◌, ◌≤◌, length, drop, vec_len, vec_capacity};
ghost use Rattle.pkg_merkle.specs.declared.hasher.TheConstants.{BYTES_LIMIT};
ghost use Rattle.blob_pages.specs.Pages.{begun_page};
ghost use Rattle.blob_pages.specs.Room.{room_for, to_forget};

use crate::draft::{KEPT_LIMIT, PAGE_SIZE, PIECE_LIMIT};

/// The room that a draft needs for its bytes.
pub(crate) fn room_for(len: u64) -> usize
    requires { len ≤ BYTES_LIMIT }
    ensures { result ≡ room_for len }
{
    if len <= KEPT_LIMIT {
        len as usize
    } else {
        PIECE_LIMIT + PAGE_SIZE
    }
}

/// How many bytes of pages that were passed a draft forgets: none where it keeps its bytes.
pub(crate) fn to_forget(len: u64, from: usize) -> usize
    ensures { result ≡ to_forget len from }
{
    if len <= KEPT_LIMIT { 0 } else { from }
}

/// Forgets the first bytes.
pub(crate) fn forget_front(bytes: &mut Vec<u8>, count: usize)
    requires { count ≤ vec_len bytes.old }
    ensures rest { bytes.new.items ≡ drop count bytes.old.items }
    ensures room { vec_capacity bytes.new ≡ vec_capacity bytes.old }
{
    if count > 0 {
        bytes.copy_within(count.., 0);
        bytes.truncate(bytes.len() - count);
    }
}

/// The page that these bytes begin, with zeros behind them. No bytes begin none.
pub(crate) fn begun_page(bytes: &[u8]) -> Option<[u8; 4096]>
    requires { length bytes.now < PAGE_SIZE }
    ensures { result ≡ begun_page bytes.now }
{
    if bytes.is_empty() {
        return None;
    }
    let mut page = [0; 4096];
    page[..bytes.len()].copy_from_slice(bytes);
    Some(page)
}
