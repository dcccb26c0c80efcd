//! The power is cut at every act of a landing and of a removal.

use crate::blobs::remove;
use crate::samples::{Came, DATA, are_stored, attached, free, root_for, sample, stock_of, store};
use blob_disk::{Blobs, RemoveEnd};
use disk_model::{FuseDisk, MemDisk, Pick, restart};
use std::alloc::Global;
use std::test::Fail;

// Whether a power loss that leaves these picks leaves this stock.
fn is_left(
    alloc: Global,
    disk: &MemDisk,
    picks: &[Pick],
    first: &[u8],
    second: Option<&[u8]>,
) -> Result<bool, Fail> {
    let mut after = restart(alloc, disk, picks)?;
    let blobs = attached(alloc, &mut after)?;
    Ok(are_stored(alloc, &blobs, &mut after, first, second))
}

// Whether a power loss leaves the second blob or not: one that leaves no write since the last sync, and one that
// leaves all of them.
fn are_left(
    alloc: Global,
    disk: &MemDisk,
    picks: &[Pick],
    first: &[u8],
    second: &[u8],
    without: bool,
    with: bool,
) -> Result<bool, Fail> {
    let early = if without { Some(second) } else { None };
    let late = if with { Some(second) } else { None };
    Ok(is_left(alloc, disk, &[], first, early)? && is_left(alloc, disk, picks, first, late)?)
}

// What a landing wrote: the full page, the open page, the rows, the links, the selector.
fn written(pages: &[u32]) -> Option<[Pick; 5]> {
    let [first, last] = pages else {
        return None;
    };
    Some([
        Pick {
            page: DATA.checked_add(*first)?,
            act: 14,
        },
        Pick {
            page: DATA.checked_add(*last)?,
            act: 15,
        },
        Pick { page: 3, act: 17 },
        Pick { page: 4, act: 18 },
        Pick { page: 2, act: 20 },
    ])
}

// What a landing wrote, as the last blob or draft tells.
fn writes_of(blobs: &Blobs, landed: bool) -> Option<[Pick; 5]> {
    let entries = if landed {
        blobs.entries()
    } else {
        blobs.drafts()
    };
    written(entries.last()?.pages.as_slice())
}

// Stores a blob on a disk that passes on so many writes and syncs.
fn store_until(
    alloc: Global,
    blobs: &mut Blobs,
    disk: MemDisk,
    left: u64,
    bytes: &[u8],
) -> Result<(MemDisk, Came), Fail> {
    let mut fuse = FuseDisk::make(disk, left);
    let came = store(alloc, blobs, &mut fuse, bytes)?;
    Ok((fuse.inner(), came))
}

#[test]
fn landings(rt: HostRuntime) -> Result<(), Fail> {
    let alloc = rt.alloc();
    let old = sample(alloc, 5000)?;
    let new = sample(alloc, 4097)?;
    // the writes and syncs that pass, how it ended, which writes come after the last sync, and whether the new blob
    // is there after a restart without them and with them
    for (left, end, from, to, without, with) in [
        (0, Came::PutBroke, 0, 1, false, false),
        (1, Came::LandBroke, 0, 2, false, false),
        (2, Came::LandBroke, 0, 2, false, false),
        (3, Came::LandBroke, 2, 3, false, false),
        (4, Came::LandBroke, 2, 4, false, false),
        (5, Came::LandBroke, 2, 4, false, false),
        (6, Came::LandBroke, 4, 5, false, true),
        (7, Came::LandBroke, 4, 5, false, true),
        (8, Came::Landed, 0, 0, true, true),
    ] {
        let (disk, mut blobs) = stock_of(alloc, &[&old])?;
        assert_eq!(rt; disk.acts(), 14);
        let (disk, came) = store_until(alloc, &mut blobs, disk, left, &new)?;
        assert_eq!(rt; came, end, "{left}");
        assert_eq!(rt; blobs.is_broken(), left != 8, "{left}");
        // the pages of the new blob are never free again: some image may have it
        assert_eq!(rt; free(alloc, &mut blobs), Some(1020), "{left}");
        let writes = writes_of(&blobs, left == 8);
        let Some(picks) = writes.as_ref().and_then(|list| list.get(from..to)) else {
            return Err(Fail::new("no writes"));
        };
        let is = are_left(alloc, &disk, picks, &old, &new, without, with)?;
        assert!(rt; is, "{left}");
    }
    Ok(())
}

// Removes a blob on a disk that passes on so many writes and syncs.
fn remove_until(
    blobs: &mut Blobs,
    disk: MemDisk,
    left: u64,
    bytes: &[u8],
) -> (MemDisk, Option<RemoveEnd>) {
    let mut fuse = FuseDisk::make(disk, left);
    let end = remove(blobs, &mut fuse, &[root_for(bytes)]);
    (fuse.inner(), end)
}

#[test]
fn removals(rt: HostRuntime) -> Result<(), Fail> {
    let alloc = rt.alloc();
    let old = sample(alloc, 5000)?;
    let gone = sample(alloc, 4097)?;
    let rows = Pick { page: 5, act: 22 };
    let links = Pick { page: 6, act: 23 };
    let selector = Pick { page: 2, act: 25 };
    // the writes and syncs that pass, how it ended, the writes since the last sync, whether the blob is still there
    // after a restart without them and with them, and the pages that are free
    for (left, end, picks, without, with, pages) in [
        (0, RemoveEnd::Broke, &[rows] as &[Pick], true, true, 1020),
        (1, RemoveEnd::Broke, &[rows, links], true, true, 1020),
        (2, RemoveEnd::Broke, &[rows, links], true, true, 1020),
        (3, RemoveEnd::Broke, &[selector], true, false, 1020),
        (4, RemoveEnd::Broke, &[selector], true, false, 1020),
        (5, RemoveEnd::Removed, &[], false, false, 1022),
    ] {
        let (disk, mut blobs) = stock_of(alloc, &[&old, &gone])?;
        assert_eq!(rt; disk.acts(), 22);
        let (disk, found) = remove_until(&mut blobs, disk, left, &gone);
        assert_eq!(rt; found, Some(end), "{left}");
        assert_eq!(rt; blobs.is_broken(), left != 5, "{left}");
        // only then are the pages free
        assert_eq!(rt; free(alloc, &mut blobs), Some(pages), "{left}");
        let is = are_left(alloc, &disk, picks, &old, &gone, without, with)?;
        assert!(rt; is, "{left}");
    }
    Ok(())
}
