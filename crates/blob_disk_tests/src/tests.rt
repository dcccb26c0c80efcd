use crate::blobs::{add_and_write, check, drop_draft, land, read_all, remove};
use crate::samples::{
    SMALL, are_stored, attached, draft_of, empty, free, lands, reads_part, root_for, sample,
    stock_of, takes,
};
use blob_disk::{Blobs, LandEnd, RemoveEnd, WriteEnd};
use blob_pages::Draft;
use disk_model::{Disk, FuseDisk, MemDisk};
use node_table::Entry;
use pkg_names::{Root, read_root};
use std::alloc::Global;
use std::test::Fail;

// Puts a long blob in two pieces, of which the second is added and written apart.
fn comes_in_two_pieces(
    blobs: &mut Blobs,
    disk: &mut MemDisk,
    draft: &mut Draft,
    bytes: &[u8],
) -> bool {
    let Some((front, back)) = bytes.split_at_checked(5000) else {
        return false;
    };
    takes(blobs, disk, draft, front)
        && blobs.kept(draft) == Some(front)
        && add_and_write(blobs, disk, draft, back) == Some(WriteEnd::Written)
}

#[test]
fn a_long_blob(rt: HostRuntime) -> Result<(), Fail> {
    let alloc = rt.alloc();
    let bytes = sample(alloc, 70_000)?;
    let mut disk = empty(alloc)?;
    let mut blobs = attached(alloc, &mut disk)?;
    assert!(rt; *blobs.geometry() == SMALL && blobs.entries().is_empty());
    let mut draft = draft_of(alloc, &mut blobs, root_for(&bytes), 70_000)?;
    // 18 pages are taken
    assert_eq!(rt; free(alloc, &mut blobs), Some(1006));
    assert!(rt; comes_in_two_pieces(&mut blobs, &mut disk, &mut draft, &bytes));
    // 17 pages are full, and the landing writes the last one
    assert_eq!(rt; disk.acts(), 6 + 17);
    assert!(rt; lands(&mut blobs, &mut disk, draft, &bytes));
    assert_eq!(rt; disk.acts(), 6 + 17 + 7);
    assert!(rt; blobs.drafts().is_empty() && !blobs.is_broken());
    Ok(())
}

fn is_entry(entry: &Entry, root: Root, len: u64) -> bool {
    entry.root == root && entry.len == len
}

fn are_entries(blobs: &Blobs, first: &[u8], second: &[u8]) -> bool {
    let [one, other] = blobs.entries() else {
        return false;
    };
    is_entry(one, root_for(first), first.len() as u64)
        && is_entry(other, root_for(second), second.len() as u64)
}

#[test]
fn reads(rt: HostRuntime) -> Result<(), Fail> {
    let alloc = rt.alloc();
    let (mut disk, blobs) = stock_of(alloc, &[b"hi", b"hello"])?;
    assert!(rt; are_entries(&blobs, b"hi", b"hello"));
    assert!(rt; are_stored(alloc, &blobs, &mut disk, b"hi", Some(b"hello")));
    assert_eq!(rt; check(&blobs, &mut disk, &root_for(b"hello")), Some(Ok(5)));
    Ok(())
}

#[test]
fn parts(rt: HostRuntime) -> Result<(), Fail> {
    let alloc = rt.alloc();
    let bytes = sample(alloc, 65_530)?;
    let (mut disk, blobs) = stock_of(alloc, &[&bytes])?;
    for (from, size, count) in [
        (0, 10, 10),
        (4090, 20, 20),
        (65_520, 20, 10),
        (65_530, 5, 0),
    ] {
        let read = reads_part(&blobs, &mut disk, &bytes, from, size, count);
        assert!(rt; read, "{from}");
    }
    Ok(())
}

// Whether a blob goes, of two, and its pages are free then.
fn goes(alloc: Global, blobs: &mut Blobs, disk: &mut MemDisk, gone: &[u8], left: &[u8]) -> bool {
    free(alloc, blobs) == Some(1021)
        && remove(blobs, disk, &[root_for(gone)]) == Some(RemoveEnd::Removed)
        && free(alloc, blobs) == Some(1023)
        && are_stored(alloc, blobs, disk, left, None)
}

#[test]
fn removals(rt: HostRuntime) -> Result<(), Fail> {
    let alloc = rt.alloc();
    let bytes = sample(alloc, 8192)?;
    let (mut disk, _) = stock_of(alloc, &[b"hi", &bytes])?;
    let mut blobs = attached(alloc, &mut disk)?;
    assert!(rt; goes(alloc, &mut blobs, &mut disk, &bytes, b"hi"));
    let again = attached(alloc, &mut disk)?;
    assert!(rt; are_stored(alloc, &again, &mut disk, b"hi", None));
    Ok(())
}

// Whether the pieces of a blob are taken.
fn come(blobs: &mut Blobs, disk: &mut MemDisk, draft: &mut Draft, bytes: &[u8]) -> bool {
    for piece in bytes.chunks(65_536) {
        if !takes(blobs, disk, draft, piece) {
            return false;
        }
    }
    true
}

// Whether a blob in pieces is stored, and its bytes are kept or not.
fn is_landed(
    blobs: &mut Blobs,
    disk: &mut MemDisk,
    draft: Draft,
    bytes: &[u8],
    kept: bool,
) -> bool {
    let mut draft = draft;
    if !come(blobs, disk, &mut draft, bytes) || blobs.kept(&draft).is_some() != kept {
        return false;
    }
    match land(blobs, disk, draft) {
        Some(LandEnd::Landed(found)) => found.is_some() == kept,
        _ => false,
    }
}

// Whether a blob is read and checked.
fn is_read(alloc: Global, blobs: &Blobs, disk: &mut MemDisk, root: &Root, bytes: &[u8]) -> bool {
    if check(blobs, disk, root) != Some(Ok(bytes.len() as u64)) {
        return false;
    }
    match read_all(alloc, blobs, disk, root, 33_554_432) {
        Some(Ok(read)) => read.as_slice() == bytes,
        _ => false,
    }
}

#[test]
fn kept_bytes(rt: HostRuntime) -> Result<(), Fail> {
    let alloc = rt.alloc();
    // the roots were computed by another program; only bytes up to the limit are kept
    for (count, digits, kept) in [
        (
            1_048_576,
            b"9bc3c699109ae4d5a5301a6bb88d32a22f3855242df945c7668d4a079fca18df",
            true,
        ),
        (
            1_048_577,
            b"f0e612903b10dba2c666b855476ee4cc8244b8874556bbf57ff0896672a37a70",
            false,
        ),
    ] {
        let Ok(root) = read_root(digits) else {
            return Err(Fail::new("no root"));
        };
        let bytes = sample(alloc, count)?;
        let mut disk = empty(alloc)?;
        let mut blobs = attached(alloc, &mut disk)?;
        let draft = draft_of(alloc, &mut blobs, root, u64::from(count))?;
        assert!(rt;
            is_landed(&mut blobs, &mut disk, draft, &bytes, kept),
            "{count}"
        );
        assert!(rt; is_read(alloc, &blobs, &mut disk, &root, &bytes), "{count}");
    }
    Ok(())
}

#[test]
fn no_roots(rt: HostRuntime) -> Result<(), Fail> {
    let alloc = rt.alloc();
    let (disk, mut blobs) = stock_of(alloc, &[b"hi"])?;
    // a disk of which each call fails
    let mut blown = FuseDisk::make(disk, 0);
    let _ = blown.sync();
    assert_eq!(rt;
        remove(&mut blobs, &mut blown, &[]),
        Some(RemoveEnd::Removed)
    );
    // a root that has no blob is passed over
    let mut disk = blown.inner();
    assert_eq!(rt;
        remove(&mut blobs, &mut disk, &[root_for(b"ho")]),
        Some(RemoveEnd::Removed)
    );
    assert!(rt; are_stored(alloc, &blobs, &mut disk, b"hi", None));
    Ok(())
}

#[test]
fn dropped_drafts(rt: HostRuntime) -> Result<(), Fail> {
    let alloc = rt.alloc();
    let (mut disk, mut blobs) = stock_of(alloc, &[])?;
    let mut draft = draft_of(alloc, &mut blobs, Root([1; 32]), 5000)?;
    assert!(rt; takes(&mut blobs, &mut disk, &mut draft, b"h"));
    assert_eq!(rt; free(alloc, &mut blobs), Some(1022));
    assert!(rt; drop_draft(&mut blobs, draft));
    assert_eq!(rt; free(alloc, &mut blobs), Some(1024));
    assert!(rt; blobs.drafts().is_empty());
    Ok(())
}
