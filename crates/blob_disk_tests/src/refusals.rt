//! Calls that are refused.

use crate::blobs::{attach, check, drop_draft, land, put, read_all, remove};
use crate::samples::{
    SMALL, attached, draft_of, first_page, free, lands, refusal, root_for, sample, stock_of,
    store_whole, takes,
};
use blob_disk::{BlobFault, Blobs, CheckFault, LandEnd, PutEnd, RemoveEnd, RoomFault};
use disk_model::{Disk, FuseDisk, MemDisk};
use image_layout::Place;
use node_table::LoadFault;
use pkg_names::Root;
use std::alloc::Global;
use std::test::Fail;

#[test]
fn no_room(rt: HostRuntime) -> Result<(), Fail> {
    let alloc = rt.alloc();
    let (_disk, mut blobs) = stock_of(alloc, &[])?;
    let root = Root([9; 32]);
    // 1021 pages and one
    let _most = draft_of(alloc, &mut blobs, Root([1; 32]), 4_182_016)?;
    let one = draft_of(alloc, &mut blobs, Root([2; 32]), 0)?;
    for (len, fault) in [
        (33_554_433, RoomFault::TooLarge { len: 33_554_433 }),
        (12_288, RoomFault::NoSpace { need: 3, free: 2 }),
    ] {
        assert_eq!(rt; refusal(alloc, &mut blobs, root, len), Some(fault));
    }
    assert!(rt; drop_draft(&mut blobs, one));
    let _all = draft_of(alloc, &mut blobs, root, 12_288)?;
    let fault = RoomFault::NoSpace { need: 1, free: 0 };
    assert_eq!(rt; refusal(alloc, &mut blobs, Root([2; 32]), 0), Some(fault));
    Ok(())
}

// Stores blobs of one byte.
fn store_bytes(
    alloc: Global,
    blobs: &mut Blobs,
    disk: &mut MemDisk,
    count: u8,
) -> Result<(), Fail> {
    for byte in 0..count {
        store_whole(alloc, blobs, disk, &[byte])?;
    }
    Ok(())
}

// Whether the stock is these blobs of one byte.
fn are_bytes(blobs: &Blobs, count: u8) -> bool {
    for (byte, entry) in (0..count).zip(blobs.entries().iter()) {
        if entry.root != root_for(&[byte]) {
            return false;
        }
    }
    blobs.entries().len() == usize::from(count)
}

#[test]
fn full_stocks(rt: HostRuntime) -> Result<(), Fail> {
    let alloc = rt.alloc();
    let (mut disk, mut blobs) = stock_of(alloc, &[])?;
    let next = root_for(&[64]);
    store_bytes(alloc, &mut blobs, &mut disk, 63)?;
    // 63 blobs and a draft, and then 64 blobs
    let mut last = draft_of(alloc, &mut blobs, root_for(&[63]), 1)?;
    assert_eq!(rt;
        refusal(alloc, &mut blobs, next, 4_194_304),
        Some(RoomFault::NoNode)
    );
    assert!(rt; takes(&mut blobs, &mut disk, &mut last, &[63]));
    assert!(rt; lands(&mut blobs, &mut disk, last, &[63]));
    assert_eq!(rt;
        refusal(alloc, &mut blobs, next, 1),
        Some(RoomFault::NoNode)
    );
    let again = attached(alloc, &mut disk)?;
    assert!(rt; are_bytes(&again, 64));
    Ok(())
}

#[test]
fn room_in_a_full_stock(rt: HostRuntime) -> Result<(), Fail> {
    let alloc = rt.alloc();
    let (mut disk, mut blobs) = stock_of(alloc, &[])?;
    store_bytes(alloc, &mut blobs, &mut disk, 64)?;
    let fault = refusal(alloc, &mut blobs, root_for(&[64]), 1);
    assert_eq!(rt; fault, Some(RoomFault::NoNode));
    let roots = [root_for(&[7]), root_for(&[0])];
    assert_eq!(rt;
        remove(&mut blobs, &mut disk, &roots),
        Some(RemoveEnd::Removed)
    );
    assert_eq!(rt; blobs.entries().len(), 62);
    store_whole(alloc, &mut blobs, &mut disk, &[64])
}

#[test]
fn too_many_bytes(rt: HostRuntime) -> Result<(), Fail> {
    let alloc = rt.alloc();
    let (mut disk, mut blobs) = stock_of(alloc, &[])?;
    // `hi` is declared with one byte
    let mut draft = draft_of(alloc, &mut blobs, root_for(b"h"), 1)?;
    let end = put(&mut blobs, &mut disk, &mut draft, b"hi");
    assert_eq!(rt; end, Some(PutEnd::Long { len: 1 }));
    assert!(rt; takes(&mut blobs, &mut disk, &mut draft, b"h"));
    assert!(rt; lands(&mut blobs, &mut disk, draft, b"h"));
    Ok(())
}

// The end of a blob of which this length was declared, without what it left.
fn end_of(
    alloc: Global,
    blobs: &mut Blobs,
    disk: &mut MemDisk,
    len: u64,
    bytes: &[u8],
) -> Result<(u64, Option<Root>), Fail> {
    let mut draft = draft_of(alloc, blobs, Root([1; 32]), len)?;
    if !takes(blobs, disk, &mut draft, bytes) {
        return Err(Fail::new("not taken"));
    }
    match land(blobs, disk, draft) {
        Some(LandEnd::Short { have }) => Ok((have, None)),
        Some(LandEnd::Wrong { got }) => Ok((0, Some(got))),
        _ => Err(Fail::new("landed")),
    }
}

#[test]
fn ends_without_a_blob(rt: HostRuntime) -> Result<(), Fail> {
    let alloc = rt.alloc();
    let bytes = sample(alloc, 5000)?;
    let (mut disk, mut blobs) = stock_of(alloc, &[])?;
    // too few bytes, and bytes of another root; the one full page was written
    for (len, end, acts) in [
        (5001, (5000, None), 6 + 1),
        (5000, (0, Some(root_for(&bytes))), 6 + 2),
    ] {
        assert_eq!(rt; end_of(alloc, &mut blobs, &mut disk, len, &bytes)?, end);
        assert_eq!(rt; disk.acts(), acts);
        assert_eq!(rt; free(alloc, &mut blobs), Some(1024));
        assert!(rt; blobs.drafts().is_empty() && !blobs.is_broken());
    }
    Ok(())
}

// Writes other bytes on a page.
fn spoil<D: Disk>(disk: &mut D, page: u32) -> bool {
    page < disk.pages() && disk.write(page, &[77; 4096]).is_ok()
}

// A disk of which each call fails.
fn blown(disk: MemDisk) -> FuseDisk {
    let mut fuse = FuseDisk::make(disk, 0);
    let _ = fuse.sync();
    fuse
}

// Why a blob isn't read, and why it isn't checked.
fn faults<D: Disk>(
    alloc: Global,
    blobs: &Blobs,
    disk: &mut D,
    root: &Root,
    limit: u32,
) -> Option<(BlobFault, CheckFault)> {
    match (
        read_all(alloc, blobs, disk, root, limit),
        check(blobs, disk, root),
    ) {
        (Some(Err(read)), Some(Err(checked))) => Some((read, checked)),
        _ => None,
    }
}

// The same of `hi` on a disk that may have other bytes there, and may fail.
fn faults_of(
    alloc: Global,
    limit: u32,
    fails: bool,
    wrong: bool,
) -> Result<Option<(BlobFault, CheckFault)>, Fail> {
    let (mut disk, blobs) = stock_of(alloc, &[b"hi"])?;
    if wrong && !spoil(&mut disk, first_page(&blobs, 0).unwrap_or(u32::MAX)) {
        return Err(Fail::new("not spoilt"));
    }
    let root = root_for(b"hi");
    if fails {
        return Ok(faults(alloc, &blobs, &mut blown(disk), &root, limit));
    }
    Ok(faults(alloc, &blobs, &mut disk, &root, limit))
}

#[test]
fn refused_reads(rt: HostRuntime) -> Result<(), Fail> {
    let long = BlobFault::TooLong { len: 2 };
    // the root of 77 and 77
    let got = root_for(&[77, 77]);
    for (limit, fails, wrong, fault, checked) in [
        (1, true, true, long, CheckFault::Read),
        (2, true, true, BlobFault::Read, CheckFault::Read),
        (2, true, false, BlobFault::Read, CheckFault::Read),
        (1, false, true, long, CheckFault::Rotten { got }),
        (
            2,
            false,
            true,
            BlobFault::Rotten { got },
            CheckFault::Rotten { got },
        ),
    ] {
        let found = faults_of(rt.alloc(), limit, fails, wrong)?;
        assert_eq!(rt; found, Some((fault, checked)));
    }
    Ok(())
}

// Where a disk with two blobs is damaged once some of its pages are spoilt, from this one on, of: the selector, the
// rows, the first and the second blob.
fn damage_from(alloc: Global, from: usize) -> Result<Option<Place>, Fail> {
    let (mut disk, blobs) = stock_of(alloc, &[b"hi", b"ho"])?;
    let (one, other) = (first_page(&blobs, 0), first_page(&blobs, 1));
    for page in [Some(2), Some(3), one, other].iter().skip(from) {
        if !spoil(&mut disk, page.unwrap_or(u32::MAX)) {
            return Err(Fail::new("not spoilt"));
        }
    }
    match attach(alloc, &mut disk, &SMALL) {
        Some(Err(LoadFault::Damaged { place })) => Ok(Some(place)),
        _ => Ok(None),
    }
}

#[test]
fn damaged_disks(rt: HostRuntime) -> Result<(), Fail> {
    let (first, second) = (root_for(b"hi"), root_for(b"ho"));
    for (from, place) in [
        (0, Some(Place::Selector)),
        (1, Some(Place::Table { page: 3 })),
        (2, Some(Place::Blob { root: first })),
        (3, Some(Place::Blob { root: second })),
        (4, None),
    ] {
        assert_eq!(rt; damage_from(rt.alloc(), from)?, place);
    }
    Ok(())
}

#[test]
fn disks_that_cannot_be_read(rt: HostRuntime) -> Result<(), Fail> {
    let alloc = rt.alloc();
    let (disk, _blobs) = stock_of(alloc, &[b"hi"])?;
    let answer = attach(alloc, &mut blown(disk), &SMALL);
    assert!(rt; matches!(answer, Some(Err(LoadFault::Read))));
    Ok(())
}
