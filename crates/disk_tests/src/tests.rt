ghost use Rattle.std.specs.Prelude.{◌≡◌, ◌<◌};

use crate::commit::commit;
use crate::drill::drill;
use crate::reads::read_both;
use disk_model::{
    CopyFault, Disk, DiskAct, FuseDisk, MemDisk, Pick, QuietDisk, RestartFault, last_picks,
    restart, settle_pages,
};
use std::alloc::{AllocError, Global};
use std::test::Fail;

fn page_of(byte: u8) -> [u8; 4096] {
    [byte; 4096]
}

// Whether the page was filled with this byte.
fn put<D: Disk>(disk: &mut D, page: u32, byte: u8) -> bool
    requires { page < D.pages disk.old }
    ensures { D.pages disk.new ≡ D.pages disk.old }
{
    disk.write(page, &page_of(byte)).is_ok()
}

// The last byte of a page.
fn got<D: Disk>(disk: &mut D, page: u32) -> Option<u8>
    requires { page < D.pages disk.old }
    ensures { D.pages disk.new ≡ D.pages disk.old }
{
    let mut out = page_of(255);
    match disk.read(page, &mut out) {
        Ok(()) => Some(out[4095]),
        Err(_) => None,
    }
}

fn synced<D: Disk>(disk: &mut D) -> bool
    ensures { D.pages disk.new ≡ D.pages disk.old }
{
    disk.sync().is_ok()
}

fn mem(alloc: Global, pages: u32, failing: u64) -> Result<MemDisk, AllocError> {
    MemDisk::make(alloc, pages, vec![in alloc; failing]?)
}

#[test]
fn listed_calls_fail(rt: HostRuntime) -> Result<(), Fail> {
    // the call that fails; a write, a sync and a read; the acts
    for (failing, wrote, ended, read, acts) in [
        (1, false, true, Some(0), 2),
        (2, true, false, Some(5), 1),
        (3, true, true, None, 2),
        (4, true, true, Some(5), 2),
    ] {
        let mut disk = mem(rt.alloc(), 2, failing)?;
        assert_eq!(rt; disk.pages(), 2);
        assert_eq!(rt; put(&mut disk, 1, 5), wrote, "write, failing {failing}");
        assert_eq!(rt; synced(&mut disk), ended, "sync, failing {failing}");
        assert_eq!(rt; got(&mut disk, 1), read, "read, failing {failing}");
        assert_eq!(rt; disk.acts(), acts, "acts, failing {failing}");
        assert!(rt; !disk.starved());
    }
    Ok(())
}

#[test]
fn fails_after(rt: HostRuntime) -> Result<(), Fail> {
    // the listed call; how many calls pass; which of the four syncs after the first succeed
    for (listed, calls, ends) in [
        (0, 0, [false, true, true, true]),
        (0, 2, [true, true, false, true]),
        (0, u64::MAX, [true, true, true, true]),
        (3, 0, [false, false, true, true]),
        (3, 1, [true, false, true, true]),
    ] {
        let mut disk = mem(rt.alloc(), 1, listed)?;
        assert!(rt; synced(&mut disk));
        disk.fail_after(3);
        disk.fail_after(calls); // in place of the one before
        for (n, ended) in ends.iter().enumerate() {
            assert_eq!(rt; synced(&mut disk), *ended, "sync {n}, {calls} pass");
        }
    }
    Ok(())
}

// A write without memory for its act. With memory for all it is a plain write, so the gate runs this
// test once more with an allocation that fails.
#[test]
fn starves(rt: HostRuntime) -> Result<(), Fail> {
    let Ok(mut disk) = mem(rt.alloc(), 1, 0) else {
        return Ok(());
    };
    assert_eq!(rt; disk.pages(), 1);
    let wrote = put(&mut disk, 0, 5);
    assert_eq!(rt; disk.starved(), !wrote);
    assert_eq!(rt; disk.acts(), if wrote { 1 } else { 0 });
    assert_eq!(rt; got(&mut disk, 0), Some(if wrote { 5 } else { 0 }));
    Ok(())
}

#[test]
fn a_fuse_passes_two(rt: HostRuntime) -> Result<(), Fail> {
    let mut disk = FuseDisk::make(mem(rt.alloc(), 2, 0)?, 2);
    assert_eq!(rt; disk.pages(), 2);
    assert!(rt; put(&mut disk, 0, 1));
    assert_eq!(rt; got(&mut disk, 0), Some(1));
    assert!(rt; synced(&mut disk));
    assert_eq!(rt; got(&mut disk, 1), Some(0));
    assert!(rt; !put(&mut disk, 1, 2));
    assert_eq!(rt; got(&mut disk, 1), None);
    assert!(rt; !synced(&mut disk));
    let inner = disk.inner();
    assert_eq!(rt; inner.acts(), 3);
    Ok(())
}

#[test]
fn quiet_pages(rt: HostRuntime) -> Result<(), Fail> {
    let mut disk = QuietDisk::make(rt.alloc(), 3)?;
    assert_eq!(rt; disk.pages(), 3);
    assert_eq!(rt; got(&mut disk, 2), Some(0));
    assert!(rt; put(&mut disk, 2, 9));
    assert!(rt; synced(&mut disk));
    assert_eq!(rt; got(&mut disk, 2), Some(9));
    assert_eq!(rt; got(&mut disk, 1), Some(0));
    Ok(())
}

// Acts 0 to 4: page 0 gets 1, a sync, page 0 gets 2, page 1 gets 3, and a write of 4 to page 1 fails.
fn busy(alloc: Global) -> Result<MemDisk, AllocError> {
    let mut disk = mem(alloc, 2, 5)?;
    if disk.pages() == 2 {
        let _ = put(&mut disk, 0, 1);
        let _ = synced(&mut disk);
        let _ = put(&mut disk, 0, 2);
        let _ = put(&mut disk, 1, 3);
        let _ = put(&mut disk, 1, 4);
    }
    Ok(disk)
}

#[test]
fn restarts(rt: HostRuntime) -> Result<(), Fail> {
    let disk = busy(rt.alloc())?;
    assert_eq!(rt; disk.acts(), 5);
    let new = Pick { page: 0, act: 2 };
    let next = Pick { page: 1, act: 3 };
    let failed = Pick { page: 1, act: 4 };
    for (picks, first, second) in [
        (&[] as &[Pick], 1, 0),
        (&[new], 2, 0),
        (&[failed], 1, 4),
        (&[next, new], 2, 3),
    ] {
        let mut old = restart(rt.alloc(), &disk, picks)?;
        assert_eq!(rt; old.pages(), 2);
        assert_eq!(rt; got(&mut old, 0), Some(first));
        assert_eq!(rt; got(&mut old, 1), Some(second));
        assert_eq!(rt; old.acts(), 0);
    }
    Ok(())
}

#[test]
fn last_writes(rt: HostRuntime) -> Result<(), Fail> {
    let disk = busy(rt.alloc())?;
    let picks = last_picks(rt.alloc(), &disk)?;
    let expected = [Pick { page: 0, act: 2 }, Pick { page: 1, act: 4 }];
    assert_eq!(rt; picks.as_slice(), expected.as_slice());
    let mut high = restart(rt.alloc(), &disk, &picks)?;
    assert_eq!(rt; high.pages(), 2);
    assert_eq!(rt; got(&mut high, 0), Some(2));
    assert_eq!(rt; got(&mut high, 1), Some(4));
    // nothing was written since the sync
    assert!(rt; synced(&mut high));
    assert!(rt; last_picks(rt.alloc(), &high)?.is_empty());
    Ok(())
}

// Whether a write succeeded, its page and its first byte.
fn written(act: &DiskAct) -> Option<(bool, u32, u8)> {
    match act {
        DiskAct::Wrote(page, bytes) => Some((true, *page, bytes[0])),
        DiskAct::Failed(page, bytes) => Some((false, *page, bytes[0])),
        DiskAct::Synced => None,
    }
}

#[test]
fn trails(rt: HostRuntime) -> Result<(), Fail> {
    let trail = busy(rt.alloc())?.into_trail();
    let acts = [
        Some((true, 0, 1)),
        None,
        Some((true, 0, 2)),
        Some((true, 1, 3)),
        Some((false, 1, 4)),
    ];
    assert_eq!(rt; trail.as_slice().len(), 5);
    for (act, expected) in trail.as_slice().iter().zip(acts.iter()) {
        assert_eq!(rt; written(act), *expected);
    }
    Ok(())
}

#[test]
fn bad_picks(rt: HostRuntime) -> Result<(), Fail> {
    let disk = busy(rt.alloc())?;
    let new = Pick { page: 0, act: 2 };
    for (picks, bad) in [
        // a page that wasn't written by that act, an act before the last sync, the sync, no act
        (&[Pick { page: 1, act: 2 }] as &[Pick], 0),
        (&[Pick { page: 0, act: 0 }], 0),
        (&[new, Pick { page: 0, act: 1 }], 1),
        (&[Pick { page: 7, act: 5 }], 0),
        // a page twice
        (
            &[Pick { page: 1, act: 3 }, new, Pick { page: 1, act: 4 }],
            2,
        ),
    ] {
        match restart(rt.alloc(), &disk, picks) {
            Ok(_) => assert!(rt; false),
            Err(fault) => assert_eq!(rt; fault, RestartFault::BadPick { n: bad }),
        }
    }
    Ok(())
}

#[test]
fn copies(rt: HostRuntime) -> Result<(), Fail> {
    let mut zeros = mem(rt.alloc(), 3, 0)?;
    let copy = MemDisk::copy_of(rt.alloc(), &mut zeros)?;
    assert_eq!(rt; copy.pages(), 3);
    assert_eq!(rt; copy.acts(), 0);
    // the second read fails
    let mut failing = mem(rt.alloc(), 3, 2)?;
    match MemDisk::copy_of(rt.alloc(), &mut failing) {
        Ok(_) => assert!(rt; false),
        Err(fault) => assert_eq!(rt; fault, CopyFault::Read),
    }
    // what was written last is read
    let mut disk = busy(rt.alloc())?;
    let mut copy = MemDisk::copy_of(rt.alloc(), &mut disk)?;
    assert_eq!(rt; copy.pages(), 2);
    assert_eq!(rt; got(&mut copy, 0), Some(2));
    assert_eq!(rt; got(&mut copy, 1), Some(3));
    Ok(())
}

#[test]
fn commits(rt: HostRuntime) -> Result<(), Fail> {
    let mut disk = QuietDisk::make(rt.alloc(), 7)?;
    let mut chooser = [0; 4096];
    chooser[0] = 2;
    let pages = [[7; 4096], [8; 4096], [9; 4096]];
    assert_eq!(rt; disk.pages(), 7);
    assert!(rt; commit(&mut disk, 4, &pages, &chooser).is_ok());
    let mut out = [0; 4096];
    for (page, byte) in [(0, 2), (1, 0), (3, 0), (4, 7), (5, 8), (6, 9)] {
        assert_eq!(rt; disk.pages(), 7);
        assert!(rt; disk.read(page, &mut out).is_ok());
        assert_eq!(rt; out[0], byte, "page {page}");
    }
    Ok(())
}

#[test]
fn settles(rt: HostRuntime) -> Result<(), Fail> {
    let pages = [[7; 4096], [8; 4096]];
    // the call that fails; the acts
    for (failing, acts) in [(0, 3), (1, 1), (2, 2), (3, 2)] {
        let mut disk = MemDisk::make(rt.alloc(), 3, vec![in rt.alloc(); failing]?)?;
        assert_eq!(rt; disk.pages(), 3);
        assert_eq!(rt; settle_pages(&mut disk, 1, &pages).is_ok(), failing == 0);
        assert_eq!(rt; disk.acts(), acts, "failing {failing}");
    }
    Ok(())
}

#[test]
fn drills(rt: HostRuntime) -> Result<(), Fail> {
    for (left, acts) in [(0, 1), (1, 1), (2, 3), (3, 3), (9, 3)] {
        let inner = MemDisk::make(rt.alloc(), 1, Vec::new(rt.alloc()))?;
        assert_eq!(rt; drill(inner, left, &[4; 4096]).acts(), acts, "{left} left");
    }
    Ok(())
}

#[test]
fn reads(rt: HostRuntime) -> Result<(), Fail> {
    let mut disk = QuietDisk::make(rt.alloc(), 2)?;
    let mut first = [1; 4096];
    let mut second = [1; 4096];
    assert_eq!(rt; disk.pages(), 2);
    assert!(rt; disk.write(0, &[7; 4096]).is_ok());
    assert!(rt; read_both(&mut disk, 1, 0, &mut first, &mut second).is_ok());
    assert_eq!(rt; first[0], 0);
    assert_eq!(rt; second[4095], 7);
    Ok(())
}
