use crate::tables::{add, format, is_zero_from, load, put, remove, root};
use disk_model::{FuseDisk, MemDisk, Pick, restart};
use image_layout::{Geometry, Place};
use node_table::{CommitReply, LoadFault, Table};
use std::alloc::{AllocError, Global};
use std::test::Fail;

// The second copy of the table begins at page 5 of an image of the first one, and at page 6 of the second.
const SMALL: Geometry = Geometry {
    blobs: 64,
    data_pages: 1024,
    slot_pages: 1,
};

const TWO_PAGES: Geometry = Geometry {
    blobs: 128,
    data_pages: 1024,
    slot_pages: 1,
};

// A disk of 1087 pages with an empty table.
fn empty(alloc: Global, geometry: &Geometry) -> Result<MemDisk, AllocError> {
    let mut disk = MemDisk::make(alloc, 1087, Vec::new(alloc))?;
    let _ = format(&mut disk, geometry);
    Ok(disk)
}

fn loaded(alloc: Global, disk: &mut MemDisk, geometry: &Geometry) -> Option<Table> {
    match load(alloc, disk, geometry) {
        Some(Ok(table)) => Some(table),
        _ => None,
    }
}

// How many entries a table has, and whether their roots are those of 1, 2 and so on.
fn count(table: &Table) -> Option<usize> {
    for (i, entry) in table.entries().iter().enumerate() {
        if i >= 255 || entry.root != root(i as u8 + 1) {
            return None;
        }
    }
    Some(table.entries().len())
}

fn count_on(alloc: Global, disk: &mut MemDisk) -> Option<usize> {
    match loaded(alloc, disk, &SMALL) {
        Some(table) => count(&table),
        None => None,
    }
}

#[test]
fn commits(rt: HostRuntime) -> Result<(), Fail> {
    let alloc = rt.alloc();
    let mut disk = empty(alloc, &SMALL)?;
    let Some(mut table) = loaded(alloc, &mut disk, &SMALL) else {
        return Err(Fail::new("no table"));
    };
    assert_eq!(rt; table.entries().len(), 0);
    assert_eq!(rt; disk.acts(), 6);
    assert_eq!(rt;
        add(alloc, &mut table, &mut disk, 1, 8192, 0)?,
        Some(CommitReply::Done)
    );
    assert_eq!(rt;
        add(alloc, &mut table, &mut disk, 2, 0, 2)?,
        Some(CommitReply::Done)
    );
    // each commit writes two pages, syncs, writes the selector and syncs
    assert_eq!(rt; disk.acts(), 16);
    assert_eq!(rt; count(&table), Some(2));
    assert_eq!(rt; count_on(alloc, &mut disk), Some(2));
    // two rows, and the links of three pages
    assert!(rt; is_zero_from(&mut disk, 3, 109));
    assert!(rt; is_zero_from(&mut disk, 4, 12));
    assert!(rt; is_zero_from(&mut disk, 2, 5));
    assert_eq!(rt; table.find(&root(2)).map(|entry| entry.len), Some(0));
    assert!(rt; table.find(&root(3)).is_none());
    assert_eq!(rt; remove(&mut table, &mut disk, 2), Some(CommitReply::Done));
    assert_eq!(rt; count(&table), Some(1));
    assert!(rt; table.find(&root(2)).is_none());
    assert_eq!(rt; count_on(alloc, &mut disk), Some(1));
    Ok(())
}

#[test]
fn power_loss(rt: HostRuntime) -> Result<(), Fail> {
    let alloc = rt.alloc();
    let rows = Pick { page: 3, act: 11 };
    let links = Pick { page: 4, act: 12 };
    let selector = Pick { page: 2, act: 14 };
    // the writes and syncs that pass, the answer, the picks of all that was written since the last sync,
    // and the entries after a restart without them and with them
    for (left, reply, picks, without, with) in [
        (0, CommitReply::Broke, &[rows] as &[Pick], 1, 1),
        (1, CommitReply::Broke, &[rows, links], 1, 1),
        (2, CommitReply::Broke, &[rows, links], 1, 1),
        (3, CommitReply::Broke, &[selector], 1, 2),
        (4, CommitReply::Broke, &[selector], 1, 2),
        (5, CommitReply::Done, &[], 2, 2),
    ] {
        let mut disk = empty(alloc, &SMALL)?;
        let Some(mut table) = loaded(alloc, &mut disk, &SMALL) else {
            return Err(Fail::new("no table"));
        };
        assert_eq!(rt;
            add(alloc, &mut table, &mut disk, 1, 9000, 0)?,
            Some(CommitReply::Done)
        );
        assert_eq!(rt; disk.acts(), 11);
        let mut fuse = FuseDisk::make(disk, left);
        assert_eq!(rt;
            add(alloc, &mut table, &mut fuse, 2, 1, 3)?,
            Some(reply),
            "{left}"
        );
        assert_eq!(rt; table.is_broken(), reply == CommitReply::Broke);
        let inner = fuse.inner();
        let mut plain = restart(alloc, &inner, &[])?;
        assert_eq!(rt;
            count_on(alloc, &mut plain),
            Some(without),
            "{left}, no picks"
        );
        let mut picked = restart(alloc, &inner, picks)?;
        assert_eq!(rt;
            count_on(alloc, &mut picked),
            Some(with),
            "{left}, all picks"
        );
    }
    Ok(())
}

#[test]
fn wrong_tables(rt: HostRuntime) -> Result<(), Fail> {
    let alloc = rt.alloc();
    let table = Place::Table { page: 3 };
    // the first row has pages 0 and 1, the second has pages 2 and 3
    for (page, at, bytes, place) in [
        (2, 0, b"X" as &[u8], Place::Selector),
        (2, 4, &[2], Place::Selector),
        // a blob one byte too long, a root twice, a first page that there isn't
        (3, 32, &[1, 0, 0, 2], table),
        (3, 64, &[1; 32], table),
        (3, 40, &[0, 4], table),
        // a chain too short, too long, in a circle, and one that shares a page
        (4, 0, &[255; 4], table),
        (4, 4, &[4, 0, 0, 0], table),
        (4, 4, &[0; 4], table),
        (3, 104, &[1], table),
        // a row behind the last one that isn't 0 reads as used
        (3, 172, &[7], table),
    ] {
        let mut disk = empty(alloc, &SMALL)?;
        let Some(mut good) = loaded(alloc, &mut disk, &SMALL) else {
            return Err(Fail::new("no table"));
        };
        assert_eq!(rt;
            add(alloc, &mut good, &mut disk, 1, 8192, 0)?,
            Some(CommitReply::Done)
        );
        assert_eq!(rt;
            add(alloc, &mut good, &mut disk, 2, 5000, 2)?,
            Some(CommitReply::Done)
        );
        assert!(rt; put(&mut disk, page, at, bytes));
        match load(alloc, &mut disk, &SMALL) {
            Some(Err(LoadFault::Damaged { place: found })) => {
                assert_eq!(rt; found, place, "page {page}, byte {at}")
            }
            _ => return Err(Fail::new("no place")),
        }
    }
    Ok(())
}

#[test]
fn full_tables(rt: HostRuntime) -> Result<(), Fail> {
    let alloc = rt.alloc();
    let mut disk = empty(alloc, &SMALL)?;
    let Some(mut table) = loaded(alloc, &mut disk, &SMALL) else {
        return Err(Fail::new("no table"));
    };
    for number in 1u8..65 {
        let reply = add(alloc, &mut table, &mut disk, number, 1, u32::from(number))?;
        assert_eq!(rt; reply, Some(CommitReply::Done), "{number}");
    }
    assert_eq!(rt;
        add(alloc, &mut table, &mut disk, 65, 1, 65)?,
        Some(CommitReply::NoNode)
    );
    assert_eq!(rt; count_on(alloc, &mut disk), Some(64));
    assert_eq!(rt; remove(&mut table, &mut disk, 64), Some(CommitReply::Done));
    assert_eq!(rt;
        add(alloc, &mut table, &mut disk, 64, 1, 64)?,
        Some(CommitReply::Done)
    );
    assert_eq!(rt; count_on(alloc, &mut disk), Some(64));
    Ok(())
}

#[test]
fn the_second_page_of_rows(rt: HostRuntime) -> Result<(), Fail> {
    let alloc = rt.alloc();
    let mut disk = empty(alloc, &TWO_PAGES)?;
    let Some(mut table) = loaded(alloc, &mut disk, &TWO_PAGES) else {
        return Err(Fail::new("no table"));
    };
    for number in 1u8..66 {
        let reply = add(alloc, &mut table, &mut disk, number, 1, u32::from(number))?;
        assert_eq!(rt; reply, Some(CommitReply::Done), "{number}");
    }
    // the second copy counts now, and row 64 is the first on its second page
    assert!(rt; put(&mut disk, 7, 35, &[255]));
    match load(alloc, &mut disk, &TWO_PAGES) {
        Some(Err(LoadFault::Damaged { place })) => {
            assert_eq!(rt; place, Place::Table { page: 7 })
        }
        _ => return Err(Fail::new("no place")),
    }
    Ok(())
}
