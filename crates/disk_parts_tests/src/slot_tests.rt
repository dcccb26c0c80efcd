use crate::slots::{append, fill, format, load, record, seal, set_record};
use crate::tables::{is_zero_from, put, root};
use abr_record::{Record, Slot};
use disk_model::{Disk, FuseDisk, MemDisk, Pick, restart};
use image_layout::{Geometry, ImageKind, ImageSum, Sys};
use sha2::{Digest, Sha256};
use slot_disk::{Filling, SealEnd, SlotEnd, SlotFault, Slots};
use std::alloc::{AllocError, Global};
use std::test::Fail;

// Slot A begins at page 7, B at page 26 and R at page 45. A slot has a header, 2 pages of zbi and 16 of
// vbmeta.
const GEOMETRY: Geometry = Geometry {
    blobs: 64,
    data_pages: 1024,
    slot_pages: 2,
};

// Lengths of samples, and their SHA-256, which another program computed.
const SAMPLES: [(u32, [u8; 32]); 6] = [
    (
        0,
        [
            0xe3, 0xb0, 0xc4, 0x42, 0x98, 0xfc, 0x1c, 0x14, 0x9a, 0xfb, 0xf4, 0xc8, 0x99, 0x6f,
            0xb9, 0x24, 0x27, 0xae, 0x41, 0xe4, 0x64, 0x9b, 0x93, 0x4c, 0xa4, 0x95, 0x99, 0x1b,
            0x78, 0x52, 0xb8, 0x55,
        ],
    ),
    (
        1,
        [
            0x08, 0x4f, 0xed, 0x08, 0xb9, 0x78, 0xaf, 0x4d, 0x7d, 0x19, 0x6a, 0x74, 0x46, 0xa8,
            0x6b, 0x58, 0x00, 0x9e, 0x63, 0x6b, 0x61, 0x1d, 0xb1, 0x62, 0x11, 0xb6, 0x5a, 0x9a,
            0xad, 0xff, 0x29, 0xc5,
        ],
    ),
    (
        4095,
        [
            0xfd, 0xa2, 0xf7, 0xf5, 0x98, 0x24, 0x79, 0xf1, 0x82, 0x90, 0x5d, 0x15, 0x4d, 0x24,
            0x3e, 0x35, 0x3b, 0x00, 0x7c, 0x61, 0x48, 0x49, 0xa5, 0x20, 0x14, 0x8f, 0x83, 0xfd,
            0x1e, 0xce, 0x4a, 0xbb,
        ],
    ),
    (
        4096,
        [
            0x0d, 0x35, 0x62, 0x60, 0xea, 0xf0, 0x9e, 0x3b, 0x3d, 0xc8, 0x1a, 0x65, 0xb2, 0xad,
            0x23, 0x99, 0xaa, 0x7c, 0x49, 0x21, 0xc0, 0x27, 0x4b, 0xd2, 0xcb, 0xb5, 0x4c, 0x2a,
            0x21, 0xc4, 0x6e, 0x3b,
        ],
    ),
    (
        4097,
        [
            0x9f, 0x8f, 0x38, 0x39, 0x1d, 0xce, 0x2b, 0xc8, 0xd9, 0xa3, 0x15, 0x98, 0x14, 0xeb,
            0xe3, 0x2f, 0x08, 0x2b, 0x9a, 0x7a, 0xf3, 0x1c, 0xf3, 0x42, 0xdc, 0x5f, 0x27, 0x85,
            0xd6, 0xe0, 0x0b, 0xed,
        ],
    ),
    (
        8192,
        [
            0xc4, 0x76, 0xa0, 0x0d, 0x8b, 0x74, 0xe4, 0xd2, 0xfe, 0x35, 0x0d, 0x84, 0x47, 0xe3,
            0x7b, 0xb4, 0xe0, 0xda, 0x1b, 0x30, 0xb0, 0x94, 0x4d, 0xb5, 0xf8, 0x18, 0xb2, 0x3b,
            0x7d, 0xf3, 0xc9, 0x11,
        ],
    ),
];

fn sample(alloc: Global, count: u32) -> Result<Vec<u8>, AllocError> {
    let mut bytes = Vec::new(alloc);
    for i in 0..count {
        bytes.push(((7 * (i % 251) + 3) % 251) as u8)?;
    }
    Ok(bytes)
}

// The sum of the sample of this number.
fn sum(number: usize) -> ImageSum {
    let (len, sha) = if number < 6 {
        SAMPLES[number]
    } else {
        SAMPLES[0]
    };
    ImageSum {
        len: u64::from(len),
        sha,
    }
}

fn system(zbi: ImageSum, vbmeta: ImageSum) -> Sys {
    Sys {
        system: root(9),
        epoch: 3,
        zbi,
        vbmeta,
    }
}

// Fills slot B with two samples, in pieces of this size.
fn filled<D: Disk>(
    alloc: Global,
    slots: &Slots,
    disk: &mut D,
    zbi: u32,
    vbmeta: u32,
    size: usize,
) -> Result<Option<Filling>, AllocError> {
    let Some(mut filling) = fill(slots, Slot::B) else {
        return Ok(None);
    };
    for (image, count) in [(ImageKind::Zbi, zbi), (ImageKind::Vbmeta, vbmeta)] {
        let bytes = sample(alloc, count)?;
        for piece in bytes.chunks(size.max(1)) {
            if append(slots, disk, &mut filling, image, piece) != Some(SlotEnd::Done) {
                return Ok(None);
            }
        }
    }
    Ok(Some(filling))
}

// A disk whose slot A is sealed with two samples of 1 and 0 bytes, and boots.
fn plain(alloc: Global) -> Result<Option<(MemDisk, Slots)>, AllocError> {
    let mut disk = MemDisk::make(alloc, 1104, Vec::new(alloc))?;
    let none = Record {
        a: record(0).b,
        b: record(0).b,
        one_shot: 0,
    };
    let Some(mut slots) = format(&mut disk, &GEOMETRY, &none, b"", b"") else {
        return Ok(None);
    };
    let Some(mut filling) = fill(&slots, Slot::A) else {
        return Ok(None);
    };
    let bytes = sample(alloc, 1)?;
    let end = append(&slots, &mut disk, &mut filling, ImageKind::Zbi, &bytes);
    if end != Some(SlotEnd::Done) {
        return Ok(None);
    }
    let sys = system(sum(1), sum(0));
    if seal(&mut slots, &mut disk, &mut filling, &sys) != Some(SealEnd::Sealed) {
        return Ok(None);
    }
    if set_record(&mut slots, &mut disk, &record(0)) != Some(SlotEnd::Done) {
        return Ok(None);
    }
    Ok(Some((disk, slots)))
}

// What loading gives: the record and the system of B, or the fault.
fn loaded(disk: &mut MemDisk) -> Option<Result<(Record, Option<Sys>), SlotFault>> {
    match load(disk, &GEOMETRY) {
        Some(Ok(slots)) => Some(Ok((slots.boot_record(), slots.sys(Slot::B)))),
        Some(Err(fault)) => Some(Err(fault)),
        None => None,
    }
}

#[test]
fn images_in_pieces(rt: HostRuntime) -> Result<(), Fail> {
    let alloc = rt.alloc();
    for (number, zbi) in [(0, 0), (1, 1), (2, 4095), (3, 4096), (4, 4097), (5, 8192)] {
        for size in [1, 4095, 65_536] {
            let Some((mut disk, mut slots)) = plain(alloc)? else {
                return Err(Fail::new("no slots"));
            };
            let Some(mut filling) = filled(alloc, &slots, &mut disk, zbi, 4097, size)? else {
                return Err(Fail::new("not filled"));
            };
            assert_eq!(rt; filling.have(ImageKind::Zbi), u64::from(zbi));
            let sys = system(sum(number), sum(4));
            let end = seal(&mut slots, &mut disk, &mut filling, &sys);
            assert_eq!(rt; end, Some(SealEnd::Sealed), "{zbi} in pieces of {size}");
            assert_eq!(rt; slots.sys(Slot::B), Some(sys));
            // behind the header, and behind the second page of the vbmeta
            assert!(rt; is_zero_from(&mut disk, 26, 156));
            assert!(rt; is_zero_from(&mut disk, 30, 1));
            assert_eq!(rt;
                set_record(&mut slots, &mut disk, &record(7)),
                Some(SlotEnd::Done)
            );
            assert_eq!(rt; loaded(&mut disk), Some(Ok((record(7), Some(sys)))));
        }
    }
    Ok(())
}

#[test]
fn images_that_differ(rt: HostRuntime) -> Result<(), Fail> {
    let alloc = rt.alloc();
    let Some((mut disk, mut slots)) = plain(alloc)? else {
        return Err(Fail::new("no slots"));
    };
    let Some(mut filling) = filled(alloc, &slots, &mut disk, 1, 0, 1)? else {
        return Err(Fail::new("not filled"));
    };
    let acts = disk.acts();
    let one = system(sum(1), sum(0));
    let sha = sum(2).sha;
    let other = ImageSum { len: 1, sha };
    // the zbi and the vbmeta of a system, and the image that differs from it
    for (zbi, vbmeta, image, got) in [
        (sum(2), sum(1), ImageKind::Zbi, one.zbi),
        (other, sum(0), ImageKind::Zbi, one.zbi),
        (sum(1), sum(1), ImageKind::Vbmeta, one.vbmeta),
    ] {
        let end = seal(&mut slots, &mut disk, &mut filling, &system(zbi, vbmeta));
        assert_eq!(rt; end, Some(SealEnd::Differs { image, got }));
    }
    assert_eq!(rt; disk.acts(), acts);
    Ok(())
}

#[test]
fn power_loss_in_a_seal(rt: HostRuntime) -> Result<(), Fail> {
    let alloc = rt.alloc();
    let sys = system(sum(1), sum(0));
    // the writes and syncs that pass, of the page, the header and the sync
    for left in 0..4 {
        let Some((disk, mut slots)) = plain(alloc)? else {
            return Err(Fail::new("no slots"));
        };
        let acts = disk.acts();
        let mut fuse = FuseDisk::make(disk, left);
        if let Some(mut filling) = filled(alloc, &slots, &mut fuse, 1, 0, 1)? {
            let end = seal(&mut slots, &mut fuse, &mut filling, &sys);
            assert_eq!(rt; end == Some(SealEnd::Sealed), left == 3, "{left}");
        }
        let inner = fuse.inner();
        let page = Pick {
            page: 27,
            act: acts,
        };
        let header = Pick {
            page: 26,
            act: acts + 1,
        };
        for picks in [&[] as &[Pick], &[page], &[header], &[page, header]] {
            // a pick of a write that was synced, or wasn't made, is refused
            if let Ok(mut after) = restart(alloc, &inner, picks) {
                assert_eq!(rt; loaded(&mut after), Some(Ok((record(0), None))), "{left}");
            }
        }
    }
    Ok(())
}

#[test]
fn power_loss_in_a_change(rt: HostRuntime) -> Result<(), Fail> {
    let alloc = rt.alloc();
    let sys = system(sum(1), sum(0));
    // the writes and syncs that pass, the answer, and the records without and with what was written
    for (left, end, without, with) in [
        (0, SlotEnd::Broke, record(0), record(7)),
        (1, SlotEnd::Broke, record(0), record(7)),
        (2, SlotEnd::Done, record(7), record(7)),
    ] {
        let Some((mut disk, mut slots)) = plain(alloc)? else {
            return Err(Fail::new("no slots"));
        };
        let Some(mut filling) = filled(alloc, &slots, &mut disk, 1, 0, 1)? else {
            return Err(Fail::new("not filled"));
        };
        assert_eq!(rt;
            seal(&mut slots, &mut disk, &mut filling, &sys),
            Some(SealEnd::Sealed)
        );
        let act = disk.acts();
        let mut fuse = FuseDisk::make(disk, left);
        assert_eq!(rt;
            set_record(&mut slots, &mut fuse, &record(7)),
            Some(end),
            "{left}"
        );
        assert_eq!(rt; slots.is_broken(), end == SlotEnd::Broke);
        let inner = fuse.inner();
        let mut plain = restart(alloc, &inner, &[])?;
        let known = |boot: Record| if boot == record(7) { Some(sys) } else { None };
        assert_eq!(rt;
            loaded(&mut plain),
            Some(Ok((without, known(without)))),
            "{left}"
        );
        if let Ok(mut picked) = restart(alloc, &inner, &[Pick { page: 1, act }]) {
            assert_eq!(rt;
                loaded(&mut picked),
                Some(Ok((with, known(with)))),
                "{left}"
            );
        }
    }
    Ok(())
}

#[test]
fn wrong_slots(rt: HostRuntime) -> Result<(), Fail> {
    let alloc = rt.alloc();
    let a = SlotFault::Damaged { slot: Slot::A };
    let b = SlotFault::Damaged { slot: Slot::B };
    let r = SlotFault::Damaged { slot: Slot::R };
    // a page, a place on it and bytes that are written there, and what loading then gives
    for (page, at, bytes, fault) in [
        (45, 0, b"TOLS" as &[u8], Some(r)),
        (45, 4, &[1], Some(r)),
        (45, 155, &[0], Some(r)),
        (7, 12, &[0], Some(a)),
        (7, 44, &[2], Some(a)),
        (7, 52, &[0], Some(a)),
        (8, 0, &[0], Some(a)),
        (8, 1, &[1], None),
        (26, 0, b"SLOT", None),
        // a record that can't be read is the initial one, by which B may be booted
        (1, 12, &[14, 7], Some(b)),
        (1, 4, &[3], Some(b)),
    ] {
        let Some((mut disk, _)) = plain(alloc)? else {
            return Err(Fail::new("no slots"));
        };
        assert!(rt; put(&mut disk, page, at, bytes));
        match loaded(&mut disk) {
            Some(Ok((boot, _))) => {
                assert_eq!(rt; fault, None, "{page} {at}");
                assert_eq!(rt; boot, record(0));
            }
            Some(Err(found)) => assert_eq!(rt; Some(found), fault, "{page} {at}"),
            None => assert!(rt; false),
        }
    }
    Ok(())
}

// A header of A for images of these lengths, with its digest.
fn header_of(zbi: u64, vbmeta: u64) -> [u8; 156] {
    let mut bytes = [0u8; 156];
    bytes[..4].copy_from_slice(b"SLOT");
    bytes[44..52].copy_from_slice(&zbi.to_le_bytes());
    bytes[84..92].copy_from_slice(&vbmeta.to_le_bytes());
    let digest = Sha256::digest(&bytes[..124]);
    bytes[124..].copy_from_slice(&digest);
    bytes
}

// The digest is right, and one image is a byte longer than its area.
#[test]
fn headers_of_long_images(rt: HostRuntime) -> Result<(), Fail> {
    for (zbi, vbmeta) in [(8193, 0), (0, 65_537)] {
        let Some((mut disk, _)) = plain(rt.alloc())? else {
            return Err(Fail::new("no slots"));
        };
        assert!(rt; put(&mut disk, 7, 0, &header_of(zbi, vbmeta)));
        let Some(Err(found)) = loaded(&mut disk) else {
            return Err(Fail::new("loaded"));
        };
        assert_eq!(rt; found, SlotFault::Damaged { slot: Slot::A }, "{zbi}");
    }
    Ok(())
}
