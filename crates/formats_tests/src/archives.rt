//! Archives: two against the bytes of another program, and one fault at a time.

use crate::common::{NO_FILES, ONES, TWOS, entries_of, joined};
use far_archive::{FarFault, WriteFault, read_far, write_far};
use std::alloc::{AllocError, Global};
use std::test::Fail;

// One file `a` with the byte `x`.
const ONE: [u8; 104] = [
    200, 191, 11, 72, 173, 171, 197, 17, 48, 0, 0, 0, 0, 0, 0, 0, 68, 73, 82, 45, 45, 45, 45, 45,
    64, 0, 0, 0, 0, 0, 0, 0, 32, 0, 0, 0, 0, 0, 0, 0, 68, 73, 82, 78, 65, 77, 69, 83, 96, 0, 0, 0,
    0, 0, 0, 0, 8, 0, 0, 0, 0, 0, 0, 0, 0, 0, 0, 0, 1, 0, 0, 0, 0, 16, 0, 0, 0, 0, 0, 0, 1, 0, 0,
    0, 0, 0, 0, 0, 0, 0, 0, 0, 0, 0, 0, 0, 97, 0, 0, 0, 0, 0, 0, 0,
];

// The directory and the names of `meta/contents`, 144 bytes, and `meta/package`, 32 bytes.
const TWO: [u8; 160] = [
    200, 191, 11, 72, 173, 171, 197, 17, 48, 0, 0, 0, 0, 0, 0, 0, 68, 73, 82, 45, 45, 45, 45, 45,
    64, 0, 0, 0, 0, 0, 0, 0, 64, 0, 0, 0, 0, 0, 0, 0, 68, 73, 82, 78, 65, 77, 69, 83, 128, 0, 0, 0,
    0, 0, 0, 0, 32, 0, 0, 0, 0, 0, 0, 0, 0, 0, 0, 0, 13, 0, 0, 0, 0, 16, 0, 0, 0, 0, 0, 0, 144, 0,
    0, 0, 0, 0, 0, 0, 0, 0, 0, 0, 0, 0, 0, 0, 13, 0, 0, 0, 12, 0, 0, 0, 0, 32, 0, 0, 0, 0, 0, 0,
    32, 0, 0, 0, 0, 0, 0, 0, 0, 0, 0, 0, 0, 0, 0, 0, 109, 101, 116, 97, 47, 99, 111, 110, 116, 101,
    110, 116, 115, 109, 101, 116, 97, 47, 112, 97, 99, 107, 97, 103, 101, 0, 0, 0, 0, 0, 0, 0,
];

// The directory and the names of `a` with `xyz` and `b` with `hi`.
const PAIR: [u8; 136] = [
    200, 191, 11, 72, 173, 171, 197, 17, 48, 0, 0, 0, 0, 0, 0, 0, 68, 73, 82, 45, 45, 45, 45, 45,
    64, 0, 0, 0, 0, 0, 0, 0, 64, 0, 0, 0, 0, 0, 0, 0, 68, 73, 82, 78, 65, 77, 69, 83, 128, 0, 0, 0,
    0, 0, 0, 0, 8, 0, 0, 0, 0, 0, 0, 0, 0, 0, 0, 0, 1, 0, 0, 0, 0, 16, 0, 0, 0, 0, 0, 0, 3, 0, 0,
    0, 0, 0, 0, 0, 0, 0, 0, 0, 0, 0, 0, 0, 1, 0, 0, 0, 1, 0, 0, 0, 0, 32, 0, 0, 0, 0, 0, 0, 2, 0,
    0, 0, 0, 0, 0, 0, 0, 0, 0, 0, 0, 0, 0, 0, 97, 98, 0, 0, 0, 0, 0, 0,
];

// The front, with this many bytes in all, and other bytes from a place on.
fn text(
    alloc: Global,
    front: &[u8],
    len: usize,
    at: usize,
    patch: &[u8],
) -> Result<Vec<u8>, AllocError> {
    let mut out = Vec::new(alloc);
    for i in 0..len {
        let byte = front.get(i).copied().unwrap_or(0);
        out.push(byte)?;
    }
    for (k, byte) in patch.iter().enumerate() {
        if let Some(place) = at.checked_add(k)
            && place < out.len()
        {
            out[place] = *byte;
        }
    }
    Ok(out)
}

// What is wrong, if the bytes come back.
fn fault_of(bytes: Vec<u8>) -> Option<FarFault> {
    let len = bytes.len();
    if len >= 100_000 {
        return None;
    }
    let Err(refusal) = read_far(bytes) else {
        return None;
    };
    if refusal.bytes.len() == len {
        Some(refusal.fault)
    } else {
        None
    }
}

const FAR: [u8; 8] = [0, 0xf0, 0xff, 0xff, 0xff, 0xff, 0xff, 0xff];

#[test]
fn faults(rt: HostRuntime) -> Result<(), Fail> {
    let name = |entry| FarFault::Name { entry };
    let range = |entry| FarFault::Range { entry };
    for (at, patch, fault) in [
        (0, b"\xc9".as_slice(), FarFault::Magic),
        (8, &[24], FarFault::Index),
        (16, b"d", FarFault::Index),
        (47, b"-", FarFault::Index),
        (24, &[56], FarFault::Index),
        (24, &[68], FarFault::Index),
        (48, &[120], FarFault::Index),
        (56, &[9], FarFault::Index),
        (56, &[0, 0, 0, 0, 0, 1, 0, 0], FarFault::Index),
        (56, &FAR, FarFault::Index),
        (32, &FAR, FarFault::Index),
        (32, &[40], FarFault::Directory),
        (96, &[0xff, 0xff, 0xff, 0xff], name(1)),
        (70, &[1], name(0)),
        (128, b"/", name(0)),
        (128, b".", name(0)),
        (68, &[0], name(0)),
        (100, &[8], name(1)),
        (128, b"ba", name(1)),
        (128, b"aa", name(1)),
        (88, &[1], range(0)),
        (72, &[1], range(0)),
        (72, &[0, 0], range(0)),
        (72, &FAR, range(0)),
        (104, &[0, 0x10], range(1)),
        (80, &[0x88, 0x13], range(1)),
        (112, &[1, 0x10], range(1)),
        (119, &[0xff], range(1)),
    ] {
        let bytes = text(rt.alloc(), &PAIR, 12288, at, patch)?;
        assert_eq!(rt; fault_of(bytes), Some(fault), "at {at}");
    }
    let wrapping = [
        0, 0xf0, 0xff, 0xff, 0xff, 0xff, 0xff, 0xff, 0, 0x20, 0, 0, 0, 0, 0, 0,
    ];
    let bytes = text(rt.alloc(), &PAIR, 12288, 72, &wrapping)?;
    assert_eq!(rt; fault_of(bytes), Some(range(0)));
    // The same, and a name far away, where there is one file.
    for (at, patch, fault) in [
        (64, [0xff, 0xff, 0xff, 0xff].as_slice(), name(0)),
        (72, wrapping.as_slice(), range(0)),
    ] {
        let bytes = text(rt.alloc(), &ONE, 8192, at, patch)?;
        assert_eq!(rt; fault_of(bytes), Some(fault), "of one file, at {at}");
    }
    let both = [1, 0, 0, 0x10, 0, 0, 0, 0, 0, 0, 3, 0, 0, 0, 0, 0, 0, 0, 1];
    let bytes = text(rt.alloc(), &PAIR, 12288, 70, &both)?;
    assert_eq!(rt; fault_of(bytes), Some(name(0)));
    Ok(())
}

#[test]
fn lengths(rt: HostRuntime) -> Result<(), Fail> {
    for (len, fault) in [
        (0, Some(FarFault::Magic)),
        (7, Some(FarFault::Magic)),
        (8, Some(FarFault::Index)),
        (63, Some(FarFault::Index)),
        (100, Some(FarFault::Index)),
        (135, Some(FarFault::Index)),
        (136, Some(FarFault::Range { entry: 0 })),
        (8193, Some(FarFault::Range { entry: 1 })),
        (8194, None),
        (20000, None),
    ] {
        let bytes = text(rt.alloc(), &PAIR, len, 0, &[])?;
        assert_eq!(rt; fault_of(bytes), fault, "{len}");
    }
    // No entries; and a file without bytes, a page before the next one.
    for (len, at) in [(4096, 32), (12288, 80)] {
        let bytes = text(rt.alloc(), &PAIR, len, at, &[0])?;
        assert_eq!(rt; fault_of(bytes), None, "at {at}");
    }
    let bare = text(rt.alloc(), &NO_FILES, 64, 0, &[])?;
    assert!(rt; reads_back(Ok(bare), &NO_FILES, 64, &[]));
    Ok(())
}

// What the writer makes of these files.
fn write(alloc: Global, files: &[(&[u8], &[u8])]) -> Result<Result<Vec<u8>, WriteFault>, Fail> {
    let entries = entries_of(alloc, files)?;
    if entries.len() > 100 {
        return Ok(Err(WriteFault::NoMemory));
    }
    Ok(write_far(alloc, &entries))
}

// Whether these bytes begin so, have this length, and read back with these files.
fn reads_back(
    written: Result<Vec<u8>, WriteFault>,
    front: &[u8],
    len: usize,
    files: &[(&[u8], &[u8])],
) -> bool {
    let Ok(bytes) = written else {
        return false;
    };
    if bytes.len() != len || len >= 100_000 || !bytes.as_slice().starts_with(front) {
        return false;
    }
    let Ok(archive) = read_far(bytes) else {
        return false;
    };
    if archive.count() as usize != files.len() {
        return false;
    }
    for (k, (name, file)) in files.iter().enumerate() {
        let k = k as u32;
        if k >= archive.count()
            || archive.name_at(k) != *name
            || archive.find(name) != Some(*file)
        {
            return false;
        }
    }
    archive.find(b"0").is_none()
        && archive.find(b"meta/d").is_none()
        && archive.find(b"z").is_none()
}

// A file without bytes has the place of the next one, and the last one has no page.
#[test]
fn writes(rt: HostRuntime) -> Result<(), Fail> {
    let alloc = rt.alloc();
    let contents = joined(alloc, &[b"data/a=", ONES, b"\ndata/b=", TWOS, b"\n"])?;
    let package = b"{\"name\":\"example\",\"version\":\"0\"}".as_slice();
    for (files, front, len) in [
        (
            [(b"a".as_slice(), b"x".as_slice())].as_slice(),
            ONE.as_slice(),
            8192,
        ),
        (
            &[(b"meta/contents", &contents), (b"meta/package", package)],
            &TWO,
            12288,
        ),
        (&[], &ONE[..32], 4096),
        (&[(b"a", b""), (b"b", b"xy"), (b"c", b"")], &ONE[..24], 8192),
    ] {
        let written = write(alloc, files)?;
        assert!(rt; reads_back(written, front, len, files), "{len} bytes");
    }
    Ok(())
}

#[test]
fn orders(rt: HostRuntime) -> Result<(), Fail> {
    for (names, entry) in [([b"a", b"c", b"b"], 2), ([b"a", b"a", b"b"], 1)] {
        let [first, second, third] = names;
        let files = [
            (first.as_slice(), b"".as_slice()),
            (second, b""),
            (third, b""),
        ];
        let written = write(rt.alloc(), &files)?;
        assert_eq!(rt; written.err(), Some(WriteFault::Order { entry }));
    }
    Ok(())
}
