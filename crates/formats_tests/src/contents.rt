//! Texts of contents and of packages.

use crate::common::{ONES, TWOS, joined, root_of_byte};
use meta_contents::{
    AddFault, Contents, ContentsFault, PackageNameFault, read_contents, read_package,
    write_contents,
};
use pkg_names::read_file;
use std::alloc::{AllocError, Global};
use std::test::Fail;

#[test]
fn reads(rt: HostRuntime) -> Result<(), Fail> {
    let alloc = rt.alloc();
    let fed = joined(alloc, &[b"data/a=", ONES, b"\na=b=", TWOS, b"\n"])?;
    let unfed = joined(alloc, &[b"data/a=", ONES, b"\na=b=", TWOS])?;
    for text in [fed.as_slice(), unfed.as_slice()] {
        let contents = read_contents(alloc, text)?;
        let lines = contents.lines();
        assert_eq!(rt; lines.len(), 2);
        assert_eq!(rt; lines[0].file.as_slice(), b"data/a".as_slice());
        assert_eq!(rt; lines[1].file.as_slice(), b"a=b".as_slice());
        assert!(rt; lines[0].root == root_of_byte(0x11));
        assert_eq!(rt; lines[1].root.0[0], 0xab);
        let written = write_contents(alloc, &contents)?;
        assert_eq!(rt; written.as_slice(), fed.as_slice());
    }
    let empty = read_contents(alloc, b"")?;
    assert_eq!(rt; empty.lines().len(), 0);
    assert_eq!(rt; write_contents(alloc, &empty)?.as_slice().len(), 0);
    Ok(())
}

#[test]
fn faults(rt: HostRuntime) -> Result<(), Fail> {
    let alloc = rt.alloc();
    let line = |n| ContentsFault::Line { n };
    for ([a, b, c, d], fault) in [
        (
            [b"a=".as_slice(), ONES, b"\na=", TWOS],
            ContentsFault::Repeat { n: 2 },
        ),
        ([b"meta/x=", ONES, b"", b""], ContentsFault::InMeta { n: 1 }),
        ([b"a", b"", b"", b""], line(1)),
        ([b"\n", b"", b"", b""], line(1)),
        ([b"=", ONES, b"", b""], line(1)),
        ([b"a=", b"", b"", b""], line(1)),
        ([b"a=", ONES, b"\n\nb=", TWOS], line(2)),
        ([b"a=", ONES, b"\r\nb=", TWOS], line(1)),
        ([b"a=", ONES, b"\n", b"\n"], line(2)),
        ([b"a=", ONES, b"\n/b=", TWOS], line(2)),
        ([b"a=", ONES, b"\n\xff=", b""], ContentsFault::Utf8),
    ] {
        let text = joined(alloc, &[a, b, c, d])?;
        assert_eq!(rt; read_contents(alloc, &text).err(), Some(fault), "{text:?}");
    }
    Ok(())
}

// This many lines, each with a path of its own.
fn many(alloc: Global, count: u16) -> Result<Vec<u8>, AllocError> {
    let mut out = Vec::new(alloc);
    for k in 0..count {
        let name = format!(in alloc; "{k}=")?;
        out.extend_from_slice(name.as_bytes())?;
        out.extend_from_slice(ONES)?;
        out.push(b'\n')?;
    }
    Ok(out)
}

#[test]
fn limits(rt: HostRuntime) -> Result<(), Fail> {
    let alloc = rt.alloc();
    let more = many(alloc, 4097)?;
    assert_eq!(rt;
        read_contents(alloc, &more).err(),
        Some(ContentsFault::TooMany)
    );
    let mut contents = read_contents(alloc, &many(alloc, 4096)?)?;
    assert_eq!(rt; contents.lines().len(), 4096);
    for (path, fault) in [
        (b"meta/x".as_slice(), AddFault::InMeta),
        (b"17", AddFault::Repeat),
        (b"x", AddFault::TooMany),
    ] {
        let file = read_file(alloc, path)?;
        assert_eq!(rt; contents.add(file, root_of_byte(1)), Err(fault));
    }
    assert_eq!(rt; contents.lines().len(), 4096);
    let mut few = Contents::new(alloc);
    few.add(read_file(alloc, b"b")?, root_of_byte(0x11))?;
    few.add(read_file(alloc, b"a")?, root_of_byte(0x11))?;
    assert_eq!(rt;
        few.add(read_file(alloc, b"b")?, root_of_byte(2)),
        Err(AddFault::Repeat)
    );
    let written = write_contents(alloc, &few)?;
    let text = joined(alloc, &[b"b=", ONES, b"\na=", ONES, b"\n"])?;
    assert_eq!(rt; written.as_slice(), text.as_slice());
    Ok(())
}

#[test]
fn packages(rt: HostRuntime) -> Result<(), Fail> {
    let alloc = rt.alloc();
    for text in [
        b"{\"name\":\"example\",\"version\":\"0\"}".as_slice(),
        b" {\"x\":[1], \"version\" : \"0\", \"name\":\"y\", \"name\":\"example\"}\n",
    ] {
        let package = read_package(alloc, text)?;
        assert_eq!(rt; package.name.as_slice(), b"example".as_slice());
        assert_eq!(rt; package.version.as_slice(), b"0".as_slice());
    }
    for (text, fault) in [
        (b"{}".as_slice(), PackageNameFault::Field),
        (b"{\"name\":\"x\"}", PackageNameFault::Field),
        (b"{\"name\":\"x\",\"version\":0}", PackageNameFault::Field),
        (
            b"{\"name\":null,\"version\":\"0\"}",
            PackageNameFault::Field,
        ),
        (b"x", PackageNameFault::Json),
        (b"", PackageNameFault::Json),
        (b"[]", PackageNameFault::Json),
        (b"\"name\"", PackageNameFault::Json),
        (b"{}{}", PackageNameFault::Json),
        (b"{\"\xff\":1}", PackageNameFault::Json),
    ] {
        assert_eq!(rt; read_package(alloc, text).err(), Some(fault), "{text:?}");
    }
    for (levels, fault) in [(126u8, None), (127, Some(PackageNameFault::Json))] {
        let mut text = b"{\"name\":\"x\",\"version\":\"0\",\"y\":".to_vec(alloc)?;
        for _ in 0..levels {
            text.push(b'[')?;
        }
        for _ in 0..levels {
            text.push(b']')?;
        }
        text.push(b'}')?;
        assert_eq!(rt; read_package(alloc, &text).err(), fault);
    }
    Ok(())
}
