use crate::{CachedFault, PinnedList, StaticFault, read_cached, read_static};
use pkg_names::{write_path, write_root};
use std::alloc::{AllocError, Global};
use std::test::Fail;

const ONES: &[u8; 64] = b"1111111111111111111111111111111111111111111111111111111111111111";

// The text of a list, a line a package.
fn text_of(alloc: Global, list: &PinnedList) -> Result<Vec<u8>, AllocError> {
    let mut out = Vec::new(alloc);
    for item in list.as_slice() {
        let mut digits = [0u8; 64];
        write_root(&item.root, &mut digits);
        out.extend_from_slice(write_path(alloc, &item.path)?.as_slice())?;
        out.push(b'=')?;
        out.extend_from_slice(&digits)?;
        out.push(b'\n')?;
    }
    Ok(out)
}

#[test]
fn static_lists(rt: HostRuntime) -> Result<(), Fail> {
    for text in [
        b"".as_slice(),
        b"a/0=1111111111111111111111111111111111111111111111111111111111111111\n",
        b"a/0=1111111111111111111111111111111111111111111111111111111111111111\n\
          b.c/1=abcdef0123456789abcdef0123456789abcdef0123456789abcdef0123456789\n",
        b"a/1=1111111111111111111111111111111111111111111111111111111111111111\n\
          a/0=1111111111111111111111111111111111111111111111111111111111111111\n",
    ] {
        let list = read_static(rt.alloc(), text)?;
        assert_eq!(rt; text_of(rt.alloc(), &list)?.as_slice(), text);
    }
    let list = read_static(
        rt.alloc(),
        b"a/0=1111111111111111111111111111111111111111111111111111111111111111",
    )?;
    assert_eq!(rt; text_of(rt.alloc(), &list)?.len(), 69);
    Ok(())
}

#[test]
fn static_faults(rt: HostRuntime) -> Result<(), Fail> {
    for (text, fault) in [
        (b"x".as_slice(), StaticFault::Line { n: 1 }),
        (b"\n", StaticFault::Line { n: 1 }),
        (
            b"a=1111111111111111111111111111111111111111111111111111111111111111",
            StaticFault::Line { n: 1 },
        ),
        (
            b"a/0=1111111111111111111111111111111111111111111111111111111111111111\n\n",
            StaticFault::Line { n: 2 },
        ),
        (
            b"a/0=1111111111111111111111111111111111111111111111111111111111111111\r\n",
            StaticFault::Line { n: 1 },
        ),
        (
            b"a/0 =1111111111111111111111111111111111111111111111111111111111111111",
            StaticFault::Line { n: 1 },
        ),
        (
            b"a/0/1=1111111111111111111111111111111111111111111111111111111111111111",
            StaticFault::Line { n: 1 },
        ),
        (
            b"a/0==1111111111111111111111111111111111111111111111111111111111111111",
            StaticFault::Line { n: 1 },
        ),
        (
            b"a/0=111111111111111111111111111111111111111111111111111111111111111",
            StaticFault::Line { n: 1 },
        ),
        (
            b"a/0=abcdef0123456789abcdef0123456789abcdef0123456789abcdef012345678A",
            StaticFault::Line { n: 1 },
        ),
        (
            b"a/0=1111111111111111111111111111111111111111111111111111111111111111\n\
              a/0=1111111111111111111111111111111111111111111111111111111111111111\n",
            StaticFault::Repeat { n: 2 },
        ),
        (
            b"a/0=1111111111111111111111111111111111111111111111111111111111111111\n\
              a/0=abcdef0123456789abcdef0123456789abcdef0123456789abcdef0123456789\nx",
            StaticFault::Repeat { n: 2 },
        ),
        (
            b"a/0=1111111111111111111111111111111111111111111111111111111111111111\n\
              x\na/0=abcdef0123456789abcdef0123456789abcdef0123456789abcdef0123456789",
            StaticFault::Line { n: 2 },
        ),
    ] {
        let found = read_static(rt.alloc(), text).err();
        assert_eq!(rt; found, Some(fault), "{text:?}");
    }
    Ok(())
}

#[test]
fn cached_lists(rt: HostRuntime) -> Result<(), Fail> {
    for (text, wanted) in [
        (
            b"{\"version\":\"1\",\"content\":[]}".as_slice(),
            b"".as_slice(),
        ),
        (b"{\"content\":[],\"x\":[{}],\"version\":1}", b""),
        (
            b"{\"version\":\"1\",\"content\":[\
              \"fuchsia-pkg://h/a?hash=1111111111111111111111111111111111111111111111111111111111111111\",\
              \"fuchsia-pkg://h/a/1?hash=abcdef0123456789abcdef0123456789abcdef0123456789abcdef0123456789\"]}",
            b"a/0=1111111111111111111111111111111111111111111111111111111111111111\n\
              a/1=abcdef0123456789abcdef0123456789abcdef0123456789abcdef0123456789\n",
        ),
        // Of two members with one name the last counts.
        (
            b"{\"version\":\"2\",\"version\":1,\"content\":7,\"content\":[\
              \"fuchsia-pkg://h/a?hash=1111111111111111111111111111111111111111111111111111111111111111\"]}",
            b"a/0=1111111111111111111111111111111111111111111111111111111111111111\n",
        ),
    ] {
        let list = read_cached(rt.alloc(), text)?;
        assert_eq!(rt; text_of(rt.alloc(), &list)?.as_slice(), wanted);
    }
    Ok(())
}

#[test]
fn cached_faults(rt: HostRuntime) -> Result<(), Fail> {
    for (text, fault) in [
        (b"".as_slice(), CachedFault::Json),
        (b"{", CachedFault::Json),
        (b"\xff", CachedFault::Json),
        (b"[]", CachedFault::Json),
        (b"\"1\"", CachedFault::Json),
        (b"{}", CachedFault::Version),
        (b"{\"version\":\"2\",\"content\":[]}", CachedFault::Version),
        (b"{\"version\":2,\"content\":7}", CachedFault::Version),
        (b"{\"version\":1.0,\"content\":[]}", CachedFault::Version),
        (b"{\"version\":1e0,\"content\":[]}", CachedFault::Version),
        (b"{\"version\":-1,\"content\":[]}", CachedFault::Version),
        (b"{\"version\":\"01\",\"content\":[]}", CachedFault::Version),
        (b"{\"version\":null,\"content\":[]}", CachedFault::Version),
        (
            b"{\"version\":1,\"version\":2,\"content\":[]}",
            CachedFault::Version,
        ),
        (b"{\"version\":\"1\"}", CachedFault::Json),
        (b"{\"version\":\"1\",\"content\":{}}", CachedFault::Json),
        (
            b"{\"version\":\"1\",\"content\":[],\"content\":7}",
            CachedFault::Json,
        ),
        (
            b"{\"version\":\"1\",\"content\":[7]}",
            CachedFault::Entry { n: 1 },
        ),
        (
            b"{\"version\":\"1\",\"content\":[\"x\"]}",
            CachedFault::Entry { n: 1 },
        ),
        (
            b"{\"version\":\"1\",\"content\":[\"fuchsia-pkg://h/a\"]}",
            CachedFault::Entry { n: 1 },
        ),
        (
            b"{\"version\":\"1\",\"content\":[\"fuchsia-pkg://h/a?hash=\
              1111111111111111111111111111111111111111111111111111111111111111#b\"]}",
            CachedFault::Entry { n: 1 },
        ),
        (
            b"{\"version\":\"1\",\"content\":[\"fuchsia-pkg://h/a?hash=\
              1111111111111111111111111111111111111111111111111111111111111111\",\
              \"fuchsia-pkg://i/a/0?hash=abcdef0123456789abcdef0123456789abcdef0123456789abcdef0123456789\"]}",
            CachedFault::Entry { n: 2 },
        ),
    ] {
        let found = read_cached(rt.alloc(), text).err();
        assert_eq!(rt; found, Some(fault), "{text:?}");
    }
    Ok(())
}

// A name for a number below 4096 and some more, in three letters.
fn put_name(out: &mut Vec<u8>, n: u32) -> Result<(), AllocError> {
    for place in [256u32, 16, 1] {
        out.push(b'a' + (n / place % 16) as u8)?;
    }
    if n >= 4096 {
        out.push(b'x')?;
    }
    Ok(())
}

fn static_text(alloc: Global, lines: u32) -> Result<Vec<u8>, AllocError> {
    let mut out = Vec::new(alloc);
    for n in 0..lines {
        put_name(&mut out, n)?;
        out.extend_from_slice(b"/0=")?;
        out.extend_from_slice(ONES)?;
        out.push(b'\n')?;
    }
    Ok(out)
}

fn cached_text(alloc: Global, entries: u32) -> Result<Vec<u8>, AllocError> {
    let mut out = b"{\"version\":\"1\",\"content\":[".to_vec(alloc)?;
    for n in 0..entries {
        if n > 0 {
            out.push(b',')?;
        }
        out.extend_from_slice(b"\"fuchsia-pkg://h/")?;
        put_name(&mut out, n)?;
        out.extend_from_slice(b"?hash=")?;
        out.extend_from_slice(ONES)?;
        out.push(b'"')?;
    }
    out.extend_from_slice(b"]}")?;
    Ok(out)
}

#[test]
fn most_entries(rt: HostRuntime) -> Result<(), Fail> {
    let alloc = rt.alloc();
    assert_eq!(rt;
        read_static(alloc, &static_text(alloc, 4096)?)?
            .as_slice()
            .len(),
        4096
    );
    assert_eq!(rt;
        read_cached(alloc, &cached_text(alloc, 4096)?)?
            .as_slice()
            .len(),
        4096
    );
    let long = read_static(alloc, &static_text(alloc, 4097)?).err();
    assert_eq!(rt; long, Some(StaticFault::Line { n: 4097 }));
    let long = read_cached(alloc, &cached_text(alloc, 4097)?).err();
    assert_eq!(rt; long, Some(CachedFault::Entry { n: 4097 }));
    Ok(())
}

// An object with an array of arrays, so many levels in all.
fn nested(alloc: Global, levels: u32) -> Result<Vec<u8>, AllocError> {
    let mut out = b"{\"version\":1,\"content\":[],\"x\":".to_vec(alloc)?;
    for _ in 1..levels {
        out.push(b'[')?;
    }
    for _ in 1..levels {
        out.push(b']')?;
    }
    out.push(b'}')?;
    Ok(out)
}

#[test]
fn levels(rt: HostRuntime) -> Result<(), Fail> {
    let alloc = rt.alloc();
    assert_eq!(rt;
        read_cached(alloc, &nested(alloc, 127)?)?.as_slice().len(),
        0
    );
    let deep = read_cached(alloc, &nested(alloc, 128)?).err();
    assert_eq!(rt; deep, Some(CachedFault::Json));
    Ok(())
}
