use crate::set_up::bytes_of;
use pkg_names::{
    FileFault, Items, PathFault, Root, RootFault, Roots, Texts, is_file, read_file, read_path,
    read_root, write_path, write_root,
};
use std::test::Fail;

const DIGITS: &[u8; 64] = b"15ec7bf0b50732b49f8228e07d24365338f9e3ab994b00af08e5a3bffe55fd8b";

#[test]
fn roots(rt: HostRuntime) -> Result<(), Fail> {
    let root = read_root(DIGITS)?;
    assert_eq!(rt; root.0[0], 0x15);
    assert_eq!(rt; root.0[31], 0x8b);
    let mut out = [0u8; 64];
    write_root(&root, &mut out);
    assert_eq!(rt; out.as_slice(), DIGITS.as_slice());
    let mut upper = *DIGITS;
    upper[3] = b'C';
    assert_eq!(rt; read_root(&upper), Err(RootFault::BadRoot));
    assert_eq!(rt; read_root(&DIGITS[..63]), Err(RootFault::BadRoot));
    assert_eq!(rt; read_root(b""), Err(RootFault::BadRoot));
    Ok(())
}

#[test]
fn paths(rt: HostRuntime) -> Result<(), Fail> {
    let long = [b'a'; 255];
    for (text, name, variant) in [
        (
            b"example".as_slice(),
            b"example".as_slice(),
            b"0".as_slice(),
        ),
        (b"a-b_c.9/1", b"a-b_c.9", b"1"),
        (&long, &long, b"0"),
    ] {
        let path = read_path(rt.alloc(), text)?;
        assert_eq!(rt; path.name(), name);
        assert_eq!(rt; path.variant(), variant);
        let copy = path.try_copy(rt.alloc())?;
        assert!(rt; copy == path);
    }
    let written = write_path(rt.alloc(), &read_path(rt.alloc(), b"example")?)?;
    assert_eq!(rt; written.as_slice(), b"example/0".as_slice());
    let longer = [b'a'; 256];
    for text in [
        b"..".as_slice(),
        b".",
        b"",
        b"a/",
        b"/a",
        b"a/b/c",
        b"a/..",
        b"A",
        b"a b",
        &longer,
    ] {
        let bad = matches!(read_path(rt.alloc(), text), Err(PathFault::BadName));
        assert!(rt; bad, "{text:?}");
    }
    Ok(())
}

#[test]
fn lists(rt: HostRuntime) -> Result<(), Fail> {
    let bytes = bytes_of(rt.alloc(), b"hi")?;
    assert_eq!(rt; bytes.as_slice(), b"hi".as_slice());
    assert!(rt; bytes.try_copy(rt.alloc())? == bytes);
    assert!(rt; bytes != bytes_of(rt.alloc(), b"ho")?);
    assert_eq!(rt; bytes.into_vec().as_slice(), b"hi".as_slice());
    let roots = Roots::make(vec![in rt.alloc(); Root([7; 32]), Root([8; 32])]?);
    assert_eq!(rt; roots.as_slice().len(), 2);
    assert!(rt; roots.try_copy(rt.alloc())? == roots);
    assert_eq!(rt; roots.into_vec()[1], Root([8; 32]));
    let words = Items::make(vec![in rt.alloc(); bytes_of(rt.alloc(), b"a")?]?);
    assert_eq!(rt; words.as_slice()[0].as_slice(), b"a".as_slice());
    let text = Texts::make(String::from_str(rt.alloc(), "zbi")?);
    assert_eq!(rt; text.as_slice(), b"zbi".as_slice());
    Ok(())
}

#[test]
fn files(rt: HostRuntime) -> Result<(), Fail> {
    let segment = [b'a'; 255];
    let mut longest = Vec::new(rt.alloc());
    let mut longer = b"a/".to_vec(rt.alloc())?;
    for _ in 0..15u8 {
        longest.extend_from_slice(&segment)?;
        longest.push(b'/')?;
        longer.extend_from_slice(&segment)?;
        longer.push(b'/')?;
    }
    longest.extend_from_slice(&segment)?;
    longer.extend_from_slice(&[b'a'; 254])?;
    assert_eq!(rt; longest.len(), 4095);
    assert_eq!(rt; longer.len(), 4096);
    for text in [
        b"meta/contents".as_slice(),
        b"a",
        b"a b/...=",
        b"\xc3\xa9/\r",
        &segment,
        &longest,
    ] {
        let file = read_file(rt.alloc(), text)?;
        assert!(rt; is_file(text));
        assert_eq!(rt; file.as_slice(), text);
        let copy = file.try_copy(rt.alloc())?;
        assert!(rt; copy == file);
    }
    let wide = [b'a'; 256];
    for text in [
        b"".as_slice(),
        b"/",
        b"/a",
        b"a/",
        b"a//b",
        b".",
        b"..",
        b"a/./b",
        b"a/..",
        b"a\0",
        b"a\nb",
        b"\xc3",
        b"a/\xff",
        &wide,
        &longer,
    ] {
        let bad = matches!(read_file(rt.alloc(), text), Err(FileFault::BadFile));
        assert!(rt; bad && !is_file(text), "{text:?}");
    }
    Ok(())
}
