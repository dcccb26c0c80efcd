use pkg_names::numbers::{u16_at, u32_at, u64_at};
use pkg_names::text::{cut_at, first_place, last_place, next_line};
use std::alloc::{AllocError, Global};
use std::test::Fail;

#[test]
fn places(rt: HostRuntime) {
    let text = b"a/b/c".as_slice();
    assert_eq!(rt; first_place(text, b'/'), Some(1));
    assert_eq!(rt; last_place(text, b'/'), Some(3));
    assert_eq!(rt;
        cut_at(text, b'/'),
        Some((b"a".as_slice(), b"b/c".as_slice()))
    );
    assert_eq!(rt; first_place(text, b'='), None);
    assert_eq!(rt; last_place(text, b'='), None);
    assert!(rt; cut_at(text, b'=').is_none());
}

// Each line with a bar behind it.
fn barred(alloc: Global, text: &[u8]) -> Result<Vec<u8>, AllocError> {
    let mut out = Vec::new(alloc);
    let mut rest = text;
    while !rest.is_empty() {
        let (line, after) = next_line(rest);
        out.extend_from_slice(line)?;
        out.push(b'|')?;
        rest = after;
    }
    Ok(out)
}

#[test]
fn lines(rt: HostRuntime) -> Result<(), Fail> {
    for (text, want) in [
        (b"".as_slice(), b"".as_slice()),
        (b"a", b"a|"),
        (b"a\n", b"a|"),
        (b"\n", b"|"),
        (b"a\n\nbc", b"a||bc|"),
        (b"a\r\n\n", b"a\r||"),
    ] {
        assert_eq!(rt; barred(rt.alloc(), text)?.as_slice(), want);
    }
    Ok(())
}

#[test]
fn numbers(rt: HostRuntime) {
    let bytes = [0xff, 0x01, 0x02, 0x03, 0x04, 0x05, 0x06, 0x07, 0x08];
    assert_eq!(rt; u16_at(&bytes, 1), 0x0201);
    assert_eq!(rt; u32_at(&bytes, 1), 0x0403_0201);
    assert_eq!(rt; u64_at(&bytes, 1), 0x0807_0605_0403_0201);
}
