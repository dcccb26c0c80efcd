use crate::{Url, UrlFault, is_host, read_url, write_url};
use pkg_names::read_root;
use std::alloc::Global;
use std::test::Fail;

const DIGITS: &[u8; 64] = b"abcdef0123456789abcdef0123456789abcdef0123456789abcdef0123456789";

// Each part of a text that is a URL.
fn parts(url: &Url) -> (&[u8], &[u8], &[u8], Option<&[u8]>) {
    (
        url.host.as_slice(),
        url.path.name(),
        url.path.variant(),
        url.file.as_ref().map(|file| file.as_slice()),
    )
}

#[test]
fn each_part(rt: HostRuntime) -> Result<(), Fail> {
    let root = read_root(DIGITS)?;
    for (text, variant, pinned, file, written) in [
        (
            b"fuchsia-pkg://fuchsia.com/example/1?hash=\
              abcdef0123456789abcdef0123456789abcdef0123456789abcdef0123456789#meta/example.cm"
                .as_slice(),
            b"1".as_slice(),
            true,
            Some(b"meta/example.cm".as_slice()),
            b"fuchsia-pkg://fuchsia.com/example/1?hash=\
              abcdef0123456789abcdef0123456789abcdef0123456789abcdef0123456789#meta/example.cm"
                .as_slice(),
        ),
        (
            b"fuchsia-pkg://fuchsia.com/example",
            b"0",
            false,
            None,
            b"fuchsia-pkg://fuchsia.com/example/0",
        ),
        (
            b"fuchsia-pkg://fuchsia.com/example?hash=\
              abcdef0123456789abcdef0123456789abcdef0123456789abcdef0123456789",
            b"0",
            true,
            None,
            b"fuchsia-pkg://fuchsia.com/example/0?hash=\
              abcdef0123456789abcdef0123456789abcdef0123456789abcdef0123456789",
        ),
        (
            b"fuchsia-pkg://fuchsia.com/example/0#a#b?c/d e",
            b"0",
            false,
            Some(b"a#b?c/d e"),
            b"fuchsia-pkg://fuchsia.com/example/0#a#b?c/d e",
        ),
    ] {
        let url = read_url(rt.alloc(), text)?;
        let (host, name, read_variant, read_file) = parts(&url);
        assert_eq!(rt; host, b"fuchsia.com".as_slice());
        assert_eq!(rt; name, b"example".as_slice());
        assert_eq!(rt; read_variant, variant);
        assert_eq!(rt; read_file, file);
        assert_eq!(rt; url.pin, if pinned { Some(root) } else { None });
        let out = write_url(rt.alloc(), &url)?;
        assert_eq!(rt; out.as_slice(), written);
    }
    Ok(())
}

// What is wrong with a text.
fn fault_of(alloc: Global, text: &[u8]) -> Option<UrlFault> {
    read_url(alloc, text).err()
}

// Each fault, and the first of two.
#[test]
fn faults(rt: HostRuntime) -> Result<(), Fail> {
    for (text, fault) in [
        (b"https://x/y".as_slice(), UrlFault::Scheme),
        (b"", UrlFault::Scheme),
        (b"fuchsia-pkg:/", UrlFault::Scheme),
        (b"Fuchsia-pkg://h/a", UrlFault::Scheme),
        (b"fuchsia-pkg://", UrlFault::Host),
        (b"fuchsia-pkg:///a", UrlFault::Host),
        (b"fuchsia-pkg://Fuchsia.com/a", UrlFault::Host),
        (b"fuchsia-pkg://h_i/a", UrlFault::Host),
        (b"fuchsia-pkg://h:80/a", UrlFault::Host),
        (b"fuchsia-pkg://h?hash=1#%", UrlFault::Path),
        (b"fuchsia-pkg://fuchsia.com", UrlFault::Path),
        (b"fuchsia-pkg://h/", UrlFault::Path),
        (b"fuchsia-pkg://h/a/", UrlFault::Path),
        (b"fuchsia-pkg://h/a/b/c", UrlFault::Path),
        (b"fuchsia-pkg://h/../0", UrlFault::Path),
        (b"fuchsia-pkg://h/a%20b", UrlFault::Path),
        (b"fuchsia-pkg://h/A?hash=1#%", UrlFault::Path),
        (b"fuchsia-pkg://h/a?", UrlFault::Hash),
        (b"fuchsia-pkg://h/a?hash=", UrlFault::Hash),
        (b"fuchsia-pkg://h/a?hash=1#%", UrlFault::Hash),
        (
            b"fuchsia-pkg://h/a?Hash=abcdef0123456789abcdef0123456789abcdef0123456789abcdef0123456789",
            UrlFault::Hash,
        ),
        (
            b"fuchsia-pkg://h/a?hash=abcdef0123456789abcdef0123456789abcdef0123456789abcdef012345678A",
            UrlFault::Hash,
        ),
        (
            b"fuchsia-pkg://h/a?hash=abcdef0123456789abcdef0123456789abcdef0123456789abcdef01234567890",
            UrlFault::Hash,
        ),
        (
            b"fuchsia-pkg://h/a?hash=\
              abcdef0123456789abcdef0123456789abcdef0123456789abcdef0123456789\
              ?hash=abcdef0123456789abcdef0123456789abcdef0123456789abcdef0123456789",
            UrlFault::Hash,
        ),
        (
            b"fuchsia-pkg://h/a?hash=abcdef0123456789abcdef0123456789abcdef0123456789abcdef0123456789&x=1",
            UrlFault::Hash,
        ),
        (b"fuchsia-pkg://h/a#", UrlFault::Fragment),
        (b"fuchsia-pkg://h/a#a/", UrlFault::Fragment),
        (
            b"fuchsia-pkg://h/a?hash=abcdef0123456789abcdef0123456789abcdef0123456789abcdef0123456789#a/",
            UrlFault::Fragment,
        ),
        (b"fuchsia-pkg://h/a#a%20b", UrlFault::Fragment),
        (b"fuchsia-pkg://h/a#\xff", UrlFault::Fragment),
    ] {
        assert_eq!(rt; fault_of(rt.alloc(), text), Some(fault), "{text:?}");
    }
    Ok(())
}

// A host of 255 bytes, and one of 256.
#[test]
fn long_hosts(rt: HostRuntime) -> Result<(), Fail> {
    for (len, fault) in [(255, None), (256, Some(UrlFault::Host))] {
        let mut text = b"fuchsia-pkg://".to_vec(rt.alloc())?;
        for _ in 0..len {
            text.push(b'a')?;
        }
        text.extend_from_slice(b"/b")?;
        assert_eq!(rt; fault_of(rt.alloc(), &text), fault, "{len} bytes");
    }
    Ok(())
}

#[test]
fn hosts(rt: HostRuntime) -> Result<(), Fail> {
    let table: [(&[u8], bool); 6] = [
        (b"fuchsia.com", true),
        (b"a-1", true),
        (b"", false),
        (b"A", false),
        (b"a/b", false),
        (b"a_b", false),
    ];
    for (text, expected) in table {
        assert_eq!(rt; is_host(text), expected, "{text:?}");
    }
    Ok(())
}
