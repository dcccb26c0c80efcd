//! The manifests of update packages.

use crate::set_up::lens;
use std::alloc::{AllocError, Global};
use std::test::Fail;
use update_manifest::{ManifestFault, read_epoch, read_images, read_packages};

const ONES: &str = "1111111111111111111111111111111111111111111111111111111111111111";

// ---- packages

// A list with so many packages, of which the first is the system package.
fn packages(alloc: Global, entries: u32) -> Result<String, AllocError> {
    let mut out = String::from_str(alloc, "{\"version\":\"1\",\"content\":[")?;
    out.push_str("\"fuchsia-pkg://h/system_image?hash=")?;
    out.push_str(ONES)?;
    for n in 1..entries {
        out.push_str("\",\"fuchsia-pkg://h/p")?;
        out.push_str(&format!(in alloc; "{n}")?)?;
        out.push_str("?hash=")?;
        out.push_str(ONES)?;
    }
    out.push_str("\"]}")?;
    Ok(out)
}

#[test]
fn lists_of_packages(rt: HostRuntime) -> Result<(), Fail> {
    let alloc = rt.alloc();
    let list = read_packages(
        alloc,
        b"{\"version\":\"1\",\"content\":[\
          \"fuchsia-pkg://h/a/1?hash=abcdef0123456789abcdef0123456789abcdef0123456789abcdef0123456789\",\
          \"fuchsia-pkg://i/system_image/0?hash=\
          1111111111111111111111111111111111111111111111111111111111111111\"]}",
    )?;
    assert_eq!(rt; list.as_slice().len(), 2);
    assert_eq!(rt; list.as_slice()[0].path.name(), b"a".as_slice());
    assert_eq!(rt; list.as_slice()[0].path.variant(), b"1".as_slice());
    assert_eq!(rt; list.as_slice()[0].root.0[0], 0xab);
    assert_eq!(rt; list.as_slice()[1].path.name(), b"system_image".as_slice());
    let most = read_packages(alloc, packages(alloc, 4096)?.as_bytes())?;
    assert_eq!(rt; most.as_slice().len(), 4096);
    let more = read_packages(alloc, packages(alloc, 4097)?.as_bytes()).err();
    assert_eq!(rt; more, Some(ManifestFault::Entry { n: 4097 }));
    Ok(())
}

#[test]
fn faults_of_packages(rt: HostRuntime) -> Result<(), Fail> {
    for (text, fault) in [
        (b"{\"content\":".as_slice(), ManifestFault::Json),
        (b"[]", ManifestFault::Json),
        (b"{\"version\":2,\"content\":7}", ManifestFault::Version),
        (b"{\"version\":1,\"content\":7}", ManifestFault::Json),
        (
            b"{\"version\":1,\"content\":[\"x\"]}",
            ManifestFault::Entry { n: 1 },
        ),
        (b"{\"version\":1,\"content\":[]}", ManifestFault::NoSystem),
        (
            b"{\"version\":1,\"content\":[\"fuchsia-pkg://h/system_image/1?hash=\
              1111111111111111111111111111111111111111111111111111111111111111\"]}",
            ManifestFault::NoSystem,
        ),
        (
            b"{\"version\":1,\"content\":[\"fuchsia-pkg://h/system_image?hash=\
              1111111111111111111111111111111111111111111111111111111111111111\",\
              \"fuchsia-pkg://i/system_image/0?hash=\
              1111111111111111111111111111111111111111111111111111111111111111\"]}",
            ManifestFault::Entry { n: 2 },
        ),
    ] {
        let found = read_packages(rt.alloc(), text).err();
        assert_eq!(rt; found, Some(fault), "{text:?}");
    }
    Ok(())
}

// ---- images

const FUCHSIA: &str = "\"fuchsia\"";

const RECOVERY: &str = "\"recovery\"";

const ZBI: &str = "\"zbi\"";

const VBMETA: &str = "\"vbmeta\"";

const HASH: &str = "\"abababababababababababababababababababababababababababababababab\"";

const URL: &str = "\"fuchsia-pkg://h/i?hash=\
                   1111111111111111111111111111111111111111111111111111111111111111#z\"";

// The texts of a partition's slot, type, size, hash and URL.
type Row<'a> = (&'a str, &'a str, &'a str, &'a str, &'a str);

// The text with these partitions.
fn images(alloc: Global, rows: &[Row]) -> Result<String, AllocError> {
    let mut out = String::from_str(alloc, "{\"contents\":{\"firmware\":[7],\"partitions\":[")?;
    let mut comma = "";
    for (slot, kind, size, hash, url) in rows {
        out.push_str(comma)?;
        out.push_str("{\"slot\":")?;
        out.push_str(slot)?;
        out.push_str(",\"type\":")?;
        out.push_str(kind)?;
        out.push_str(",\"size\":")?;
        out.push_str(size)?;
        out.push_str(",\"hash\":")?;
        out.push_str(hash)?;
        out.push_str(",\"url\":")?;
        out.push_str(url)?;
        out.push_str("}")?;
        comma = ",";
    }
    out.push_str("]},\"version\":1}")?;
    Ok(out)
}

#[test]
fn one_image(rt: HostRuntime) -> Result<(), Fail> {
    let found = read_images(
        rt.alloc(),
        b"{\"version\":\"1\",\"contents\":{\"partitions\":[\
          {\"slot\":\"fuchsia\",\"type\":\"zbi\",\"size\":5,\
          \"hash\":\"abababababababababababababababababababababababababababababababab\",\
          \"url\":\"fuchsia-pkg://h/update-images?hash=\
          1111111111111111111111111111111111111111111111111111111111111111#zbi\"}],\
          \"firmware\":[]}}",
    )?;
    assert_eq!(rt; lens(&found), (5, None, None, None));
    assert_eq!(rt; found.zbi.sha, [0xab; 32]);
    assert_eq!(rt; found.zbi.url.path.name(), b"update-images".as_slice());
    let file = found.zbi.url.file.as_ref().map(|file| file.as_slice());
    assert_eq!(rt; file, Some(b"zbi".as_slice()));
    Ok(())
}

#[test]
fn more_images(rt: HostRuntime) -> Result<(), Fail> {
    let alloc = rt.alloc();
    let text = images(
        alloc,
        &[
            (RECOVERY, VBMETA, "4", HASH, URL),
            (FUCHSIA, VBMETA, "2", HASH, URL),
            (FUCHSIA, ZBI, "18446744073709551615", HASH, URL),
            (RECOVERY, ZBI, "0", HASH, URL),
        ],
    )?;
    let found = read_images(alloc, text.as_bytes())?;
    assert_eq!(rt;
        lens(&found),
        (18446744073709551615, Some(2), Some(0), Some(4))
    );
    // Of two members with one name the last counts.
    let text = images(
        alloc,
        &[("7,\"slot\":\"fuchsia\"", ZBI, "1,\"size\":9", HASH, URL)],
    )?;
    let found = read_images(alloc, text.as_bytes())?;
    assert_eq!(rt; lens(&found), (9, None, None, None));
    Ok(())
}

#[test]
fn bad_partitions(rt: HostRuntime) -> Result<(), Fail> {
    let alloc = rt.alloc();
    for (n, row) in [
        (1, ("\"a\"", ZBI, "5", HASH, URL)),
        (1, ("7", ZBI, "5", HASH, URL)),
        (1, (FUCHSIA, "\"firmware\"", "5", HASH, URL)),
        (1, (FUCHSIA, "null", "5", HASH, URL)),
        (1, (FUCHSIA, ZBI, "18446744073709551616", HASH, URL)),
        (1, (FUCHSIA, ZBI, "-1", HASH, URL)),
        (1, (FUCHSIA, ZBI, "5.0", HASH, URL)),
        (1, (FUCHSIA, ZBI, "\"5\"", HASH, URL)),
        (1, (FUCHSIA, ZBI, "5", "\"ab\"", URL)),
        (
            1,
            (
                FUCHSIA,
                ZBI,
                "5",
                "\"ABABABABABABABABABABABABABABABABABABABABABABABABABABABABABABABAB\"",
                URL,
            ),
        ),
        (1, (FUCHSIA, ZBI, "5", HASH, "\"fuchsia-pkg://h/i#z\"")),
        (
            1,
            (
                FUCHSIA,
                ZBI,
                "5",
                HASH,
                "\"fuchsia-pkg://h/i?hash=\
                 1111111111111111111111111111111111111111111111111111111111111111\"",
            ),
        ),
        (1, (FUCHSIA, ZBI, "5", HASH, "\"x\"")),
        // A partition that stood before, with a bad size, is bad first.
        (2, (RECOVERY, ZBI, "-1", HASH, URL)),
    ] {
        let good = (RECOVERY, ZBI, "5", HASH, URL);
        let text = if n == 1 {
            images(alloc, &[row, good, good])?
        } else {
            images(alloc, &[good, row, good])?
        };
        let found = read_images(alloc, text.as_bytes()).err();
        assert_eq!(rt; found, Some(ManifestFault::Entry { n }), "{text}");
    }
    Ok(())
}

#[test]
fn partitions_together(rt: HostRuntime) -> Result<(), Fail> {
    let alloc = rt.alloc();
    let zbi = (FUCHSIA, ZBI, "5", HASH, URL);
    let vbmeta = (FUCHSIA, VBMETA, "5", HASH, URL);
    let recovery = (RECOVERY, ZBI, "5", HASH, URL);
    let bad = (FUCHSIA, ZBI, "-1", HASH, URL);
    for (rows, fault) in [
        ([zbi, zbi, bad], ManifestFault::Twice { n: 2 }),
        ([vbmeta, zbi, vbmeta], ManifestFault::Twice { n: 3 }),
        ([recovery, recovery, zbi], ManifestFault::Twice { n: 2 }),
        ([vbmeta, recovery, recovery], ManifestFault::Twice { n: 3 }),
        ([zbi, bad, zbi], ManifestFault::Entry { n: 2 }),
    ] {
        let text = images(alloc, &rows)?;
        let found = read_images(alloc, text.as_bytes()).err();
        assert_eq!(rt; found, Some(fault), "{text}");
    }
    for rows in [[].as_slice(), &[vbmeta, recovery]] {
        let text = images(alloc, rows)?;
        let found = read_images(alloc, text.as_bytes()).err();
        assert_eq!(rt; found, Some(ManifestFault::NoZbi), "{text}");
    }
    Ok(())
}

#[test]
fn faults_of_images(rt: HostRuntime) -> Result<(), Fail> {
    for (text, fault) in [
        (b"".as_slice(), ManifestFault::Json),
        (b"7", ManifestFault::Json),
        (b"{\"contents\":7}", ManifestFault::Version),
        (b"{\"version\":1}", ManifestFault::Json),
        (b"{\"version\":1,\"contents\":[]}", ManifestFault::Json),
        (b"{\"version\":1,\"contents\":{}}", ManifestFault::Json),
        (
            b"{\"version\":1,\"contents\":{\"partitions\":{}}}",
            ManifestFault::Json,
        ),
        (
            b"{\"version\":1,\"contents\":{\"partitions\":[7]}}",
            ManifestFault::Entry { n: 1 },
        ),
        (
            b"{\"version\":1,\"contents\":{\"partitions\":[{}]}}",
            ManifestFault::Entry { n: 1 },
        ),
    ] {
        let found = read_images(rt.alloc(), text).err();
        assert_eq!(rt; found, Some(fault), "{text:?}");
    }
    Ok(())
}

// ---- epochs

#[test]
fn epochs(rt: HostRuntime) -> Result<(), Fail> {
    for (text, epoch) in [
        (b"{\"version\":\"1\",\"epoch\":1}".as_slice(), 1),
        (b"{\"epoch\":0,\"version\":1,\"x\":[]}", 0),
        (
            b"{\"version\":1,\"epoch\":18446744073709551615}",
            18446744073709551615,
        ),
        (b"{\"version\":1,\"epoch\":\"1\",\"epoch\":2}", 2),
    ] {
        assert_eq!(rt; read_epoch(rt.alloc(), text)?, epoch);
    }
    Ok(())
}

#[test]
fn faults_of_epochs(rt: HostRuntime) -> Result<(), Fail> {
    for (text, fault) in [
        (b"\xff".as_slice(), ManifestFault::Json),
        (b"{\"epoch\":1", ManifestFault::Json),
        (b"[]", ManifestFault::Json),
        (b"{}", ManifestFault::Version),
        (b"{\"version\":\"2\",\"epoch\":1}", ManifestFault::Version),
        (b"{\"version\":1.0,\"epoch\":1}", ManifestFault::Version),
        (b"{\"version\":1}", ManifestFault::Json),
        (b"{\"version\":1,\"epoch\":null}", ManifestFault::Json),
        (b"{\"version\":1,\"epoch\":\"1\"}", ManifestFault::Json),
        (b"{\"version\":1,\"epoch\":-1}", ManifestFault::Json),
        (b"{\"version\":1,\"epoch\":1.0}", ManifestFault::Json),
        (b"{\"version\":1,\"epoch\":1e0}", ManifestFault::Json),
        (
            b"{\"version\":1,\"epoch\":18446744073709551616}",
            ManifestFault::Json,
        ),
        (
            b"{\"version\":1,\"epoch\":1,\"epoch\":\"1\"}",
            ManifestFault::Json,
        ),
    ] {
        let found = read_epoch(rt.alloc(), text).err();
        assert_eq!(rt; found, Some(fault), "{text:?}");
    }
    Ok(())
}

// An object with an array of arrays, so many levels in all.
fn nested(alloc: Global, levels: u32) -> Result<String, AllocError> {
    let mut out = String::from_str(alloc, "{\"version\":1,\"epoch\":3,\"x\":")?;
    for _ in 1..levels {
        out.push_str("[")?;
    }
    for _ in 1..levels {
        out.push_str("]")?;
    }
    out.push_str("}")?;
    Ok(out)
}

#[test]
fn levels(rt: HostRuntime) -> Result<(), Fail> {
    let alloc = rt.alloc();
    assert_eq!(rt; read_epoch(alloc, nested(alloc, 127)?.as_bytes())?, 3);
    let deep = read_epoch(alloc, nested(alloc, 128)?.as_bytes()).err();
    assert_eq!(rt; deep, Some(ManifestFault::Json));
    Ok(())
}
