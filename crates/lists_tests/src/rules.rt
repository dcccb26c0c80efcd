//! Rules that rewrite URLs, and the repositories of hosts.

ghost use Rattle.std.specs.Prelude.{IsOk};

use package_url::{read_url, write_url};
use pkg_names::{Bytes, Texts};
use rewrite_rules::{HostRepo, Hosts, RouteFault, Rules, RulesFault, read_rules};
use std::alloc::{AllocError, Global};
use std::test::Fail;

// The texts of a rule's two hosts and two prefixes.
type Row<'a> = (&'a str, &'a str, &'a str, &'a str);

// The text with these rules.
fn rules(alloc: Global, rows: &[Row]) -> Result<String, AllocError> {
    let mut out = String::from_str(alloc, "{\"version\":\"1\",\"content\":[")?;
    let mut comma = "";
    for (host, replacement, prefix, other) in rows {
        out.push_str(comma)?;
        out.push_str("{\"host_match\":\"")?;
        out.push_str(host)?;
        out.push_str("\",\"host_replacement\":\"")?;
        out.push_str(replacement)?;
        out.push_str("\",\"path_prefix_match\":\"")?;
        out.push_str(prefix)?;
        out.push_str("\",\"path_prefix_replacement\":\"")?;
        out.push_str(other)?;
        out.push_str("\"}")?;
        comma = ",";
    }
    out.push_str("]}")?;
    Ok(out)
}

// The text of the URL that is asked for in place of this one.
fn routed(alloc: Global, rules: &Rules, url: &str) -> Result<Result<Bytes, RouteFault>, Fail> {
    let url = read_url(alloc, url.as_bytes())?;
    match rules.route(&url) {
        Ok(url) => Ok(Ok(write_url(alloc, &url)?)),
        Err(fault) => Ok(Err(fault)),
    }
}

const EXAMPLE: &str = "fuchsia-pkg://fuchsia.com/example";

#[test]
fn routes(rt: HostRuntime) -> Result<(), Fail> {
    let alloc = rt.alloc();
    let all = ("fuchsia.com", "mirror", "/", "/");
    let sample = ("fuchsia.com", "fuchsia.com", "/example/", "/sample/");
    let other = ("fuchsia.com", "fuchsia.com", "/sample/", "/other/");
    let alone = ("fuchsia.com", "mirror", "/example/0", "/x");
    for (rows, url, routed_to) in [
        ([all].as_slice(), EXAMPLE, "fuchsia-pkg://mirror/example/0"),
        (&[], EXAMPLE, "fuchsia-pkg://fuchsia.com/example/0"),
        (
            &[sample, other],
            EXAMPLE,
            "fuchsia-pkg://fuchsia.com/sample/0",
        ),
        (
            &[other, sample],
            "fuchsia-pkg://fuchsia.com/sample/1",
            "fuchsia-pkg://fuchsia.com/other/1",
        ),
        (
            &[all],
            "fuchsia-pkg://fuchsia/example",
            "fuchsia-pkg://fuchsia/example/0",
        ),
        (&[alone], EXAMPLE, "fuchsia-pkg://mirror/x/0"),
        (
            &[alone, sample],
            "fuchsia-pkg://fuchsia.com/example/01",
            "fuchsia-pkg://fuchsia.com/sample/01",
        ),
        (
            &[("fuchsia.com", "mirror", "/exam", "/x"), other],
            EXAMPLE,
            "fuchsia-pkg://fuchsia.com/example/0",
        ),
        (
            &[("fuchsia.com", "mirror", "/example/", "/")],
            EXAMPLE,
            "fuchsia-pkg://mirror/0/0",
        ),
        (
            &[all],
            "fuchsia-pkg://fuchsia.com/a?hash=\
             1111111111111111111111111111111111111111111111111111111111111111#b/c",
            "fuchsia-pkg://mirror/a/0?hash=\
             1111111111111111111111111111111111111111111111111111111111111111#b/c",
        ),
    ] {
        let rules = read_rules(alloc, rules(alloc, rows)?.as_bytes())?;
        let found = routed(alloc, &rules, url)?.ok();
        let found = found.as_ref().map(|text| text.as_slice());
        assert_eq!(rt; found, Some(routed_to.as_bytes()), "{url}");
    }
    Ok(())
}

#[test]
fn no_routes(rt: HostRuntime) -> Result<(), Fail> {
    let alloc = rt.alloc();
    let other = ("fuchsia", "mirror", "/", "/");
    let deep = ("fuchsia.com", "mirror", "/", "/a/b/");
    let bare = ("fuchsia.com", "mirror", "/example/0", "/.");
    for (rows, rule) in [
        ([deep].as_slice(), 1),
        (&[other, deep, bare], 2),
        (&[bare, deep], 1),
    ] {
        let rules = read_rules(alloc, rules(alloc, rows)?.as_bytes())?;
        let found = routed(alloc, &rules, EXAMPLE)?.err();
        assert_eq!(rt; found, Some(RouteFault::BadResult { rule }));
    }
    Ok(())
}

#[test]
fn bad_rules(rt: HostRuntime) -> Result<(), Fail> {
    let alloc = rt.alloc();
    let good = ("a", "b", "/c/", "/d/");
    for (n, row) in [
        (1, ("", "b", "/c/", "/d/")),
        (1, ("A", "b", "/c/", "/d/")),
        (2, ("a", "b/", "/c/", "/d/")),
        (2, ("a", "b", "", "/d/")),
        (2, ("a", "b", "c/", "/d/")),
        (2, ("a", "b", "/c/", "d/")),
        (2, ("a", "b", "/c/", "/d")),
        (2, ("a", "b", "/c", "/d/")),
        (2, ("a", "b", "/c/", "/d/\",\"host_match\":\"_")),
    ] {
        let text = if n == 1 {
            rules(alloc, &[row, row])?
        } else {
            rules(alloc, &[good, row])?
        };
        let found = read_rules(alloc, text.as_bytes()).err();
        assert_eq!(rt; found, Some(RulesFault::Entry { n }), "{text}");
    }
    Ok(())
}

#[test]
fn faults_of_rules(rt: HostRuntime) -> Result<(), Fail> {
    for (text, fault) in [
        (b"".as_slice(), RulesFault::Json),
        (b"[]", RulesFault::Json),
        (b"{\"content\":[]}", RulesFault::Version),
        (b"{\"version\":2,\"content\":[7]}", RulesFault::Version),
        (b"{\"version\":1}", RulesFault::Json),
        (b"{\"version\":1,\"content\":{}}", RulesFault::Json),
        (
            b"{\"version\":1,\"content\":[7]}",
            RulesFault::Entry { n: 1 },
        ),
        (
            b"{\"version\":1,\"content\":[{\"host_match\":\"a\",\"host_replacement\":\"b\",\
              \"path_prefix_match\":\"/\"}]}",
            RulesFault::Entry { n: 1 },
        ),
        (
            b"{\"version\":1,\"content\":[{\"host_match\":\"a\",\"host_replacement\":7,\
              \"path_prefix_match\":\"/\",\"path_prefix_replacement\":\"/\"}]}",
            RulesFault::Entry { n: 1 },
        ),
    ] {
        let found = read_rules(rt.alloc(), text).err();
        assert_eq!(rt; found, Some(fault), "{text:?}");
    }
    Ok(())
}

// So many rules, and so many spaces behind them.
fn many(alloc: Global, count: u32, spaces: u32) -> Result<String, AllocError> {
    let mut rows = Vec::new(alloc);
    for _ in 0..count {
        rows.push(("a", "b", "/", "/"))?;
    }
    let mut out = rules(alloc, &rows)?;
    for _ in 0..spaces {
        out.push_str(" ")?;
    }
    Ok(out)
}

#[test]
fn limits_of_rules(rt: HostRuntime) -> Result<(), Fail> {
    let alloc = rt.alloc();
    // Without rules the text has 28 bytes.
    for (count, spaces, fault) in [
        (256, 0, None),
        (257, 0, Some(RulesFault::Entry { n: 257 })),
        (0, 1048548, None),
        (0, 1048549, Some(RulesFault::TooLong)),
    ] {
        let text = many(alloc, count, spaces)?;
        assert_eq!(rt; read_rules(alloc, text.as_bytes()).err(), fault);
    }
    Ok(())
}

#[test]
fn repositories(rt: HostRuntime) -> Result<(), Fail> {
    let alloc = rt.alloc();
    let mut pairs = Vec::new(alloc);
    pairs.push(HostRepo {
        host: Texts::make(String::from_str(alloc, "a")?),
        repo: 1,
    })?;
    let mut hosts: Hosts<u32> = Hosts::make(pairs);
    assert_eq!(rt; hosts.pick(b"b").is_some(), false);
    if let Some(repo) = hosts.pick(b"a") {
        *repo = 7;
    }
    assert_eq!(rt; hosts.pairs().first().map(|pair| pair.repo), Some(7));
    Ok(())
}
