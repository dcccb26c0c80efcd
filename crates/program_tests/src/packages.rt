//! Runs of one lane, each by what it prints: packages that are resolved, opened, read, collected and retained.

use crate::set_up::{has, printed};
use package_shop::{Shop, with_roots};
use pkg_merkle::root_of;
use pkg_names::{Root, read_root};
use std::alloc::Global;
use std::test::Fail;

/// The roots of `example/0`, and of its files `data/a`, which is `hi`, and `data/b`, which is `b`.
const EXAMPLE: [&[u8]; 3] = [
    b"040206a9758ff398241ac69f4a0956f054c6087d5d71e694a7f1daa170ac9577",
    b"df6d2bb7dac8a27c99a0ac498fabc106e94eab93dc88d40b2e313aeae33cb5a6",
    b"621793bc7601a585f6312259b49880f4c54f5983354b94d1eee9038f7f77ad88",
];

/// The roots of the old `p/0` and its file, and of the new one and its file.
const OLD_AND_NEW: [&[u8]; 4] = [
    b"099d22c3a88839270d218adfe0fe95b9fb7179aa8e4fea2572fe2e319aed9f8b",
    b"dc966c915497607d4b7fdfef3b57d03fd4583771f255837545d1c7319a992566",
    b"2d1632de068072c4443b8d5c6d923ae57331b9d26fc2e4f4d4a438adaa4ea7d0",
    b"08a4e9e7edc4d4c049f045870d4bd809956a1a0e3e3846003fa19fdc2ea79fc4",
];

/// The root of the package of the system that runs.
const SYSTEM: &[u8] = b"ac005270136ee566e3a908267e0eb1076fd777430cb0216bb1e96fc866fad6ed";

// The roots that these digits spell.
fn roots_of(alloc: Global, digits: &[&[u8]]) -> Result<Vec<Root>, Fail> {
    let mut roots = Vec::new(alloc);
    for text in digits {
        roots.push(read_root(text)?)?;
    }
    Ok(roots)
}

fn example(alloc: Global) -> Result<Shop, Fail> {
    let mut shop = Shop::new(alloc);
    let mut lines = Vec::new(alloc);
    shop.line(&mut lines, b"data/a", b"hi")?;
    shop.line(&mut lines, b"data/b", b"b")?;
    shop.package(b"example", lines)?;
    Ok(shop)
}

#[test]
fn a_package_is_resolved_and_read(rt: HostRuntime) -> Result<(), Fail> {
    let alloc = rt.alloc();
    let script = b"1 resolve x fuchsia-pkg://fuchsia.com/example
1 cat x data/a
1 cat x data/b
1 check x data/a
1 close x
";
    let want = b"1 0 boot A
2 1 begin example/0 ticket $0
3 1 want 2 fetch $0
4 1 room $0 made 12288
5 1 land $0 landed 12288
6 1 want 2 fetch $1
7 1 room $1 made 2
8 1 land $1 landed 2
9 1 want 2 fetch $2
10 1 room $2 made 1
11 1 land $2 landed 1
12 1 want 2 opened
13 1 read 12 data/a bytes 2 6869
14 1 read 12 data/b bytes 1 62
15 1 check 12 data/a checked $1 2
16 1 close 12 closed
";
    let text = printed(&rt, alloc, example(alloc)?, script)?;
    let want = with_roots(alloc, want, &roots_of(alloc, &EXAMPLE)?)?;
    assert_eq!(rt; text.as_slice(), want.as_slice());
    Ok(())
}

// What is served in place of `hi`: a declared length, bytes, and how the history ends. The system has 4 pages of the
// 1024, and the package's archive has 3.
#[test]
fn bad_blobs(rt: HostRuntime) -> Result<(), Fail> {
    let alloc = rt.alloc();
    let script = b"1 resolve x fuchsia-pkg://fuchsia.com/example\n1 cat x data/a\n";
    let roots = roots_of(alloc, &EXAMPLE)?;
    for (len, bytes, end) in [
        (
            2u64,
            b"b".as_slice(),
            b"8 1 land $1 ended short 1\n9 1 want 2 failed short 1\n10 1 read 0 data/a bad-dir\n".as_slice(),
        ),
        (
            1,
            b"b",
            b"8 1 land $1 ended wrong $2\n9 1 want 2 failed wrong $2\n10 1 read 0 data/a bad-dir\n",
        ),
        (
            1,
            b"hi",
            b"8 1 put $1 ended long 1\n9 1 want 2 failed long 1\n10 1 read 0 data/a bad-dir\n",
        ),
        (
            33_554_432,
            b"hi",
            b"7 1 room $1 ended no-space 8192 1017\n8 1 want 2 failed no-space 8192 1017\n\
              9 1 read 0 data/a bad-dir\n",
        ),
        (
            33_554_433,
            b"hi",
            b"7 1 room $1 ended too-large 33554433\n8 1 want 2 failed too-large 33554433\n\
              9 1 read 0 data/a bad-dir\n",
        ),
    ] {
        let mut shop = example(alloc)?.without(root_of(b"hi"));
        shop.file_under(root_of(b"hi"), len, bytes)?;
        let text = printed(&rt, alloc, shop, script)?;
        assert!(rt; text.ends_with(&with_roots(alloc, end, &roots)?));
    }
    Ok(())
}

fn old_and_new(alloc: Global) -> Result<Shop, Fail> {
    let mut shop = Shop::new(alloc);
    shop.package_of(b"p", b"f", b"one")?;
    shop.package_of(b"p", b"f", b"two")?;
    Ok(shop)
}

// What an open directory names stays, and so does what is retained. The end of the script, and of what it prints.
#[test]
fn collections(rt: HostRuntime) -> Result<(), Fail> {
    let alloc = rt.alloc();
    let begin = b"1 collect
1 resolve a fuchsia-pkg://fuchsia.com/p?hash=$0
1 resolve c fuchsia-pkg://fuchsia.com/p?hash=$2
1 collect
";
    let shown = b"1 0 boot A
2 1 collect removed 0
3 1 begin p/0 ticket $0
4 1 want 3 fetch $0
5 1 room $0 made 12288
6 1 land $0 landed 12288
7 1 want 3 fetch $1
8 1 room $1 made 3
9 1 land $1 landed 3
10 1 want 3 opened
11 1 begin p/0 ticket $2
12 1 want 11 fetch $2
13 1 room $2 made 12288
14 1 land $2 landed 12288
15 1 want 11 fetch $3
16 1 room $3 made 3
17 1 land $3 landed 3
18 1 want 11 opened
19 1 collect removed 0
";
    let roots = roots_of(alloc, &OLD_AND_NEW)?;
    for (script, end) in [
        (
            b"1 close a\n1 collect\n1 collect\n".as_slice(),
            b"20 1 close 10 closed\n21 1 collect removed 2 $0 $1\n22 1 collect removed 0\n".as_slice(),
        ),
        (
            b"1 retain $0\n1 close a\n1 collect\n1 retain\n1 collect\n",
            b"20 1 retain 1 done\n21 1 close 10 closed\n22 1 collect removed 0\n\
              23 1 retain 0 done\n24 1 collect removed 2 $0 $1\n",
        ),
    ] {
        let mut asked = with_roots(alloc, begin, &roots)?;
        asked.extend_from_slice(&with_roots(alloc, script, &roots)?)?;
        let mut want = with_roots(alloc, shown, &roots)?;
        want.extend_from_slice(&with_roots(alloc, end, &roots)?)?;
        let text = printed(&rt, alloc, old_and_new(alloc)?, &asked)?;
        assert_eq!(rt; text.as_slice(), want.as_slice());
    }
    Ok(())
}

// Names that aren't bound, files and packages that aren't there, and what the running system has.
#[test]
fn names_and_paths(rt: HostRuntime) -> Result<(), Fail> {
    let alloc = rt.alloc();
    let script = b"1 cat x data/a
1 close x
1 check x data/a
1 open x none/0
1 open x system_image/0
1 cat x nothing
1 cat x data/static_packages
1 resolve x fuchsia-pkg://fuchsia.com/none
1 cat x data/static_packages
1 resolve x fuchsia-pkg://fuchsia.com/system_image
1 commit
1 collect
";
    let want = b"1 0 boot A
2 1 read 0 data/a bad-dir
3 1 close 0 bad-dir
4 1 check 0 data/a bad-dir
5 1 open none/0 not-here
6 1 open system_image/0 opened $0
7 1 read 6 nothing no-file
8 1 read 6 data/static_packages bytes 0 -
9 1 begin none/0 not-found
10 1 read 0 data/static_packages bad-dir
11 1 begin system_image/0 ticket $0
12 1 want 11 opened
13 1 commit not-pending
14 1 collect removed 0
";
    let text = printed(&rt, alloc, Shop::new(alloc), script)?;
    let want = with_roots(alloc, want, &[read_root(SYSTEM)?])?;
    assert_eq!(rt; text.as_slice(), want.as_slice());
    Ok(())
}

// A file that is as long as can be read, and one that is longer.
#[test]
fn long_files(rt: HostRuntime) -> Result<(), Fail> {
    let alloc = rt.alloc();
    let mut shop = Shop::new(alloc);
    let mut lines = Vec::new(alloc);
    shop.line(&mut lines, b"a", &vec![in alloc; 0u8; 262_144]?)?;
    shop.line(&mut lines, b"b", &vec![in alloc; 0u8; 262_145]?)?;
    shop.package(b"long", lines)?;
    let script = b"1 resolve x fuchsia-pkg://fuchsia.com/long\n1 cat x a\n1 cat x b\n";
    let text = printed(&rt, alloc, shop, script)?;
    assert!(rt; has(&text, b"13 1 read 12 a bytes 262144 0000"));
    assert!(rt; text.ends_with(b"0000\n14 1 read 12 b too-long 262145\n"));
    Ok(())
}
