//! Resolves of one lane, each by its printed events. The store runs a system of an empty list.

ghost use Rattle.std.specs.Prelude.{◌≡◌, []};
ghost use Rattle.store_model.specs.History.{of_lane};
ghost use Rattle.plain_desk.specs.Stores.{LeavesOthers};

use crate::memory::is_served;
use crate::scene::{make_scene, resolve_in};
use package_indexes::Choice;
use package_shop::{Shop, with_roots};
use package_url::read_url;
use pkg_merkle::root_of;
use pkg_names::{Bytes, PackagePath, Root};
use plain_desk::{Lane, Store};
use resolver::ResolveReply;
use script_lang::text_of;
use std::alloc::Global;
use std::sync::Wait;
use std::test::Fail;
use store_model::{BeginReply, Desk, WantReply};

// A package of two files.
fn example(alloc: Global) -> Result<(Shop, Root), Fail> {
    let mut shop = Shop::new(alloc);
    let mut lines = Vec::new(alloc);
    shop.line(&mut lines, b"data/a", b"hi")?;
    shop.line(&mut lines, b"data/b", b"b")?;
    let root = shop.package(b"example", lines)?;
    Ok((shop, root))
}

// The history of a resolve of this URL on lane 1, from this shop, whose calls with these numbers fail.
fn history_of<W: Wait>(
    rt: &W,
    alloc: Global,
    shop: Shop,
    failing: &[u64],
    url: &[u8],
) -> Result<Bytes, Fail> {
    let mut scene = make_scene(alloc, shop, failing, url)?;
    resolve_in(rt, alloc, &mut scene);
    Ok(text_of(alloc, &scene.store.into_history())?)
}

const EXAMPLE: &[u8] = b"fuchsia-pkg://fuchsia.com/example";

// The history where it is fetched. Its roots: the package and its two files.
const FETCHED: &[u8] = b"1 0 boot A
2 1 begin example/0 ticket $0
3 1 want 2 fetch $0
4 1 room $0 made 12288
5 1 land $0 landed 12288
6 1 want 2 fetch $1
7 1 room $1 made 2
8 1 land $1 landed 2
9 1 want 2 fetch $2
10 1 room $2 made 1
11 1 land $2 landed 1
12 1 want 2 opened
";

// The history where lane 2 has another package to fetch, whose root is the fourth.
const FETCHED_BESIDE: &[u8] = b"1 0 boot A
2 2 begin other/0 ticket $3
3 2 want 2 fetch $3
4 1 begin example/0 ticket $0
5 1 want 4 fetch $0
6 1 room $0 made 12288
7 1 land $0 landed 12288
8 1 want 4 fetch $1
9 1 room $1 made 2
10 1 land $1 landed 2
11 1 want 4 fetch $2
12 1 room $2 made 1
13 1 land $2 landed 1
14 1 want 4 opened
";

// Where an allocation of the resolve fails, the reply is want of memory, and the resolve is served when it is asked for
// again. Where one before it fails, so does the set-up; behind it there is no text.
#[test]
fn a_package_is_fetched_and_opened(rt: HostRuntime) -> Result<(), Fail> {
    let alloc = rt.alloc();
    let (shop, package) = example(alloc)?;
    let want = with_roots(alloc, FETCHED, &[package, root_of(b"hi"), root_of(b"b")])?;
    let mut scene = make_scene(alloc, shop, &[], EXAMPLE)?;
    let mut reply = resolve_in(&rt, alloc, &mut scene);
    let starved = reply == ResolveReply::NoMemory;
    if starved {
        println!(rt; "starved")?;
        reply = resolve_in(&rt, alloc, &mut scene);
    }
    assert!(rt; matches!(reply, ResolveReply::Resolved(_)));
    let history = scene.store.into_history();
    assert!(rt; is_served(alloc, &history, starved, 1, &want)?);
    Ok(())
}

// The text ends so.
fn ends(alloc: Global, text: &Bytes, end: &[u8], roots: &[Root]) -> Result<bool, Fail> {
    Ok(text.as_slice().ends_with(&with_roots(alloc, end, roots)?))
}

// What is served in place of `hi`: a declared length, bytes, the call that fails, and how the history ends.
#[test]
fn bad_blobs(rt: HostRuntime) -> Result<(), Fail> {
    let alloc = rt.alloc();
    let cases: [(u64, &[u8], &[u64], &[u8]); 5] = [
        (
            2,
            b"ho",
            &[],
            b"7 1 room $0 made 2\n8 1 land $0 ended wrong $1\n9 1 want 2 failed wrong $1\n",
        ),
        (
            3,
            b"hi",
            &[],
            b"7 1 room $0 made 3\n8 1 land $0 ended short 2\n9 1 want 2 failed short 2\n",
        ),
        (
            1,
            b"hi",
            &[],
            b"7 1 room $0 made 1\n8 1 put $0 ended long 1\n9 1 want 2 failed long 1\n",
        ),
        (
            2,
            b"hi",
            &[6],
            b"7 1 room $0 made 2\n8 1 miss $0 read\n9 1 want 2 failed read\n",
        ),
        (
            33_554_433,
            b"hi",
            &[],
            b"7 1 room $0 ended too-large 33554433\n8 1 want 2 failed too-large 33554433\n",
        ),
    ];
    let roots = [root_of(b"hi"), root_of(b"ho")];
    for (len, bytes, failing, end) in cases.iter() {
        let (shop, _) = example(alloc)?;
        let mut other = shop.without(roots[0]);
        other.file_under(roots[0], *len, bytes)?;
        let text = history_of(&rt, alloc, other, failing, EXAMPLE)?;
        assert!(rt; ends(alloc, &text, end, &roots)?);
    }
    Ok(())
}

#[test]
fn a_blob_is_absent(rt: HostRuntime) -> Result<(), Fail> {
    let alloc = rt.alloc();
    let (shop, _) = example(alloc)?;
    let root = root_of(b"hi");
    let text = history_of(&rt, alloc, shop.without(root), &[], EXAMPLE)?;
    let end = b"6 1 want 2 fetch $0\n7 1 miss $0 absent\n8 1 want 2 failed absent\n";
    assert!(rt; ends(alloc, &text, end, &[root])?);
    Ok(())
}

// Which package it is, and how the history ends.
#[test]
fn refusals(rt: HostRuntime) -> Result<(), Fail> {
    let alloc = rt.alloc();
    let root = root_of(b"hi");
    let pinned = with_roots(alloc, b"fuchsia-pkg://a/b?hash=$0", &[root])?;
    let cases: [(&[u8], &[u64], &[u8]); 3] = [
        (
            &pinned,
            &[],
            b"5 1 land $0 landed 2\n6 1 want 2 failed not-a-package\n",
        ),
        (
            b"fuchsia-pkg://a/none",
            &[],
            b"1 0 boot A\n2 1 begin none/0 not-found\n",
        ),
        (
            b"fuchsia-pkg://a/none",
            &[1],
            b"1 0 boot A\n2 1 begin none/0 listing-fault\n",
        ),
    ];
    for (url, failing, end) in cases.iter() {
        let (shop, _) = example(alloc)?;
        let text = history_of(&rt, alloc, shop, failing, url)?;
        assert!(rt; ends(alloc, &text, end, &[root])?);
    }
    Ok(())
}

// Lane 2 asks for this package. Whether its root is the lane's to fetch.
fn claim_by_another(store: &mut Store, path: &PackagePath, root: Root) -> bool
    requires fresh { of_lane 2 store.old.history ≡ [] }
    ensures others { LeavesOthers 2 store.old.history store.new.history }
{
    let mut desk = Lane::make(store, 2);
    let BeginReply::Made(ticket) = desk.begin(path, Choice::Pinned(root)) else {
        desk.alone();
        return false;
    };
    let claimed = matches!(desk.want(ticket), WantReply::Fetch(_, _));
    desk.alone();
    claimed
}

// Another lane fetches another package. Neither lane has to wait.
#[test]
fn another_lane_fetches(rt: HostRuntime) -> Result<(), Fail> {
    let alloc = rt.alloc();
    let (shop, package) = example(alloc)?;
    let other = read_url(alloc, b"fuchsia-pkg://a/other")?;
    let roots = [package, root_of(b"hi"), root_of(b"b"), root_of(b"other")];
    let mut scene = make_scene(alloc, shop, &[], EXAMPLE)?;
    if !claim_by_another(&mut scene.store, &other.path, roots[3]) {
        return Err(Fail::new("no claim"));
    }
    resolve_in(&rt, alloc, &mut scene);
    let text = text_of(alloc, &scene.store.into_history())?;
    assert!(rt; ends(alloc, &text, FETCHED_BESIDE, &roots)?);
    Ok(())
}
