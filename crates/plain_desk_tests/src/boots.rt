//! A boot with a base and a cached set, and one of recovery.

use crate::hall::Hall;
use crate::says::{add_system, says};
use crate::stores::{Slots, only_a, system};
use abr_record::{Record, factory};
use lane_steps::Step;
use package_indexes::Choice;
use package_shop::{Shop, push_line, with_roots};
use pkg_names::Root;
use std::alloc::Global;
use std::test::Fail;
use store_model::Miss;

// The cached list: a package that is stored, and one that isn't.
const CACHED: &[u8] = b"{\"version\":\"1\",\"content\":[\"fuchsia-pkg://a/kept?hash=$0\",\
\"fuchsia-pkg://a/lost?hash=1111111111111111111111111111111111111111111111111111111111111111\"]}";

// The blobs of a system with a base and a cached package; the system, the cached and the base package.
fn listed(alloc: Global) -> Result<(Shop, [Root; 3]), Fail> {
    let mut shop = Shop::new(alloc);
    let based = shop.package_of(b"based", b"data/a", b"hi")?;
    let kept = shop.package_of(b"kept", b"data/a", b"b")?;
    let mut list = Vec::new(alloc);
    push_line(&mut list, b"based/0", &based)?;
    let cached = with_roots(alloc, CACHED, &[kept])?;
    let mut lines = Vec::new(alloc);
    shop.line(&mut lines, b"data/cache_packages.json", &cached)?;
    shop.line(&mut lines, b"data/static_packages", &list)?;
    let system = shop.package(b"system_image", lines)?;
    Ok((shop, [system, kept, based]))
}

// Which root a path has: that of the pin, of the base, of the repository, of the cached set. What is open under a path
// comes before the cached package.
#[test]
fn a_base_and_a_cached_set(rt: HostRuntime) -> Result<(), Fail> {
    let alloc = rt.alloc();
    let (shop, roots) = listed(alloc)?;
    let [system, kept, based] = roots;
    let steps = [
        (1, Step::Open(b"based")),
        (1, Step::Open(b"kept")),
        (1, Step::Open(b"lost")),
        (2, Step::Begin(b"based", Choice::Listed(kept))),
        (2, Step::Want),
        (2, Step::Begin(b"kept", Choice::Absent)),
        (2, Step::Want),
        (2, Step::Begin(b"kept", Choice::Listed(based))),
        (2, Step::Want),
        (1, Step::Open(b"kept")),
        (2, Step::Begin(b"based", Choice::Pinned(kept))),
        (2, Step::Want),
        (1, Step::Open(b"based")),
        (1, Step::Begin(b"none", Choice::Absent)),
        (1, Step::Begin(b"none", Choice::Failed)),
        (1, Step::Begin(b"lost", Choice::Failed)),
        (1, Step::Want),
        (2, Step::Collect),
        (1, Step::Miss(Miss::Absent)),
        (1, Step::Want),
    ];
    let hall = Hall::boot(alloc, shop.files(), &only_a(system, 1))?;
    let want = b"1 0 boot A
2 1 open based/0 opened $2
3 1 open kept/0 opened $1
4 1 open lost/0 not-here
5 2 begin based/0 ticket $2
6 2 want 5 opened
7 2 begin kept/0 ticket $1
8 2 want 7 opened
9 2 begin kept/0 ticket $2
10 2 want 9 opened
11 1 open kept/0 opened $2
12 2 begin based/0 ticket $1
13 2 want 12 opened
14 1 open based/0 opened $2
15 1 begin none/0 not-found
16 1 begin none/0 listing-fault
17 1 begin lost/0 ticket $3
18 1 want 17 fetch $3
19 2 collect removed 0
20 1 miss $3 absent
21 1 want 17 failed absent
";
    let roots = [system, kept, based, Root([17; 32])];
    assert!(rt; says(alloc, hall, &steps, want, &roots)?);
    Ok(())
}

// Recovery has no packages, and takes no update.
#[test]
fn recovery(rt: HostRuntime) -> Result<(), Fail> {
    let alloc = rt.alloc();
    let mut shop = Shop::new(alloc);
    let root = add_system(&mut shop, b"")?;
    let slots = Slots {
        abr: Record {
            one_shot: 1,
            ..factory()
        },
        a: Some(system(root, 1)),
        b: None,
    };
    let steps = [
        (1, Step::Begin(b"example", Choice::Listed(root))),
        (2, Step::Stage(2)),
        (1, Step::Collect),
        (2, Step::Retain(&[])),
        (1, Step::Commit),
        (2, Step::Open(b"system_image")),
    ];
    let hall = Hall::boot(alloc, shop.files(), &slots)?;
    let want = b"1 0 boot R
2 1 begin example/0 in-recovery
3 2 stage 2 in-recovery
4 1 collect not-committed
5 2 retain 0 slot-in-use
6 1 commit not-pending
7 2 open system_image/0 not-here
";
    assert!(rt; says(alloc, hall, &steps, want, &[])?);
    Ok(())
}

// An update that is older than the running system.
#[test]
fn an_older_update(rt: HostRuntime) -> Result<(), Fail> {
    let alloc = rt.alloc();
    let mut shop = Shop::new(alloc);
    let root = add_system(&mut shop, b"")?;
    let hall = Hall::boot(alloc, shop.files(), &only_a(root, 3))?;
    let steps = [(1, Step::Stage(2)), (1, Step::Stage(3))];
    let want = b"1 0 boot A\n2 1 stage 2 older 3\n3 1 stage 3 turn B\n";
    assert!(rt; says(alloc, hall, &steps, want, &[])?);
    Ok(())
}
