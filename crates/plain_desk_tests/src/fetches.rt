//! How fetches end, at a store that runs a system of an empty list.

use crate::hall::Hall;
use crate::says::{add_system, says};
use crate::stores::only_a;
use lane_steps::Step;
use package_indexes::Choice;
use package_shop::Shop;
use pkg_merkle::root_of;
use pkg_names::Root;
use std::alloc::Global;
use std::test::Fail;

// A store that has a package without its one file `hi`, and the package.
fn short_of_a_file(alloc: Global) -> Result<(Hall, Root), Fail> {
    let mut shop = Shop::new(alloc);
    let system = add_system(&mut shop, b"")?;
    let package = shop.package_of(b"example", b"data/a", b"hi")?;
    let shop = shop.without(root_of(b"hi"));
    Ok((
        Hall::boot(alloc, shop.files(), &only_a(system, 1))?,
        package,
    ))
}

// More bytes than were declared, and fewer.
#[test]
fn bytes_are_as_many_as_declared(rt: HostRuntime) -> Result<(), Fail> {
    let alloc = rt.alloc();
    let (hall, package) = short_of_a_file(alloc)?;
    let ask = Step::Begin(b"example", Choice::Listed(package));
    let steps = [
        (1, ask),
        (1, Step::Want),
        (1, Step::Room(1)),
        (1, Step::Land(b"hi")),
        (1, Step::Want),
        (1, ask),
        (1, Step::Want),
        (1, Step::Room(3)),
        (1, Step::Land(b"hi")),
        (1, Step::Want),
    ];
    let want = b"1 0 boot A
2 1 begin example/0 ticket $0
3 1 want 2 fetch $1
4 1 room $1 made 1
5 1 put $1 ended long 1
6 1 want 2 failed long 1
7 1 begin example/0 ticket $0
8 1 want 7 fetch $1
9 1 room $1 made 3
10 1 land $1 ended short 2
11 1 want 7 failed short 2
";
    let roots = [package, root_of(b"hi")];
    assert!(rt; says(alloc, hall, &steps, want, &roots)?);
    Ok(())
}

// Bytes of another root, and a blob that is declared longer than any may be.
#[test]
fn bytes_are_those_of_the_root(rt: HostRuntime) -> Result<(), Fail> {
    let alloc = rt.alloc();
    let (hall, package) = short_of_a_file(alloc)?;
    let ask = Step::Begin(b"example", Choice::Listed(package));
    let steps = [
        (1, ask),
        (1, Step::Want),
        (1, Step::Room(2)),
        (1, Step::Land(b"ho")),
        (1, Step::Want),
        (1, ask),
        (1, Step::Want),
        (1, Step::Room(33_554_433)),
        (1, Step::Want),
    ];
    let want = b"1 0 boot A
2 1 begin example/0 ticket $0
3 1 want 2 fetch $1
4 1 room $1 made 2
5 1 land $1 ended wrong $2
6 1 want 2 failed wrong $2
7 1 begin example/0 ticket $0
8 1 want 7 fetch $1
9 1 room $1 ended too-large 33554433
10 1 want 7 failed too-large 33554433
";
    let roots = [package, root_of(b"hi"), root_of(b"ho")];
    assert!(rt; says(alloc, hall, &steps, want, &roots)?);
    Ok(())
}

// The blob of a package's root lands, and is no archive.
#[test]
fn a_blob_that_is_no_package(rt: HostRuntime) -> Result<(), Fail> {
    let alloc = rt.alloc();
    let (hall, _) = short_of_a_file(alloc)?;
    let root = root_of(b"junk");
    let steps = [
        (1, Step::Begin(b"example", Choice::Pinned(root))),
        (1, Step::Want),
        (1, Step::Room(4)),
        (1, Step::Land(b"junk")),
        (1, Step::Want),
    ];
    let want = b"1 0 boot A
2 1 begin example/0 ticket $0
3 1 want 2 fetch $0
4 1 room $0 made 4
5 1 land $0 landed 4
6 1 want 2 failed not-a-package
";
    assert!(rt; says(alloc, hall, &steps, want, &[root])?);
    Ok(())
}
