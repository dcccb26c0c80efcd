//! Room for blobs, at a store with little of it that runs a system of an empty list.

use crate::hall::Hall;
use crate::says::{add_system, says};
use crate::stores::{ample, only_a};
use image_layout::Geometry;
use lane_steps::Step;
use package_indexes::Choice;
use package_shop::Shop;
use pkg_merkle::root_of;
use pkg_names::Root;
use std::alloc::Global;
use std::test::Fail;

// A system of four pages in two blobs, and a blob of one page that nobody names; the system, a package that isn't
// stored, and the blob.
fn with_a_stray(alloc: Global) -> Result<(Shop, [Root; 3]), Fail> {
    let mut shop = Shop::new(alloc);
    let system = add_system(&mut shop, b"")?;
    let package = shop.package_of(b"example", b"data/a", b"hi")?;
    let mut shop = shop.without(root_of(b"hi")).without(package);
    let stray = shop.file(b"stray")?;
    Ok((shop, [system, package, stray]))
}

// Three pages don't fit into two that are free. They do once a collection has freed one more, and then nothing else
// fits.
#[test]
fn pages_run_out(rt: HostRuntime) -> Result<(), Fail> {
    let alloc = rt.alloc();
    let (shop, roots) = with_a_stray(alloc)?;
    let ask = Step::Begin(b"example", Choice::Listed(roots[1]));
    let steps = [
        (1, ask),
        (1, Step::Want),
        (1, Step::Room(12288)),
        (1, Step::Want),
        (1, Step::Collect),
        (1, ask),
        (1, Step::Want),
        (1, Step::Room(12288)),
        (2, Step::Begin(b"other", Choice::Pinned(root_of(b"b")))),
        (2, Step::Want),
        (2, Step::Room(1)),
        (2, Step::Want),
    ];
    let geometry = Geometry {
        data_pages: 7,
        ..ample()
    };
    let hall = Hall::boot_in(alloc, geometry, shop.files(), &only_a(roots[0], 1))?;
    let want = b"1 0 boot A
2 1 begin example/0 ticket $1
3 1 want 2 fetch $1
4 1 room $1 ended no-space 3 2
5 1 want 2 failed no-space 3 2
6 1 collect removed 1 $2
7 1 begin example/0 ticket $1
8 1 want 7 fetch $1
9 1 room $1 made 12288
10 2 begin other/0 ticket $3
11 2 want 10 fetch $3
12 2 room $3 ended no-space 1 0
13 2 want 10 failed no-space 1 0
";
    let [system, package, stray] = roots;
    let roots = [system, package, stray, root_of(b"b")];
    assert!(rt; says(alloc, hall, &steps, want, &roots)?);
    Ok(())
}

// The blobs are as many as may be stored, until a collection has removed one.
#[test]
fn entries_run_out(rt: HostRuntime) -> Result<(), Fail> {
    let alloc = rt.alloc();
    let (shop, roots) = with_a_stray(alloc)?;
    let ask = Step::Begin(b"example", Choice::Listed(roots[1]));
    let steps = [
        (1, ask),
        (1, Step::Want),
        (1, Step::Room(12288)),
        (1, Step::Want),
        (1, Step::Collect),
        (1, ask),
        (1, Step::Want),
        (1, Step::Room(12288)),
    ];
    let geometry = Geometry {
        blobs: 3,
        ..ample()
    };
    let hall = Hall::boot_in(alloc, geometry, shop.files(), &only_a(roots[0], 1))?;
    let want = b"1 0 boot A
2 1 begin example/0 ticket $1
3 1 want 2 fetch $1
4 1 room $1 ended no-node
5 1 want 2 failed no-node
6 1 collect removed 1 $2
7 1 begin example/0 ticket $1
8 1 want 7 fetch $1
9 1 room $1 made 12288
";
    assert!(rt; says(alloc, hall, &steps, want, &roots)?);
    Ok(())
}
