//! Lanes at a store that runs a system of an empty list.

use crate::hall::Hall;
use crate::says::{add_system, says};
use crate::stores::only_a;
use lane_steps::Step;
use package_indexes::Choice;
use package_shop::Shop;
use pkg_merkle::root_of;
use pkg_names::{Bytes, Root};
use std::alloc::Global;
use std::test::Fail;
use store_model::Miss;

// A store that lacks the one file of a package whose meta blob it has, and the package.
fn short_of_a_file(alloc: Global) -> Result<(Hall, Root), Fail> {
    let mut shop = Shop::new(alloc);
    let system = add_system(&mut shop, b"")?;
    let package = shop.package_of(b"example", b"data/a", b"hi")?;
    let shop = shop.without(root_of(b"hi"));
    let hall = Hall::boot(alloc, shop.files(), &only_a(system, 1))?;
    Ok((hall, package))
}

// The second lane waits while the first fetches what both lack. A miss marks both, and not the ticket that comes after.
#[test]
fn a_miss_marks_who_waits(rt: HostRuntime) -> Result<(), Fail> {
    let alloc = rt.alloc();
    let (hall, package) = short_of_a_file(alloc)?;
    let ask = Step::Begin(b"example", Choice::Listed(package));
    let steps = [
        (1, ask),
        (1, Step::Want),
        (2, ask),
        (2, Step::Want),
        (2, Step::Pause(0)),
        (1, Step::Miss(Miss::Read)),
        (1, Step::Want),
        (2, Step::Want),
        (3, ask),
        (3, Step::Want),
        (3, Step::Room(2)),
        (3, Step::Land(b"hi")),
        (3, Step::Want),
    ];
    let want = b"1 0 boot A
2 1 begin example/0 ticket $0
3 1 want 2 fetch $1
4 2 begin example/0 ticket $0
5 1 miss $1 read
6 1 want 2 failed read
7 2 want 4 failed read
8 3 begin example/0 ticket $0
9 3 want 8 fetch $1
10 3 room $1 made 2
11 3 land $1 landed 2
12 3 want 8 opened
";
    assert!(rt; says(alloc, hall, &steps, want, &[package, root_of(b"hi")])?);
    Ok(())
}

// After a miss for memory another lane is granted the blob, and the first one waits.
#[test]
fn a_miss_for_memory_marks_nobody(rt: HostRuntime) -> Result<(), Fail> {
    let alloc = rt.alloc();
    let (hall, package) = short_of_a_file(alloc)?;
    let ask = Step::Begin(b"example", Choice::Listed(package));
    let steps = [
        (1, ask),
        (1, Step::Want),
        (2, ask),
        (2, Step::Want),
        (1, Step::Miss(Miss::Memory)),
        (2, Step::Want),
        (1, Step::Want),
        (1, Step::GiveUp),
        (2, Step::Room(2)),
        (2, Step::Land(b"hi")),
        (2, Step::Want),
    ];
    let want = b"1 0 boot A
2 1 begin example/0 ticket $0
3 1 want 2 fetch $1
4 2 begin example/0 ticket $0
5 1 miss $1 memory
6 2 want 4 fetch $1
7 1 give-up 2
8 2 room $1 made 2
9 2 land $1 landed 2
10 2 want 4 opened
";
    assert!(rt; says(alloc, hall, &steps, want, &[package, root_of(b"hi")])?);
    Ok(())
}

// A blob of two packages is granted once, and both packages are opened.
#[test]
fn a_blob_of_two_packages_is_fetched_once(rt: HostRuntime) -> Result<(), Fail> {
    let alloc = rt.alloc();
    let mut shop = Shop::new(alloc);
    let system = add_system(&mut shop, b"")?;
    let one = shop.package_of(b"one", b"data/a", b"hi")?;
    let two = shop.package_of(b"two", b"data/a", b"hi")?;
    let steps = [
        (1, Step::Begin(b"one", Choice::Listed(one))),
        (2, Step::Begin(b"two", Choice::Listed(two))),
        (1, Step::Want),
        (2, Step::Want),
        (1, Step::Room(2)),
        (2, Step::Want),
        (1, Step::Land(b"hi")),
        (2, Step::Want),
        (1, Step::Want),
    ];
    let shop = shop.without(root_of(b"hi"));
    let hall = Hall::boot(alloc, shop.files(), &only_a(system, 1))?;
    let want = b"1 0 boot A
2 1 begin one/0 ticket $0
3 2 begin two/0 ticket $1
4 1 want 2 fetch $2
5 1 room $2 made 2
6 1 land $2 landed 2
7 2 want 3 opened
8 1 want 2 opened
";
    assert!(rt; says(alloc, hall, &steps, want, &[one, two, root_of(b"hi")])?);
    Ok(())
}

// A directory can be used by the lane that opened it, until that closes it.
#[test]
fn directories_are_a_lanes_own(rt: HostRuntime) -> Result<(), Fail> {
    let alloc = rt.alloc();
    let mut shop = Shop::new(alloc);
    let system = add_system(&mut shop, b"")?;
    let package = shop.package_of(b"example", b"data/a", b"hi")?;
    let steps = [
        (1, Step::Begin(b"example", Choice::Listed(package))),
        (1, Step::Want),
        (2, Step::Read(3, b"data/a")),
        (2, Step::Check(3, b"data/a")),
        (2, Step::Close(3)),
        (1, Step::Read(3, b"data/a")),
        (1, Step::Check(3, b"data/a")),
        (1, Step::Read(3, b"nothing")),
        (1, Step::Check(3, b"nothing")),
        (1, Step::Close(3)),
        (1, Step::Read(3, b"data/a")),
        (2, Step::Open(b"none")),
        (2, Step::Open(b"system_image")),
        (2, Step::Open(b"example")),
    ];
    let hall = Hall::boot(alloc, shop.files(), &only_a(system, 1))?;
    let want = b"1 0 boot A
2 1 begin example/0 ticket $0
3 1 want 2 opened
4 2 read 3 data/a bad-dir
5 2 check 3 data/a bad-dir
6 2 close 3 bad-dir
7 1 read 3 data/a bytes 2 6869
8 1 check 3 data/a checked $1 2
9 1 read 3 nothing no-file
10 1 check 3 nothing no-file
11 1 close 3 closed
12 1 read 3 data/a bad-dir
13 2 open none/0 not-here
14 2 open system_image/0 opened $2
15 2 open example/0 opened $0
";
    assert!(rt;
        says(
            alloc,
            hall,
            &steps,
            want,
            &[package, root_of(b"hi"), system]
        )?
    );
    Ok(())
}

// Collections of one lane between another's landings leave the blobs of the package that arrives, and take a blob that
// nobody names.
#[test]
fn collections_spare_what_arrives(rt: HostRuntime) -> Result<(), Fail> {
    let alloc = rt.alloc();
    let mut shop = Shop::new(alloc);
    let system = add_system(&mut shop, b"")?;
    let package = shop.package_of(b"example", b"data/a", b"hi")?;
    let shop = shop.without(root_of(b"hi"));
    let meta = meta_of(alloc, &shop, package)?;
    let mut shop = shop.without(package);
    let stray = shop.file(b"stray")?;
    let steps = [
        (2, Step::Begin(b"example", Choice::Listed(package))),
        (2, Step::Want),
        (1, Step::Collect),
        (2, Step::Room(12288)),
        (2, Step::Land(meta.as_slice())),
        (1, Step::Collect),
        (2, Step::Want),
        (2, Step::Room(2)),
        (1, Step::Collect),
        (2, Step::Land(b"hi")),
        (1, Step::Collect),
        (2, Step::Want),
        (2, Step::Close(13)),
        (1, Step::Collect),
    ];
    let hall = Hall::boot(alloc, shop.files(), &only_a(system, 1))?;
    let want = b"1 0 boot A
2 2 begin example/0 ticket $0
3 2 want 2 fetch $0
4 1 collect removed 1 $2
5 2 room $0 made 12288
6 2 land $0 landed 12288
7 1 collect removed 0
8 2 want 2 fetch $1
9 2 room $1 made 2
10 1 collect removed 0
11 2 land $1 landed 2
12 1 collect removed 0
13 2 want 2 opened
14 2 close 13 closed
15 1 collect removed 0
";
    assert!(rt; says(alloc, hall, &steps, want, &[package, root_of(b"hi"), stray])?);
    Ok(())
}

// The bytes of the file under this root.
fn meta_of(alloc: Global, shop: &Shop, root: Root) -> Result<Bytes, Fail> {
    for file in shop.files() {
        if file.root == root {
            return Ok(file.bytes.try_copy(alloc)?);
        }
    }
    Err(Fail::new("no file"))
}

// What is replaced under its path stays while it is open or retained.
#[test]
fn a_replaced_package_stays_while_it_is_used(rt: HostRuntime) -> Result<(), Fail> {
    let alloc = rt.alloc();
    let mut shop = Shop::new(alloc);
    let system = add_system(&mut shop, b"")?;
    let old = shop.package_of(b"p", b"data/a", b"old")?;
    let new = shop.package_of(b"p", b"data/a", b"new")?;
    let retained = [old];
    let steps = [
        (1, Step::Begin(b"p", Choice::Pinned(old))),
        (1, Step::Want),
        (2, Step::Begin(b"p", Choice::Pinned(new))),
        (2, Step::Want),
        (2, Step::Collect),
        (2, Step::Retain(&retained)),
        (1, Step::Close(3)),
        (2, Step::Collect),
        (2, Step::Retain(&[])),
        (2, Step::Collect),
        (1, Step::Collect),
    ];
    let hall = Hall::boot(alloc, shop.files(), &only_a(system, 1))?;
    let want = b"1 0 boot A
2 1 begin p/0 ticket $0
3 1 want 2 opened
4 2 begin p/0 ticket $1
5 2 want 4 opened
6 2 collect removed 0
7 2 retain 1 done
8 1 close 3 closed
9 2 collect removed 0
10 2 retain 0 done
11 2 collect removed 2 $2 $0
12 1 collect removed 0
";
    assert!(rt; says(alloc, hall, &steps, want, &[old, new, root_of(b"old")])?);
    Ok(())
}
