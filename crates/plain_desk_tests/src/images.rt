//! Files that are long, and systems that don't stand.

use crate::hall::Hall;
use crate::says::{add_system, says};
use crate::stores::{ample, only_a, sum_of, system};
use image_layout::{Geometry, ImageKind, Sys};
use lane_steps::{Copied, Step};
use package_indexes::Choice;
use package_shop::{Shop, push_line};
use pkg_merkle::root_of;
use pkg_names::{Bytes, Root};
use std::alloc::Global;
use std::test::Fail;
use system_lists::{ManifestFault, ManifestFile};

// A system, and a package whose one file has so many bytes; the system, and the package.
fn with_a_file(alloc: Global, path: &[u8], bytes: &[u8]) -> Result<(Shop, [Root; 2]), Fail> {
    let mut shop = Shop::new(alloc);
    let system = add_system(&mut shop, b"")?;
    let package = shop.package_of(b"images", path, bytes)?;
    Ok((shop, [system, package]))
}

fn zeros(alloc: Global, len: usize) -> Result<Bytes, Fail> {
    Ok(Bytes::make(vec![in alloc; 0; len]?))
}

// A file of two parts fills an image, and is too large for the other one.
#[test]
fn an_image_of_two_parts(rt: HostRuntime) -> Result<(), Fail> {
    let alloc = rt.alloc();
    let bytes = zeros(alloc, 65_537)?;
    let (shop, roots) = with_a_file(alloc, b"zbi", bytes.as_slice())?;
    let sys = Sys {
        zbi: sum_of(bytes.as_slice()),
        ..system(roots[0], 2)
    };
    let steps = [
        (1, Step::Begin(b"images", Choice::Pinned(roots[1]))),
        (1, Step::Want),
        (1, Step::Stage(2)),
        (1, Step::Copy(ImageKind::Zbi, 9, b"zbi", Copied::Nothing)),
        (1, Step::Copy(ImageKind::Vbmeta, 3, b"zbi", Copied::Nothing)),
        (
            1,
            Step::Copy(ImageKind::Zbi, 3, b"zbi", Copied::More(65_536)),
        ),
        (
            1,
            Step::Copy(ImageKind::Zbi, 3, b"zbi", Copied::Whole(65_537)),
        ),
        (1, Step::Seal(sys)),
    ];
    let geometry = Geometry {
        slot_pages: 17,
        ..ample()
    };
    let hall = Hall::boot_in(alloc, geometry, shop.files(), &only_a(roots[0], 1))?;
    let want = b"1 0 boot A
2 1 begin images/0 ticket $1
3 1 want 2 opened
4 1 stage 2 turn B
5 1 copy zbi 9 zbi bad-dir
6 1 copy vbmeta 3 zbi too-large 65537 65536
7 1 seal sealed
";
    assert!(rt; says(alloc, hall, &steps, want, &roots)?);
    Ok(())
}

// The file of the archive in which the name of the package stands.
const NAMED: &[u8] = b"{\"name\":\"images\",\"version\":\"0\"}";

// A file of the archive is read, checked and copied like one that is a blob.
#[test]
fn a_file_of_the_archive(rt: HostRuntime) -> Result<(), Fail> {
    let alloc = rt.alloc();
    let (shop, roots) = with_a_file(alloc, b"data/a", b"hi")?;
    let sys = Sys {
        zbi: sum_of(NAMED),
        ..system(roots[0], 2)
    };
    let steps = [
        (1, Step::Begin(b"images", Choice::Pinned(roots[1]))),
        (1, Step::Want),
        (1, Step::Read(3, b"meta/package")),
        (1, Step::Check(3, b"meta/package")),
        (1, Step::Stage(2)),
        (
            1,
            Step::Copy(ImageKind::Zbi, 3, b"meta/package", Copied::Whole(31)),
        ),
        (1, Step::Seal(sys)),
    ];
    let hall = Hall::boot(alloc, shop.files(), &only_a(roots[0], 1))?;
    let want = b"1 0 boot A
2 1 begin images/0 ticket $0
3 1 want 2 opened
4 1 read 3 meta/package bytes 31 7b226e616d65223a22696d61676573222c2276657273696f6e223a2230227d
5 1 check 3 meta/package checked $1 31
6 1 stage 2 turn B
7 1 seal sealed
";
    assert!(rt; says(alloc, hall, &steps, want, &[roots[1], root_of(NAMED)])?);
    Ok(())
}

// A file that is too long to be read whole can be checked.
#[test]
fn a_long_file(rt: HostRuntime) -> Result<(), Fail> {
    let alloc = rt.alloc();
    let bytes = zeros(alloc, 262_145)?;
    let long = Shop::new(alloc).file(bytes.as_slice())?;
    let (shop, roots) = with_a_file(alloc, b"data/a", bytes.as_slice())?;
    let steps = [
        (1, Step::Begin(b"images", Choice::Pinned(roots[1]))),
        (1, Step::Want),
        (1, Step::Read(3, b"data/a")),
        (1, Step::Check(3, b"data/a")),
    ];
    let hall = Hall::boot(alloc, shop.files(), &only_a(roots[0], 1))?;
    let want = b"1 0 boot A
2 1 begin images/0 ticket $1
3 1 want 2 opened
4 1 read 3 data/a too-long 262145
5 1 check 3 data/a checked $2 262145
";
    let roots = [roots[0], roots[1], long];
    assert!(rt; says(alloc, hall, &steps, want, &roots)?);
    Ok(())
}

// A system that lacks a base package, and one without a list. What is wrong with a manifest is noted.
#[test]
fn systems_that_do_not_stand(rt: HostRuntime) -> Result<(), Fail> {
    let alloc = rt.alloc();
    let (mut shop, roots) = with_a_file(alloc, b"data/a", b"hi")?;
    let mut list = Vec::new(alloc);
    push_line(&mut list, b"none/0", &Root([17; 32]))?;
    let lacking = add_system(&mut shop, &list)?;
    let retained = [lacking, roots[1]];
    let steps = [
        (1, Step::Retain(&retained)),
        (1, Step::Stage(2)),
        (1, Step::Seal(system(lacking, 2))),
        (1, Step::Activate),
        (1, Step::LeaveStage),
        (1, Step::Stage(2)),
        (1, Step::Seal(system(roots[1], 2))),
        (1, Step::Activate),
        (1, Step::LeaveStage),
        (1, Step::Reject(ManifestFile::Images, ManifestFault::Json)),
    ];
    let hall = Hall::boot(alloc, shop.files(), &only_a(roots[0], 1))?;
    let want = b"1 0 boot A
2 1 retain 2 done
3 1 stage 2 turn B
4 1 seal sealed
5 1 activate base-missing $0
6 1 leave-stage
7 1 stage 2 turn B
8 1 seal sealed
9 1 activate not-a-system
10 1 leave-stage
11 1 reject images.json
";
    assert!(rt; says(alloc, hall, &steps, want, &[Root([17; 32])])?);
    Ok(())
}
