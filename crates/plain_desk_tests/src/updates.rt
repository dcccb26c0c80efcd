//! An update by hand, and the boots after it.

use crate::hall::Hall;
use crate::says::{add_system, says};
use crate::stores::{Slots, only_a, sum_of, system};
use abr_record::{Record, SlotRecord, factory};
use image_layout::{ImageKind, Sys};
use lane_steps::{Copied, Step};
use package_indexes::Choice;
use package_shop::{Shop, push_line, with_roots};
use pkg_merkle::root_of;
use pkg_names::{Bytes, Root};
use std::alloc::Global;
use std::test::Fail;

const ZBI: &[u8] = b"zbi-1";

// A running system of an empty list, a new one of one base package, and the package of its images.
#[derive(Drop)]
struct World {
    shop: Shop,
    running: Root,
    based: Root,
    new: Root,
    list: Root,
    images: Root,
}

fn make_world(alloc: Global) -> Result<World, Fail> {
    let mut shop = Shop::new(alloc);
    let running = add_system(&mut shop, b"")?;
    let based = shop.package_of(b"based", b"data/a", b"hi")?;
    let mut list = Vec::new(alloc);
    push_line(&mut list, b"based/0", &based)?;
    let list_root = shop.file(list.as_slice())?;
    let new = add_system(&mut shop, list.as_slice())?;
    let images = shop.package_of(b"images", b"zbi", ZBI)?;
    Ok(World {
        shop,
        running,
        based,
        new,
        list: list_root,
        images,
    })
}

// The roots as texts name them.
fn roots_of(world: &World) -> [Root; 9] {
    [
        world.running,
        world.based,
        world.new,
        world.list,
        world.images,
        root_of(b""),
        root_of(b"hi"),
        root_of(ZBI),
        Root(sum_of(ZBI).sha),
    ]
}

fn next_system(world: &World) -> Sys {
    Sys {
        zbi: sum_of(ZBI),
        ..system(world.new, 2)
    }
}

// A runs, and B could be booted: nothing is removed, retained or staged until A is committed.
#[test]
fn another_slot_can_be_booted(rt: HostRuntime) -> Result<(), Fail> {
    let alloc = rt.alloc();
    let world = make_world(alloc)?;
    let retained = [world.new, world.based];
    let steps = [
        (1, Step::Collect),
        (1, Step::Retain(&retained)),
        (2, Step::Stage(2)),
        (2, Step::Commit),
        (1, Step::Commit),
        (1, Step::Retain(&retained)),
        (1, Step::Collect),
        (2, Step::Stage(2)),
    ];
    let slots = two_slots(&world);
    let mut hall = Hall::boot(alloc, world.shop.files(), &slots)?;
    hall.run(&steps)?;
    let ended = hall.reboot()?;
    let want = b"1 0 boot A
2 1 collect not-committed
3 1 retain 2 slot-in-use
4 2 stage 2 not-committed
5 2 commit committed
6 1 commit not-pending
7 1 retain 2 done
8 1 collect removed 2 $7 $4
9 2 stage 2 turn B
";
    let roots = roots_of(&world);
    assert!(rt; ended.0.as_slice() == with_roots(alloc, want, &roots)?.as_slice());
    let steps = [(1, Step::Commit)];
    let want = b"1 0 boot A\n2 1 commit not-pending\n";
    assert!(rt; says(alloc, ended.1, &steps, want, &roots)?);
    Ok(())
}

// The running system in A, which has succeeded, and the new one in B, which has tries left.
fn two_slots(world: &World) -> Slots {
    let tried = SlotRecord {
        priority: 14,
        tries: 7,
        successful: false,
    };
    Slots {
        abr: Record {
            b: tried,
            ..factory()
        },
        b: Some(next_system(world)),
        ..only_a(world.running, 1)
    }
}

// Another lane finds the update under way. What is staged keeps its base in a collection, and nothing else can be
// retained until a second update has taken the slot again.
#[test]
fn an_update_is_made_by_hand(rt: HostRuntime) -> Result<(), Fail> {
    let alloc = rt.alloc();
    let world = make_world(alloc)?;
    let sys = next_system(&world);
    let retained = [world.new, world.based];
    let steps = [
        (1, Step::Retain(&retained)),
        (1, Step::Begin(b"images", Choice::Pinned(world.images))),
        (1, Step::Want),
        (1, Step::Stage(2)),
        (2, Step::Stage(2)),
        (
            1,
            Step::Copy(ImageKind::Zbi, 4, b"nothing", Copied::Nothing),
        ),
        (1, Step::Seal(sys)),
        (1, Step::Copy(ImageKind::Zbi, 4, b"zbi", Copied::Whole(5))),
        (1, Step::Seal(sys)),
        (1, Step::Activate),
        (2, Step::Stage(2)),
        (1, Step::LeaveStage),
        (1, Step::Close(4)),
        (2, Step::Retain(&[])),
        (2, Step::Commit),
        (2, Step::Collect),
        (2, Step::Stage(3)),
        (1, Step::Retain(&[])),
        (1, Step::Collect),
    ];
    let hall = Hall::boot(alloc, world.shop.files(), &only_a(world.running, 1))?;
    let want = b"1 0 boot A
2 1 retain 2 done
3 1 begin images/0 ticket $4
4 1 want 3 opened
5 1 stage 2 turn B
6 2 stage 2 busy 1
7 1 copy zbi 4 nothing no-file
8 1 seal differs zbi 0 e3b0c44298fc1c149afbf4c8996fb92427ae41e4649b934ca495991b7852b855
9 1 seal sealed
10 1 activate active B
11 2 stage 2 busy 1
12 1 leave-stage
13 1 close 4 closed
14 2 retain 0 slot-in-use
15 2 commit not-pending
16 2 collect removed 0
17 2 stage 3 turn B
18 1 retain 0 done
19 1 collect removed 4 $6 $1 $3 $2
";
    assert!(rt; says(alloc, hall, &steps, want, &roots_of(&world))?);
    Ok(())
}

// The store that boots from what an update has left. The update made the new system the one that boots next.
fn updated(alloc: Global, world: &World) -> Result<Hall, Fail> {
    let retained = [world.new, world.based];
    let steps = [
        (1, Step::Retain(&retained)),
        (1, Step::Begin(b"images", Choice::Pinned(world.images))),
        (1, Step::Want),
        (1, Step::Stage(2)),
        (1, Step::Copy(ImageKind::Zbi, 4, b"zbi", Copied::Whole(5))),
        (1, Step::Seal(next_system(world))),
        (1, Step::Activate),
    ];
    let mut hall = Hall::boot(alloc, world.shop.files(), &only_a(world.running, 1))?;
    hall.run(&steps)?;
    let ended = hall.reboot()?;
    Ok(ended.1)
}

// B boots as long as it has tries; then A does, and what B alone needs can go.
#[test]
fn seven_boots_and_the_eighth(rt: HostRuntime) -> Result<(), Fail> {
    let alloc = rt.alloc();
    let world = make_world(alloc)?;
    let mut hall = updated(alloc, &world)?;
    let steps = [(1, Step::Collect)];
    for _ in 0..7 {
        hall.run(&steps)?;
        let ended = hall.reboot()?;
        assert!(rt; ended.0.as_slice() == b"1 0 boot B\n2 1 collect not-committed\n".as_slice());
        hall = ended.1;
    }
    let want = b"1 0 boot A\n2 1 collect removed 6 $6 $1 $3 $2 $7 $4\n";
    assert!(rt; says(alloc, hall, &steps, want, &roots_of(&world))?);
    Ok(())
}

// What an update has filled is handed from boot to boot, until the next stage clears it.
#[test]
fn images_last(rt: HostRuntime) -> Result<(), Fail> {
    let alloc = rt.alloc();
    let world = make_world(alloc)?;
    let ended = updated(alloc, &world)?.reboot()?;
    assert!(rt; ended.1.has_images_of(&next_system(&world)));
    let mut hall = at_the_seventh_boot(alloc, &world)?;
    hall.run(&[(1, Step::Commit), (1, Step::Stage(2))])?;
    assert!(rt; hall.has_images_of(&system(world.new, 2)));
    Ok(())
}

// The store that boots for the seventh time after an update.
fn at_the_seventh_boot(alloc: Global, world: &World) -> Result<Hall, Fail> {
    let mut hall = updated(alloc, world)?;
    for _ in 1..7 {
        let ended = hall.reboot()?;
        hall = ended.1;
    }
    Ok(hall)
}

// The last boot of B commits it: the other slot can't be booted any more, and what it alone needs can go. B boots from
// what then lasts.
#[test]
fn the_seventh_boot_commits(rt: HostRuntime) -> Result<(), Fail> {
    let alloc = rt.alloc();
    let world = make_world(alloc)?;
    let steps = [
        (1, Step::Stage(3)),
        (1, Step::Retain(&[])),
        (1, Step::Open(b"based")),
        (1, Step::Commit),
        (1, Step::Retain(&[])),
        (1, Step::Stage(1)),
        (1, Step::Collect),
        (1, Step::Commit),
    ];
    let mut hall = at_the_seventh_boot(alloc, &world)?;
    hall.run(&steps)?;
    let ended = hall.reboot()?;
    let want = b"1 0 boot B
2 1 stage 3 not-committed
3 1 retain 0 slot-in-use
4 1 open based/0 opened $1
5 1 commit committed
6 1 retain 0 done
7 1 stage 1 older 2
8 1 collect removed 4 $5 $0 $7 $4
9 1 commit not-pending
";
    let roots = roots_of(&world);
    assert!(rt; ended.0.as_slice() == with_roots(alloc, want, &roots)?.as_slice());
    let steps = [(1, Step::Stage(2)), (2, Step::Commit)];
    let want = b"1 0 boot B\n2 1 stage 2 turn A\n3 2 commit not-pending\n";
    assert!(rt; says(alloc, ended.1, &steps, want, &roots)?);
    Ok(())
}
