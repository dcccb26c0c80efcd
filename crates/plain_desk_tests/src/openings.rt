//! Slots that don't boot.

use crate::says::add_system;
use crate::stores::{Slots, ample, only_a, open};
use abr_record::Slot;
use package_shop::Shop;
use pkg_merkle::root_of;
use pkg_names::Root;
use plain_desk::Opening;
use std::alloc::Global;
use std::test::Fail;
use system_lists::SystemFault;

// The blobs of a system of an empty list, and of a package that is none; the system, and the package.
fn world(alloc: Global) -> Result<(Shop, [Root; 2]), Fail> {
    let mut shop = Shop::new(alloc);
    let system = add_system(&mut shop, b"")?;
    let package = shop.package_of(b"example", b"data/a", b"hi")?;
    Ok((shop, [system, package]))
}

// How a store opens that has the blobs of this shop, and this system in A alone.
fn opening_of(alloc: Global, shop: &Shop, system: Root) -> Result<Opening, Fail> {
    open(alloc, ample(), shop.files(), &only_a(system, 1))
}

// The slot that the record boots has no system.
#[test]
fn a_slot_without_a_system(rt: HostRuntime) -> Result<(), Fail> {
    let alloc = rt.alloc();
    let (shop, [system, _]) = world(alloc)?;
    let slots = Slots {
        a: None,
        ..only_a(system, 1)
    };
    let opening = open(alloc, ample(), shop.files(), &slots)?;
    assert!(rt; matches!(opening, Opening::NoSystem { slot: Slot::A }));
    Ok(())
}

// The system package isn't stored, or its list isn't.
#[test]
fn a_system_that_is_not_stored(rt: HostRuntime) -> Result<(), Fail> {
    let alloc = rt.alloc();
    for root in [world(alloc)?.1[0], root_of(b"")] {
        let (shop, [system, _]) = world(alloc)?;
        let lacks = match opening_of(alloc, &shop.without(root), system)? {
            Opening::Missing {
                slot: Slot::A,
                root,
            } => Some(root),
            _ => None,
        };
        assert!(rt; lacks == Some(root));
    }
    Ok(())
}

// The package of the system has no static list.
#[test]
fn a_system_without_a_list(rt: HostRuntime) -> Result<(), Fail> {
    let alloc = rt.alloc();
    let (shop, [_, package]) = world(alloc)?;
    let why = match opening_of(alloc, &shop, package)? {
        Opening::Faulty { slot: Slot::A, why } => Some(why),
        _ => None,
    };
    assert!(rt; why == Some(SystemFault::NoStatic));
    Ok(())
}
