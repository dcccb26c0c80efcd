use crate::damaged::DamagedLook;
use crate::systems::{ALL, BASE_FILE, FILE, System, Wrong, system_of};
use abr_record::{Record, Slot, factory, initial};
use boot_core::{BootStep, WholeFault, boot_step, whole};
use image_layout::{ImageSum, Sys};
use pkg_names::{Items, Root};
use std::alloc::Global;
use std::test::Fail;
use system_lists::{CachedFault, StaticFault, SystemFault};

fn sys_of(root: Root) -> Sys {
    let sum = ImageSum {
        len: 0,
        sha: [0; 32],
    };
    Sys {
        system: root,
        epoch: 1,
        zbi: sum,
        vbmeta: sum,
    }
}

// What is answered of the system.
fn fault_of(alloc: Global, built: &mut System) -> Option<WholeFault> {
    whole(alloc, &mut built.look, &sys_of(built.root)).err()
}

// What has to be answered where this is the first thing that is wrong.
fn fault_for(wrong: Wrong, built: &System) -> WholeFault {
    let long = SystemFault::LongList { len: 1_048_577 };
    let why = match wrong {
        Wrong::NoSystem => return WholeFault::BaseMissing { root: built.root },
        Wrong::NoBook => SystemFault::NoBook,
        Wrong::NoStatic => SystemFault::NoStatic,
        Wrong::NoFile => return WholeFault::BaseMissing { root: FILE },
        Wrong::LongStatic => long,
        Wrong::BadStatic => SystemFault::BadStatic(StaticFault::Line { n: 1 }),
        Wrong::LongCached => long,
        Wrong::BadCached => SystemFault::BadCached(CachedFault::Json),
        Wrong::NoBase => {
            return WholeFault::BaseMissing {
                root: built.base[0],
            };
        }
        Wrong::NoBaseBook => SystemFault::BadBase {
            root: built.base[1],
        },
        Wrong::NoBaseFile => return WholeFault::BaseMissing { root: BASE_FILE },
    };
    WholeFault::NotASystem { why }
}

// Each fault is answered where it and all that counts later are there.
#[test]
fn faults_in_order(rt: HostRuntime) -> Result<(), Fail> {
    let alloc = rt.alloc();
    for (place, wrong) in ALL.iter().enumerate() {
        let mut built = system_of(alloc, &ALL[place..], true, Vec::new(alloc))?;
        let fault = fault_of(alloc, &mut built);
        assert_eq!(rt; fault, Some(fault_for(*wrong, &built)), "{wrong:?}");
    }
    Ok(())
}

#[test]
fn whole_systems(rt: HostRuntime) -> Result<(), Fail> {
    let alloc = rt.alloc();
    // with its cached list and without, and how many blobs are looked at: two packages of the base are one
    for (cached, seen) in [(true, 5), (false, 4)] {
        let mut built = system_of(alloc, &[], cached, Vec::new(alloc))?;
        let Ok(found) = whole(alloc, &mut built.look, &sys_of(built.root)) else {
            return Err(Fail::new("not whole"));
        };
        let base = found.base.as_slice();
        assert_eq!(rt; base.len(), 4);
        assert_eq!(rt; base[0].root, built.root);
        assert_eq!(rt; base[3].root, built.base[2]);
        assert_eq!(rt; found.cached.as_slice().len(), usize::from(cached));
        assert_eq!(rt; found.seen.as_slice().len(), seen);
    }
    Ok(())
}

// The reads of the system package, of the static list, of two packages of the base and of the cached list.
#[test]
fn failing_reads(rt: HostRuntime) -> Result<(), Fail> {
    let alloc = rt.alloc();
    for first in 1..7u64 {
        let failing = vec![in alloc; first, first + 1, first + 2, first + 3]?;
        let mut built = system_of(alloc, &[], true, failing)?;
        let fault = fault_of(alloc, &mut built);
        let wanted = if first < 6 {
            Some(WholeFault::Read)
        } else {
            None
        };
        assert_eq!(rt; fault, wanted, "{first}");
    }
    // the first package of the base is missing, and the others can't be read
    let failing = vec![in alloc; 3, 4, 5, 6]?;
    let mut built = system_of(alloc, &[Wrong::NoBase, Wrong::BadCached], false, failing)?;
    let missing = WholeFault::BaseMissing {
        root: built.base[0],
    };
    assert_eq!(rt; fault_of(alloc, &mut built), Some(missing));
    Ok(())
}

#[test]
fn rotten_blobs(rt: HostRuntime) -> Result<(), Fail> {
    let alloc = rt.alloc();
    let root = Root([5; 32]);
    let mut look = DamagedLook {
        root,
        bytes: Items::make(b"hi".to_vec(alloc)?),
    };
    match whole(alloc, &mut look, &sys_of(root)) {
        Err(WholeFault::Rotten { root: of, got }) => assert!(rt; of == root && got != root),
        _ => assert!(rt; false),
    }
    Ok(())
}

#[test]
fn steps(rt: HostRuntime) -> Result<(), Fail> {
    let once = Record {
        one_shot: 1,
        ..factory()
    };
    let mut tried = initial();
    tried.a.tries = 6;
    for (before, slot, next, write) in [
        (factory(), Slot::A, factory(), false),
        (once, Slot::R, factory(), true),
        (initial(), Slot::A, tried, true),
    ] {
        assert_eq!(rt; boot_step(&before), BootStep { slot, next, write });
    }
    Ok(())
}
