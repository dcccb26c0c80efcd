//! Loading the record and the slots that have to be good.

ghost use Rattle.std.specs.Prelude.{◌≡◌, ◌≤◌, true, is_some, IsSomeAnd, IfOk, IfErr, IfSome};
ghost use Rattle.disk_model.specs.Past.{IsPast, Rose};
ghost use Rattle.disk_model.specs.Images.{SomeImage};
ghost use Rattle.image_layout.specs.Geometry.{IsWithinLimits, total_pages};
ghost use Rattle.slot_disk.specs.Slots.{Has, KnowsNeeded, HasCause};
ghost use Rattle.slot_disk.specs.Steps.{FoundIf, HasCauseAt, loaded_view};

use crate::answers::SlotFault;
use crate::read::{read_record, read_slot};
use abr_record::{Record, Slot, bootable};
use disk_model::{Disk, DiskFailed};
use image_layout::{Geometry, Sys};

/// What was read of an image.
#[derive(Drop)]
pub(crate) struct Loaded {
    pub(crate) boot: Record,
    pub(crate) a: Option<Sys>,
    pub(crate) b: Option<Sys>,
    pub(crate) recovery: Option<Sys>,
}

// Reads a slot if it is needed, and answers where it isn't good then.
fn load_slot<D: Disk>(
    disk: &mut D,
    geometry: &Geometry,
    slot: Slot,
    needed: bool,
) -> Result<Option<Sys>, SlotFault>
    requires limits { IsWithinLimits geometry.now }
    requires room { total_pages geometry.now ≤ D.pages disk.old }
    ensures known { IfOk result (λ found. is_some found ≡ needed) }
    ensures found { IfOk result (λ found. SomeImage (D.past disk.old)
        (FoundIf needed geometry.now slot found)) }
    ensures damaged { IfErr result (HasCauseAt (D.past disk.old) geometry.now slot needed) }
    ensures past_stays { D.past disk.new ≡ D.past disk.old }
    ensures pages_stay { D.pages disk.new ≡ D.pages disk.old }
    ensures tie_stays { D.tie disk.new ≡ D.tie disk.old }
    ensures faults_never_fall { D.faults disk.old ≤ D.faults disk.new }
    ensures told { IfSome (D.past disk.new) (IsPast (D.pages disk.new)) }
    ensures cause { result ≡ Err SlotFault.Read → Rose (D.faults disk.old) (D.faults disk.new) }
{
    let _count = disk.pages();
    if !needed {
        return Ok(None);
    }
    match read_slot(disk, geometry, slot) {
        Ok(Some(sys)) => Ok(Some(sys)),
        Ok(None) => Err(SlotFault::Damaged { slot }),
        Err(_) => Err(SlotFault::Read),
    }
}

/// Reads the record, and then recovery, A and B where they are needed, each page once.
pub(crate) fn load_parts<D: Disk>(disk: &mut D, geometry: &Geometry) -> Result<Loaded, SlotFault>
    requires limits { IsWithinLimits geometry.now }
    requires room { total_pages geometry.now ≤ D.pages disk.old }
    ensures known { IfOk result (λ loaded. KnowsNeeded (loaded_view geometry.now loaded)) }
    ensures slots { IfOk result (λ loaded. SomeImage (D.past disk.old)
        (Has (loaded_view geometry.now loaded))) }
    ensures damaged { IfErr result (HasCause (D.past disk.old) geometry.now) }
    ensures past_stays { D.past disk.new ≡ D.past disk.old }
    ensures pages_stay { D.pages disk.new ≡ D.pages disk.old }
    ensures tie_stays { D.tie disk.new ≡ D.tie disk.old }
    ensures faults_never_fall { D.faults disk.old ≤ D.faults disk.new }
    ensures told { IfSome (D.past disk.new) (IsPast (D.pages disk.new)) }
    ensures cause { result ≡ Err SlotFault.Read → Rose (D.faults disk.old) (D.faults disk.new) }
{
    let _count = disk.pages();
    let Ok(boot) = read_record(disk) else {
        return Err(SlotFault::Read);
    };
    let recovery = load_slot(disk, geometry, Slot::R, true)?;
    let a = load_slot(disk, geometry, Slot::A, bootable(&boot.a))?;
    let b = load_slot(disk, geometry, Slot::B, bootable(&boot.b))?;
    Ok(Loaded {
        boot,
        a,
        b,
        recovery,
    })
}
