//! The images of a slot: a piece more of one, whether they are a system's, and both at once.

ghost use Rattle.std.specs.Prelude.{◌≡◌, ◌+◌, ◌≤◌, ℕ, length, IfOk, OnOk, OnErr, IfSome};
ghost use Rattle.disk_model.specs.Past.{IsPast, Rose};
ghost use Rattle.disk_model.specs.Images.{EachImage, WritesOnly};
ghost use Rattle.image_layout.specs.Geometry.{IsWithinLimits, IsIn, slot_region, total_pages};
ghost use Rattle.slot_disk.specs.Areas.{area_size, area_region};
ghost use Rattle.slot_disk.specs.Slots.{HasSystem, recovery_system};
ghost use Rattle.slot_disk.specs.Filling.{Images, part_of, with_piece, HoldsImages, OtherStays, AreFilled, Finds};

use crate::areas::area_start;
use crate::part::{Difference, Parts};
use crate::write::{add_piece, seal_slot};
use abr_record::Slot;
use disk_model::{Disk, DiskFailed};
use image_layout::{Geometry, ImageKind, Sys};
use pkg_names::Root;

/// Writes a piece behind the bytes of one image. Where the disk fails the parts are as they were.
pub(crate) fn add_to<D: Disk>(
    disk: &mut D,
    geometry: &Geometry,
    slot: Slot,
    parts: &mut Parts,
    kind: ImageKind,
    piece: &[u8],
) -> Result<(), DiskFailed>
    requires limits { IsWithinLimits geometry.now }
    requires room { total_pages geometry.now ≤ D.pages disk.old }
    requires fits { (part_of parts.old kind).len + length piece.now ≤ area_size geometry.now kind }
    ensures other { OtherStays kind parts.old parts.new }
    ensures count { OnOk result
        ((part_of parts.new kind).len ≡ (part_of parts.old kind).len + length piece.now) }
    ensures err { OnErr result (parts.new ≡ parts.old) }
    ensures stands { OnOk result ((images : Images) → HoldsImages parts.old images
        → HoldsImages parts.new (with_piece kind piece.now images)) }
    ensures filled { OnOk result ((images : Images) → HoldsImages parts.old images
        → AreFilled (D.past disk.old) geometry.now slot images
        → AreFilled (D.past disk.new) geometry.now slot (with_piece kind piece.now images)) }
    ensures only { WritesOnly (D.past disk.old) (D.past disk.new)
        (IsIn (area_region geometry.now slot kind)) }
    ensures pages_stay { D.pages disk.new ≡ D.pages disk.old }
    ensures tie_stays { D.tie disk.new ≡ D.tie disk.old }
    ensures reads_stay { D.reads disk.new ≡ D.reads disk.old }
    ensures faults_never_fall { D.faults disk.old ≤ D.faults disk.new }
    ensures told { IfSome (D.past disk.new) (IsPast (D.pages disk.new)) }
    ensures cause { OnErr result (Rose (D.faults disk.old) (D.faults disk.new)) }
{
    let _count = disk.pages();
    let first = area_start(geometry, slot, kind);
    match kind {
        ImageKind::Zbi => add_piece(disk, first, &mut parts.zbi, piece),
        ImageKind::Vbmeta => add_piece(disk, first, &mut parts.vbmeta, piece),
    }
}

/// The first image that is another than a system's.
pub(crate) fn judge(parts: &Parts, sys: &Sys) -> Option<Difference>
    ensures { (images : Images) → HoldsImages parts.now images → Finds sys.now images result }
{
    let got = parts.zbi.sum();
    if got != sys.zbi {
        return Some(Difference {
            image: ImageKind::Zbi,
            got,
        });
    }
    let got = parts.vbmeta.sum();
    if got != sys.vbmeta {
        return Some(Difference {
            image: ImageKind::Vbmeta,
            got,
        });
    }
    None
}

/// Writes both images of recovery, and its header, and gives its system.
pub(crate) fn write_images<D: Disk>(
    disk: &mut D,
    geometry: &Geometry,
    zbi: &[u8],
    vbmeta: &[u8],
) -> Result<Sys, DiskFailed>
    requires limits { IsWithinLimits geometry.now }
    requires room { total_pages geometry.now ≤ D.pages disk.old }
    requires zbi_fits { length zbi.now ≤ area_size geometry.now ImageKind.Zbi }
    requires vbmeta_fits { length vbmeta.now ≤ area_size geometry.now ImageKind.Vbmeta }
    ensures system { IfOk result (λ sys. sys ≡ recovery_system zbi.now vbmeta.now) }
    ensures done { OnOk result (EachImage (D.past disk.new)
        (HasSystem geometry.now Slot.R (recovery_system zbi.now vbmeta.now))) }
    ensures only { WritesOnly (D.past disk.old) (D.past disk.new)
        (IsIn (slot_region geometry.now Slot.R)) }
    ensures pages_stay { D.pages disk.new ≡ D.pages disk.old }
    ensures tie_stays { D.tie disk.new ≡ D.tie disk.old }
    ensures reads_stay { D.reads disk.new ≡ D.reads disk.old }
    ensures faults_never_fall { D.faults disk.old ≤ D.faults disk.new }
    ensures told { IfSome (D.past disk.new) (IsPast (D.pages disk.new)) }
    ensures cause { OnErr result (Rose (D.faults disk.old) (D.faults disk.new)) }
{
    let mut parts = Parts::new();
    add_to(disk, geometry, Slot::R, &mut parts, ImageKind::Zbi, zbi)?;
    add_to(
        disk,
        geometry,
        Slot::R,
        &mut parts,
        ImageKind::Vbmeta,
        vbmeta,
    )?;
    let zbi_sum = parts.zbi.sum();
    let vbmeta_sum = parts.vbmeta.sum();
    let sys = Sys {
        system: Root([0; 32]),
        epoch: 0,
        zbi: zbi_sum,
        vbmeta: vbmeta_sum,
    };
    seal_slot(disk, geometry, Slot::R, &sys)?;
    Ok(sys)
}
