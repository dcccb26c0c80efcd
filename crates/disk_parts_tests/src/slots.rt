//! Calls of slots that look first whether they may be made.

ghost use Rattle.std.specs.Prelude.{◌≡◌, ◌≤◌, false, IsTrue};
ghost use Rattle.image_layout.specs.Geometry.{IsWithinLimits, total_pages};
ghost use Rattle.slot_disk.specs.Areas.{area_size};
ghost use Rattle.slot_disk.specs.Slots.{is_needed};

use abr_record::{Record, Slot, SlotRecord, bootable};
use disk_model::Disk;
use image_layout::{Geometry, ImageKind, Sys, total_pages};
use slot_disk::{Filling, SealEnd, SlotEnd, SlotFault, Slots};

/// A record: A has succeeded, and B may be booted this many times.
pub fn record(tries: u8) -> Record {
    Record {
        a: SlotRecord {
            priority: 15,
            tries: 0,
            successful: true,
        },
        b: SlotRecord {
            priority: if tries == 0 { 0 } else { 14 },
            tries,
            successful: false,
        },
        one_shot: 0,
    }
}

fn has_room<D: Disk>(disk: &D, geometry: &Geometry) -> bool
    ensures within { IsTrue result → IsWithinLimits geometry.now }
    ensures room { IsTrue result → total_pages geometry.now ≤ D.pages disk.now }
{
    geometry.is_within_limits() && total_pages(geometry) <= disk.pages()
}

fn is_needed(value: &Record, slot: Slot) -> bool
    ensures { result ≡ is_needed value.now slot }
{
    match slot {
        Slot::A => bootable(&value.a),
        Slot::B => bootable(&value.b),
        Slot::R => true,
    }
}

fn area_size(geometry: &Geometry, image: ImageKind) -> u64
    requires { IsWithinLimits geometry.now }
    ensures size { result ≡ area_size geometry.now image }
    ensures small { result ≤ 33_554_432 }
{
    match image {
        ImageKind::Zbi => 4096 * u64::from(geometry.slot_pages),
        ImageKind::Vbmeta => 65_536,
    }
}

/// Writes a record and recovery with these images.
pub fn format<D: Disk>(
    disk: &mut D,
    geometry: &Geometry,
    value: &Record,
    zbi: &[u8],
    vbmeta: &[u8],
) -> Option<Slots> {
    if !has_room(disk, geometry)
        || zbi.len() as u64 > area_size(geometry, ImageKind::Zbi)
        || vbmeta.len() as u64 > area_size(geometry, ImageKind::Vbmeta)
    {
        return None;
    }
    let Ok(mut slots) = Slots::format(disk, geometry, value) else {
        return None;
    };
    match slots.write_recovery(disk, zbi, vbmeta) {
        SlotEnd::Done => Some(slots),
        SlotEnd::Broke => None,
    }
}

/// Loads the slots.
pub fn load<D: Disk>(disk: &mut D, geometry: &Geometry) -> Option<Result<Slots, SlotFault>> {
    if !has_room(disk, geometry) {
        return None;
    }
    Some(Slots::load(disk, geometry))
}

/// Changes the record.
pub fn set_record<D: Disk>(slots: &mut Slots, disk: &mut D, value: &Record) -> Option<SlotEnd> {
    let geometry = *slots.geometry();
    if slots.is_broken() || !has_room(disk, &geometry) {
        return None;
    }
    Some(slots.set_record(disk, value))
}

/// Begins to fill a slot.
pub fn fill(slots: &Slots, slot: Slot) -> Option<Filling> {
    if matches!(slot, Slot::R) || is_needed(&slots.boot_record(), slot) {
        return None;
    }
    Some(slots.fill(slot))
}

// Whether a filling may be written to.
fn may_write<D: Disk>(slots: &Slots, disk: &D, filling: &Filling) -> bool
    ensures unbroken { IsTrue result → slots.now.broken ≡ false }
    ensures whole { IsTrue result → filling.now.broken ≡ false }
    ensures unneeded { IsTrue result → is_needed slots.now.boot filling.now.slot ≡ false }
    ensures room { IsTrue result → total_pages slots.now.geometry ≤ D.pages disk.now }
{
    !slots.is_broken()
        && !filling.is_broken()
        && !is_needed(&slots.boot_record(), filling.slot())
        && has_room(disk, slots.geometry())
}

/// Appends a piece.
pub fn append<D: Disk>(
    slots: &Slots,
    disk: &mut D,
    filling: &mut Filling,
    image: ImageKind,
    bytes: &[u8],
) -> Option<SlotEnd> {
    if !may_write(slots, disk, filling) {
        return None;
    }
    let room = area_size(slots.geometry(), image);
    let have = filling.have(image);
    if have > room || bytes.len() as u64 > room - have {
        return None;
    }
    Some(slots.append(disk, filling, image, bytes))
}

/// Seals what was filled.
pub fn seal<D: Disk>(
    slots: &mut Slots,
    disk: &mut D,
    filling: &mut Filling,
    sys: &Sys,
) -> Option<SealEnd> {
    if !may_write(slots, disk, filling) {
        return None;
    }
    Some(slots.seal(disk, filling, sys))
}
