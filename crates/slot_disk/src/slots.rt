//! The record and the slots of an image, in memory and on the disk.

ghost use Rattle.std.specs.Prelude.{◌≡◌, ◌≢◌, ◌⊎◌, ◌+◌, ◌<◌, ◌≤◌, ℕ, List, length, Bool, true, false, Option, Some, None, IfSome, IfOk, IfErr, OnOk, OnErr};
ghost use Rattle.disk_model.specs.Past.{Past, IsPast, Rose};
ghost use Rattle.disk_model.specs.Images.{EachImage, SomeImage, AtEach, WritesOnly, IsInRow};
ghost use Rattle.image_layout.specs.declared.geometry.TheConstants.{RECORD_PAGE};
ghost use Rattle.image_layout.specs.Geometry.{IsWithinLimits, IsIn, slot_region, total_pages};
ghost use Rattle.slot_disk.specs.Areas.{area_size, area_region, header_page};
ghost use Rattle.slot_disk.specs.Header.{IsHeader, record_on};
ghost use Rattle.slot_disk.specs.Slots.{sys_of, with_sys, is_needed, HasSystem, HasRecord, HasNeeded, Has, Fits, HaveOneView, KnowsNeeded, HasCause, with_boot, after_record, after_recovery, recovery_system, new_slots, SettlesPage};
ghost use Rattle.slot_disk.specs.Filling.{Images, part_of, no_images, with_piece, IsFillingOf, OtherStays, AreFilled, Judges, after_append, after_seal, filling_after_seal};

use crate::answers::{SealEnd, SlotEnd, SlotFault};
use crate::filling::Filling;
use crate::load::load_parts;
use crate::part::Parts;
use crate::seal::{add_to, judge, write_images};
use crate::write::{seal_slot, settle_record};
use abr_record::{Record, Slot};
use disk_model::{Disk, DiskFailed};
use image_layout::{Geometry, ImageKind, Sys};
use std::marker::Model;

/// The boot record and the slots of an image. Contracts see the geometry, the record, the system of each
/// slot that is known, and whether a call has broken the value.
#[derive(Drop)]
pub struct Slots {
    geometry: Geometry,
    boot: Record,
    a: Option<Sys>,
    b: Option<Sys>,
    recovery: Option<Sys>,
    broken: bool,
}

impl Model for Slots {
    ghost use Rattle.image_layout.specs.Geometry.{IsWithinLimits};
    ghost use Rattle.slot_disk.specs.Slots.{SlotsView};

    ghost Value = { SlotsView };

    ghost view = { λ s. record {
      geometry = s.geometry;
      boot = s.boot;
      a = s.a;
      b = s.b;
      recovery = s.recovery;
      broken = s.broken;
    } };

    ghost invariant = { λ s. IsWithinLimits s.geometry };
}

impl Slots {
    /// Writes the record page, and makes the value of slots of which nothing else is known yet. There need
    /// not be a super page.
    pub fn format<D: Disk>(
        disk: &mut D,
        geometry: &Geometry,
        value: &Record,
    ) -> Result<Slots, DiskFailed>
        requires limits { IsWithinLimits geometry.now }
        requires room { total_pages geometry.now ≤ D.pages disk.old }
        ensures value { IfOk result (λ slots. slots ≡ new_slots geometry.now value.now) }
        ensures settled { OnOk result (EachImage (D.past disk.new) (HasRecord value.now)) }
        ensures order { OnOk result (SettlesPage RECORD_PAGE (λ page. record_on page ≡ value.now)
            (D.past disk.old) (D.past disk.new)) }
        ensures only { WritesOnly (D.past disk.old) (D.past disk.new) (IsInRow RECORD_PAGE 1) }
        ensures pages_stay { D.pages disk.new ≡ D.pages disk.old }
        ensures tie_stays { D.tie disk.new ≡ D.tie disk.old }
        ensures reads_stay { D.reads disk.new ≡ D.reads disk.old }
        ensures faults_never_fall { D.faults disk.old ≤ D.faults disk.new }
        ensures told { IfSome (D.past disk.new) (IsPast (D.pages disk.new)) }
        ensures cause { OnErr result (Rose (D.faults disk.old) (D.faults disk.new)) }
    {
        settle_record(disk, value)?;
        Ok(Slots {
            geometry: *geometry,
            boot: *value,
            a: None,
            b: None,
            recovery: None,
            broken: false,
        })
    }

    /// Reads the record of a disk, and each slot that has to be good: recovery, and A and B where they can
    /// be booted. What was read stands together in some image of the disk, and the answer is what that
    /// image has, or where it is damaged.
    pub fn load<D: Disk>(disk: &mut D, geometry: &Geometry) -> Result<Slots, SlotFault>
        requires limits { IsWithinLimits geometry.now }
        requires room { total_pages geometry.now ≤ D.pages disk.old }
        ensures geometry { IfOk result (λ slots. slots.geometry ≡ geometry.now) }
        ensures unbroken { IfOk result (λ slots. slots.broken ≡ false) }
        ensures known { IfOk result KnowsNeeded }
        ensures slots { IfOk result (λ slots. SomeImage (D.past disk.old) (Has slots)) }
        ensures damaged { IfErr result (HasCause (D.past disk.old) geometry.now) }
        ensures fits { HaveOneView (D.past disk.old) geometry.now
            → IfOk result (Fits (D.past disk.new)) }
        ensures past_stays { D.past disk.new ≡ D.past disk.old }
        ensures pages_stay { D.pages disk.new ≡ D.pages disk.old }
        ensures tie_stays { D.tie disk.new ≡ D.tie disk.old }
        ensures faults_never_fall { D.faults disk.old ≤ D.faults disk.new }
        ensures told { IfSome (D.past disk.new) (IsPast (D.pages disk.new)) }
        ensures cause { result ≡ Err SlotFault.Read → Rose (D.faults disk.old) (D.faults disk.new) }
    {
        let parts = load_parts(disk, geometry)?;
        Ok(Slots {
            geometry: *geometry,
            boot: parts.boot,
            a: parts.a,
            b: parts.b,
            recovery: parts.recovery,
            broken: false,
        })
    }

    /// Changes the record, in one write and one sync.
    pub fn set_record<D: Disk>(&mut self, disk: &mut D, value: &Record) -> SlotEnd
        requires unbroken { self.old.broken ≡ false }
        requires room { total_pages self.old.geometry ≤ D.pages disk.old }
        ensures value { self.new ≡ after_record self.old value.now result }

        // the record alone
        ensures record_moment { EachImage (D.past disk.old) (HasRecord self.old.boot)
            → AtEach (D.past disk.old) (D.past disk.new) (λ image.
            HasRecord self.old.boot image ⊎ HasRecord value.now image) }
        ensures record_done { result ≡ SlotEnd.Done
            → EachImage (D.past disk.new) (HasRecord value.now) }
        ensures order { result ≡ SlotEnd.Done → SettlesPage RECORD_PAGE
            (λ page. record_on page ≡ value.now) (D.past disk.old) (D.past disk.new) }

        // all that is seen of an image, where the slots that the new record needs have their systems
        ensures each_moment { Fits (D.past disk.old) self.old
            → EachImage (D.past disk.old) (HasNeeded self.old value.now)
            → AtEach (D.past disk.old) (D.past disk.new) (λ image.
            Has self.old image ⊎ Has (with_boot value.now self.old) image) }
        ensures done { result ≡ SlotEnd.Done
            → EachImage (D.past disk.old) (HasNeeded self.old value.now)
            → Fits (D.past disk.new) self.new }

        ensures only { WritesOnly (D.past disk.old) (D.past disk.new) (IsInRow RECORD_PAGE 1) }
        ensures pages_stay { D.pages disk.new ≡ D.pages disk.old }
        ensures tie_stays { D.tie disk.new ≡ D.tie disk.old }
        ensures reads_stay { D.reads disk.new ≡ D.reads disk.old }
        ensures faults_never_fall { D.faults disk.old ≤ D.faults disk.new }
        ensures told { IfSome (D.past disk.new) (IsPast (D.pages disk.new)) }
        ensures cause { result ≡ SlotEnd.Broke → Rose (D.faults disk.old) (D.faults disk.new) }
    {
        match settle_record(disk, value) {
            Ok(()) => {
                self.boot = *value;
                SlotEnd::Done
            }
            Err(_) => {
                self.broken = true;
                SlotEnd::Broke
            }
        }
    }

    /// Begins to fill a slot.
    pub fn fill(&self, slot: Slot) -> Filling
        requires other { slot ≢ Slot.R }
        requires unneeded { is_needed self.now.boot slot ≡ false }
        ensures slot { result.slot ≡ slot }
        ensures unbroken { result.broken ≡ false }
        ensures empty { IsFillingOf result no_images }
        ensures filled { (told : Option Past) → AreFilled told self.now.geometry slot no_images }
    {
        Filling {
            slot,
            parts: Parts::new(),
            broken: false,
        }
    }

    /// Writes the next bytes of an image: each page on which one of them lies, with zeros behind the last.
    pub fn append<D: Disk>(
        &self,
        disk: &mut D,
        filling: &mut Filling,
        image: ImageKind,
        bytes: &[u8],
    ) -> SlotEnd
        requires unbroken { self.now.broken ≡ false }
        requires whole { filling.old.broken ≡ false }
        requires unneeded { is_needed self.now.boot filling.old.slot ≡ false }
        requires room { total_pages self.now.geometry ≤ D.pages disk.old }
        requires fits { (part_of filling.old.parts image).len + length bytes.now
            ≤ area_size self.now.geometry image }
        ensures value { filling.new ≡ after_append filling.old filling.new.parts result }
        ensures other { OtherStays image filling.old.parts filling.new.parts }
        ensures count { result ≡ SlotEnd.Done → (part_of filling.new.parts image).len
            ≡ (part_of filling.old.parts image).len + length bytes.now }
        ensures stands { result ≡ SlotEnd.Done
            → (images : Images) → IsFillingOf filling.old images
            → IsFillingOf filling.new (with_piece image bytes.now images) }
        ensures filled { result ≡ SlotEnd.Done
            → (images : Images) → IsFillingOf filling.old images
            → AreFilled (D.past disk.old) self.now.geometry filling.old.slot images
            → AreFilled (D.past disk.new) self.now.geometry filling.old.slot
            (with_piece image bytes.now images) }
        ensures each_moment { Fits (D.past disk.old) self.now
            → AtEach (D.past disk.old) (D.past disk.new) (Has self.now) }
        ensures only { WritesOnly (D.past disk.old) (D.past disk.new)
            (IsIn (area_region self.now.geometry filling.old.slot image)) }
        ensures pages_stay { D.pages disk.new ≡ D.pages disk.old }
        ensures tie_stays { D.tie disk.new ≡ D.tie disk.old }
        ensures reads_stay { D.reads disk.new ≡ D.reads disk.old }
        ensures faults_never_fall { D.faults disk.old ≤ D.faults disk.new }
        ensures told { IfSome (D.past disk.new) (IsPast (D.pages disk.new)) }
        ensures cause { result ≡ SlotEnd.Broke → Rose (D.faults disk.old) (D.faults disk.new) }
    {
        match add_to(
            disk,
            &self.geometry,
            filling.slot,
            &mut filling.parts,
            image,
            bytes,
        ) {
            Ok(()) => SlotEnd::Done,
            Err(_) => {
                filling.broken = true;
                SlotEnd::Broke
            }
        }
    }

    /// Seals the slot that was filled with a system: compares the images with it, writes the header and
    /// syncs. The one sync settles images and header together.
    pub fn seal<D: Disk>(&mut self, disk: &mut D, filling: &mut Filling, sys: &Sys) -> SealEnd
        requires unbroken { self.old.broken ≡ false }
        requires whole { filling.old.broken ≡ false }
        requires unneeded { is_needed self.old.boot filling.old.slot ≡ false }
        requires room { total_pages self.old.geometry ≤ D.pages disk.old }
        ensures judged { (images : Images) → IsFillingOf filling.old images
            → Judges sys.now images result }
        ensures value { self.new ≡ after_seal self.old filling.old.slot sys.now result }
        ensures filling { filling.new ≡ filling_after_seal filling.old result }
        ensures untouched { (result ≡ SealEnd.Sealed → ⊥) → (result ≡ SealEnd.Broke → ⊥)
            → disk.new ≡ disk.old }

        // where the images are on the disk
        ensures sealed { result ≡ SealEnd.Sealed
            → (images : Images) → IsFillingOf filling.old images
            → AreFilled (D.past disk.old) self.old.geometry filling.old.slot images
            → EachImage (D.past disk.new) (HasSystem self.old.geometry filling.old.slot sys.now) }
        ensures order { result ≡ SealEnd.Sealed → SettlesPage (header_page self.old.geometry filling.old.slot)
            (λ page. IsHeader page sys.now) (D.past disk.old) (D.past disk.new) }

        ensures each_moment { Fits (D.past disk.old) self.old
            → AtEach (D.past disk.old) (D.past disk.new) (Has self.old) }
        ensures fits { Fits (D.past disk.old) self.old → Fits (D.past disk.new) self.new }
        ensures only { WritesOnly (D.past disk.old) (D.past disk.new)
            (IsInRow (header_page self.old.geometry filling.old.slot) 1) }
        ensures pages_stay { D.pages disk.new ≡ D.pages disk.old }
        ensures tie_stays { D.tie disk.new ≡ D.tie disk.old }
        ensures reads_stay { D.reads disk.new ≡ D.reads disk.old }
        ensures faults_never_fall { D.faults disk.old ≤ D.faults disk.new }
        ensures told { IfSome (D.past disk.new) (IsPast (D.pages disk.new)) }
        ensures cause { result ≡ SealEnd.Broke → Rose (D.faults disk.old) (D.faults disk.new) }
    {
        let _pages = disk.pages();
        if let Some(found) = judge(&filling.parts, sys) {
            return SealEnd::Differs {
                image: found.image,
                got: found.got,
            };
        }
        let slot = filling.slot;
        match seal_slot(disk, &self.geometry, slot, sys) {
            Ok(()) => {
                self.put_system(slot, *sys);
                SealEnd::Sealed
            }
            Err(_) => {
                self.broken = true;
                filling.broken = true;
                SealEnd::Broke
            }
        }
    }

    /// Writes recovery: its images, its header and a sync. There need not be a super page yet.
    pub fn write_recovery<D: Disk>(&mut self, disk: &mut D, zbi: &[u8], vbmeta: &[u8]) -> SlotEnd
        requires unbroken { self.old.broken ≡ false }
        requires room { total_pages self.old.geometry ≤ D.pages disk.old }
        requires zbi_fits { length zbi.now ≤ area_size self.old.geometry ImageKind.Zbi }
        requires vbmeta_fits { length vbmeta.now ≤ area_size self.old.geometry ImageKind.Vbmeta }
        ensures value { self.new
            ≡ after_recovery self.old (recovery_system zbi.now vbmeta.now) result }
        ensures done { result ≡ SlotEnd.Done → EachImage (D.past disk.new)
            (HasSystem self.old.geometry Slot.R (recovery_system zbi.now vbmeta.now)) }
        ensures only { WritesOnly (D.past disk.old) (D.past disk.new)
            (IsIn (slot_region self.old.geometry Slot.R)) }
        ensures pages_stay { D.pages disk.new ≡ D.pages disk.old }
        ensures tie_stays { D.tie disk.new ≡ D.tie disk.old }
        ensures reads_stay { D.reads disk.new ≡ D.reads disk.old }
        ensures faults_never_fall { D.faults disk.old ≤ D.faults disk.new }
        ensures told { IfSome (D.past disk.new) (IsPast (D.pages disk.new)) }
        ensures cause { result ≡ SlotEnd.Broke → Rose (D.faults disk.old) (D.faults disk.new) }
    {
        match write_images(disk, &self.geometry, zbi, vbmeta) {
            Ok(sys) => {
                self.recovery = Some(sys);
                SlotEnd::Done
            }
            Err(_) => {
                self.broken = true;
                SlotEnd::Broke
            }
        }
    }

    /// The boot record.
    pub fn boot_record(&self) -> Record
        ensures { result ≡ self.now.boot }
    {
        self.boot
    }

    /// The system of a slot as it was loaded or sealed last, if it was.
    pub fn sys(&self, slot: Slot) -> Option<Sys>
        ensures { result ≡ sys_of self.now slot }
    {
        match slot {
            Slot::A => self.a,
            Slot::B => self.b,
            Slot::R => self.recovery,
        }
    }

    pub fn geometry(&self) -> &Geometry
        ensures geometry { result.now ≡ self.now.geometry }
        ensures limits { IsWithinLimits self.now.geometry }
    {
        &self.geometry
    }

    /// Whether a call has answered `Broke`, so that nothing can be written any more.
    pub fn is_broken(&self) -> bool
        ensures { result ≡ self.now.broken }
    {
        self.broken
    }

    // Notes the system of a slot that was sealed.
    fn put_system(&mut self, slot: Slot, sys: Sys)
        ensures { self.new ≡ with_sys slot sys self.old }
    {
        match slot {
            Slot::A => self.a = Some(sys),
            Slot::B => self.b = Some(sys),
            Slot::R => self.recovery = Some(sys),
        }
    }
}
