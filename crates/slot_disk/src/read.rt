//! Reading the record page and the pages of slots.

ghost use Rattle.std.specs.Prelude.{◌≡◌, ◌+◌, ◌*◌, ◌<◌, ◌≤◌, ℕ, take, IfOk, OnErr, IfSome};
ghost use Rattle.disk_model.specs.Past.{page_at, IsPast, Rose};
ghost use Rattle.disk_model.specs.Images.{SomeImage};
ghost use Rattle.image_layout.specs.declared.geometry.TheConstants.{RECORD_PAGE};
ghost use Rattle.image_layout.specs.Geometry.{IsWithinLimits, total_pages};
ghost use Rattle.sha2.specs.Sha256.{sha256};
ghost use Rattle.slot_disk.specs.Areas.{row_bytes};
ghost use Rattle.slot_disk.specs.Slots.{HasRecord, HasImage};
ghost use Rattle.slot_disk.specs.Filling.{page_count};
ghost use Rattle.slot_disk.specs.Steps.{Heads, Stands, Says};

use crate::areas::{area_pages, area_start};
use crate::header::read_header;
use crate::record_page;
use abr_record::{Record, Slot};
use disk_model::{Disk, DiskFailed};
use image_layout::{Geometry, ImageKind, ImageSum, RECORD_PAGE, Sys, slot_start};
use sha2::{Digest, Sha256};

/// Reads the record.
pub(crate) fn read_record<D: Disk>(disk: &mut D) -> Result<Record, DiskFailed>
    requires { RECORD_PAGE < D.pages disk.old }
    ensures read { IfOk result (λ boot. SomeImage (D.past disk.old) (HasRecord boot)) }
    ensures past_stays { D.past disk.new ≡ D.past disk.old }
    ensures pages_stay { D.pages disk.new ≡ D.pages disk.old }
    ensures tie_stays { D.tie disk.new ≡ D.tie disk.old }
    ensures faults_never_fall { D.faults disk.old ≤ D.faults disk.new }
    ensures told { IfSome (D.past disk.new) (IsPast (D.pages disk.new)) }
    ensures cause { OnErr result (Rose (D.faults disk.old) (D.faults disk.new)) }
{
    let mut page = [0; 4096];
    disk.read(RECORD_PAGE, &mut page)?;
    Ok(record_page::read_record(&page))
}

// Reads the system that a header names, if the page is one.
fn read_system<D: Disk>(disk: &mut D, number: u32) -> Result<Option<Sys>, DiskFailed>
    requires { number < D.pages disk.old }
    ensures read { IfOk result (λ found. SomeImage (D.past disk.old)
        (λ image. Heads (page_at image number) found)) }
    ensures past_stays { D.past disk.new ≡ D.past disk.old }
    ensures pages_stay { D.pages disk.new ≡ D.pages disk.old }
    ensures tie_stays { D.tie disk.new ≡ D.tie disk.old }
    ensures faults_never_fall { D.faults disk.old ≤ D.faults disk.new }
    ensures told { IfSome (D.past disk.new) (IsPast (D.pages disk.new)) }
    ensures cause { OnErr result (Rose (D.faults disk.old) (D.faults disk.new)) }
{
    let mut page = [0; 4096];
    disk.read(number, &mut page)?;
    Ok(read_header(&page))
}

// The SHA-256 of the first bytes of pages in a row, each of which is read once.
fn sha_of_row<D: Disk>(disk: &mut D, first: u32, len: u64) -> Result<[u8; 32], DiskFailed>
    requires { first + page_count len ≤ D.pages disk.old }
    ensures read { IfOk result (λ sha. (count : ℕ) → len ≤ 4096 * count
        → SomeImage (D.past disk.old)
        (λ image. sha ≡ sha256 (take len (row_bytes first count image)))) }
    ensures past_stays { D.past disk.new ≡ D.past disk.old }
    ensures pages_stay { D.pages disk.new ≡ D.pages disk.old }
    ensures tie_stays { D.tie disk.new ≡ D.tie disk.old }
    ensures faults_never_fall { D.faults disk.old ≤ D.faults disk.new }
    ensures told { IfSome (D.past disk.new) (IsPast (D.pages disk.new)) }
    ensures cause { OnErr result (Rose (D.faults disk.old) (D.faults disk.new)) }
{
    // so the numbers of its pages fit their type
    let _count = disk.pages();
    let mut hasher = Sha256::new();
    let mut page = [0; 4096];
    let mut rest = len as usize;
    let mut number = first;
    while rest > 0 {
        disk.read(number, &mut page)?;
        let part = rest.min(4096);
        hasher.update(&page[..part]);
        rest -= part;
        number += 1;
    }
    Ok(hasher.finalize())
}

// Whether an image of this length and digest stands in its area.
fn has_image<D: Disk>(
    disk: &mut D,
    geometry: &Geometry,
    slot: Slot,
    kind: ImageKind,
    sum: &ImageSum,
) -> Result<bool, DiskFailed>
    requires limits { IsWithinLimits geometry.now }
    requires room { total_pages geometry.now ≤ D.pages disk.old }
    ensures read { IfOk result (λ has. SomeImage (D.past disk.old)
        (Says has (HasImage geometry.now slot kind sum.now))) }
    ensures past_stays { D.past disk.new ≡ D.past disk.old }
    ensures pages_stay { D.pages disk.new ≡ D.pages disk.old }
    ensures tie_stays { D.tie disk.new ≡ D.tie disk.old }
    ensures faults_never_fall { D.faults disk.old ≤ D.faults disk.new }
    ensures told { IfSome (D.past disk.new) (IsPast (D.pages disk.new)) }
    ensures cause { OnErr result (Rose (D.faults disk.old) (D.faults disk.new)) }
{
    let _count = disk.pages();
    if sum.len > 4096 * u64::from(area_pages(geometry, kind)) {
        return Ok(false);
    }
    let sha = sha_of_row(disk, area_start(geometry, slot, kind), sum.len)?;
    Ok(sha == sum.sha)
}

/// The system of a slot, or `None` where its header or an image isn't good.
pub(crate) fn read_slot<D: Disk>(
    disk: &mut D,
    geometry: &Geometry,
    slot: Slot,
) -> Result<Option<Sys>, DiskFailed>
    requires limits { IsWithinLimits geometry.now }
    requires room { total_pages geometry.now ≤ D.pages disk.old }
    ensures read { IfOk result (λ found. SomeImage (D.past disk.old)
        (Stands geometry.now slot found)) }
    ensures past_stays { D.past disk.new ≡ D.past disk.old }
    ensures pages_stay { D.pages disk.new ≡ D.pages disk.old }
    ensures tie_stays { D.tie disk.new ≡ D.tie disk.old }
    ensures faults_never_fall { D.faults disk.old ≤ D.faults disk.new }
    ensures told { IfSome (D.past disk.new) (IsPast (D.pages disk.new)) }
    ensures cause { OnErr result (Rose (D.faults disk.old) (D.faults disk.new)) }
{
    let _count = disk.pages();
    let Some(sys) = read_system(disk, slot_start(geometry, slot))? else {
        return Ok(None);
    };
    if !has_image(disk, geometry, slot, ImageKind::Zbi, &sys.zbi)? {
        return Ok(None);
    }
    if !has_image(disk, geometry, slot, ImageKind::Vbmeta, &sys.vbmeta)? {
        return Ok(None);
    }
    Ok(Some(sys))
}
