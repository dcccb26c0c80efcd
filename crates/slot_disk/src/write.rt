//! Writing the record page and the pages of slots.

ghost use Rattle.std.specs.Prelude.{◌≡◌, ◌⊎◌, ◌+◌, ◌-◌, ◌*◌, ◌/◌, ◌%◌, ◌^◌, ◌<◌, ◌≤◌, ℕ, List, ◌++◌, length, take, min, OnOk, OnErr, IfOk, IfSome};
ghost use Rattle.disk_model.specs.declared.act.DiskAct.TheVariants.{Wrote};
ghost use Rattle.disk_model.specs.Past.{IsPast, with_act, Rose};
ghost use Rattle.disk_model.specs.Images.{EachImage, AtEach, WritesOnly, IsInRow};
ghost use Rattle.image_layout.specs.declared.geometry.TheConstants.{RECORD_PAGE};
ghost use Rattle.image_layout.specs.Geometry.{IsWithinLimits, total_pages};
ghost use Rattle.abr_record.specs.declared.Record.{Record as RecordOf};
ghost use Rattle.slot_disk.specs.Areas.{header_page};
ghost use Rattle.slot_disk.specs.Header.{IsHeader, record_on};
ghost use Rattle.slot_disk.specs.Slots.{HasRecord, HasSystem, SettlesPage};
ghost use Rattle.slot_disk.specs.Filling.{Images, page_of, page_count, HoldsBytes, AreWritten, AreOf, AreFilled};

use crate::header::write_header;
use crate::part::{Part, put_next, turn};
use crate::record_page::write_record;
use abr_record::{Record, Slot};
use disk_model::{Disk, DiskFailed, settle_pages};
use image_layout::{Geometry, RECORD_PAGE, Sys, slot_start};
use sha2::Digest;

/// Writes a record and syncs.
pub(crate) fn settle_record<D: Disk>(disk: &mut D, value: &Record) -> Result<(), DiskFailed>
    requires { RECORD_PAGE < D.pages disk.old }
    ensures done { OnOk result (EachImage (D.past disk.new) (HasRecord value.now)) }
    ensures order { OnOk result (SettlesPage RECORD_PAGE (λ page. record_on page ≡ value.now)
        (D.past disk.old) (D.past disk.new)) }
    ensures only { WritesOnly (D.past disk.old) (D.past disk.new) (IsInRow RECORD_PAGE 1) }
    ensures each_moment { (before : RecordOf) → EachImage (D.past disk.old) (HasRecord before)
        → AtEach (D.past disk.old) (D.past disk.new) (λ image.
        HasRecord before image ⊎ HasRecord value.now image) }
    ensures pages_stay { D.pages disk.new ≡ D.pages disk.old }
    ensures tie_stays { D.tie disk.new ≡ D.tie disk.old }
    ensures reads_stay { D.reads disk.new ≡ D.reads disk.old }
    ensures faults_never_fall { D.faults disk.old ≤ D.faults disk.new }
    ensures told { IfSome (D.past disk.new) (IsPast (D.pages disk.new)) }
    ensures cause { OnErr result (Rose (D.faults disk.old) (D.faults disk.new)) }
{
    disk.write(RECORD_PAGE, &write_record(value))?;
    disk.sync()?;
    Ok(())
}

// Writes the page that is written next with the front of a piece on it, and gives how many bytes of the
// piece that was. The image had `len` bytes before.
fn write_next<D: Disk>(
    disk: &mut D,
    first: u32,
    len: usize,
    next: &mut [u8; 4096],
    piece: &[u8],
) -> Result<usize, DiskFailed>
    requires room { first + len / 4096 < D.pages disk.old }
    requires small { len + length piece.now < 2 ^ 64 }
    ensures count { IfOk result (λ count. count ≡ min (length piece.now) (4096 - len % 4096)) }
    ensures wrote { IfOk result (λ count. (bytes : List ℕ) → length bytes ≡ len
        → next.old ≡ page_of bytes (length bytes / 4096)
        → D.past disk.new ≡ with_act (D.past disk.old)
        (Wrote (first + length bytes / 4096)
        (page_of (bytes ++ take count piece.now) (length bytes / 4096)))) }
    ensures next { IfOk result (λ count. (bytes : List ℕ) → length bytes ≡ len
        → next.old ≡ page_of bytes (length bytes / 4096)
        → next.new ≡ page_of (bytes ++ take count piece.now)
        (length (bytes ++ take count piece.now) / 4096)) }
    ensures only { WritesOnly (D.past disk.old) (D.past disk.new) (IsInRow (first + len / 4096) 1) }
    ensures pages_stay { D.pages disk.new ≡ D.pages disk.old }
    ensures tie_stays { D.tie disk.new ≡ D.tie disk.old }
    ensures reads_stay { D.reads disk.new ≡ D.reads disk.old }
    ensures faults_never_fall { D.faults disk.old ≤ D.faults disk.new }
    ensures told { IfSome (D.past disk.new) (IsPast (D.pages disk.new)) }
    ensures cause { OnErr result (Rose (D.faults disk.old) (D.faults disk.new)) }
{
    let _count = disk.pages();
    let count = put_next(next, len % 4096, piece);
    disk.write(first + (len / 4096) as u32, next)?;
    turn(next, len + count);
    Ok(count)
}

// Writes each page on which a piece has a byte. The image had `len` bytes before.
fn write_piece<D: Disk>(
    disk: &mut D,
    first: u32,
    len: u64,
    next: &mut [u8; 4096],
    piece: &[u8],
) -> Result<(), DiskFailed>
    requires room { first + page_count (len + length piece.now) ≤ D.pages disk.old }
    ensures next { OnOk result ((bytes : List ℕ) → length bytes ≡ len
        → next.old ≡ page_of bytes (length bytes / 4096)
        → next.new ≡ page_of (bytes ++ piece.now) (length (bytes ++ piece.now) / 4096)) }
    ensures written { OnOk result ((bytes : List ℕ) → length bytes ≡ len
        → next.old ≡ page_of bytes (length bytes / 4096)
        → AreWritten (D.past disk.old) first bytes
        → AreWritten (D.past disk.new) first (bytes ++ piece.now)) }
    ensures only { WritesOnly (D.past disk.old) (D.past disk.new)
        (IsInRow first (page_count (len + length piece.now))) }
    ensures pages_stay { D.pages disk.new ≡ D.pages disk.old }
    ensures tie_stays { D.tie disk.new ≡ D.tie disk.old }
    ensures reads_stay { D.reads disk.new ≡ D.reads disk.old }
    ensures faults_never_fall { D.faults disk.old ≤ D.faults disk.new }
    ensures told { IfSome (D.past disk.new) (IsPast (D.pages disk.new)) }
    ensures cause { OnErr result (Rose (D.faults disk.old) (D.faults disk.new)) }
{
    let _count = disk.pages();
    let mut done = 0;
    while done < piece.len() {
        done += write_next(disk, first, len as usize + done, next, &piece[done..])?;
    }
    Ok(())
}

/// Writes a piece behind the bytes of an image whose area begins at the page `first`. Where the disk fails
/// the part is as it was.
pub(crate) fn add_piece<D: Disk>(
    disk: &mut D,
    first: u32,
    part: &mut Part,
    piece: &[u8],
) -> Result<(), DiskFailed>
    requires room { first + page_count (part.old.len + length piece.now) ≤ D.pages disk.old }
    ensures stands { OnOk result ((bytes : List ℕ) → HoldsBytes part.old bytes
        → HoldsBytes part.new (bytes ++ piece.now)) }
    ensures count { OnOk result (part.new.len ≡ part.old.len + length piece.now) }
    ensures err { OnErr result (part.new ≡ part.old) }
    ensures written { OnOk result ((bytes : List ℕ) → HoldsBytes part.old bytes
        → AreWritten (D.past disk.old) first bytes
        → AreWritten (D.past disk.new) first (bytes ++ piece.now)) }
    ensures only { WritesOnly (D.past disk.old) (D.past disk.new)
        (IsInRow first (page_count (part.old.len + length piece.now))) }
    ensures pages_stay { D.pages disk.new ≡ D.pages disk.old }
    ensures tie_stays { D.tie disk.new ≡ D.tie disk.old }
    ensures reads_stay { D.reads disk.new ≡ D.reads disk.old }
    ensures faults_never_fall { D.faults disk.old ≤ D.faults disk.new }
    ensures told { IfSome (D.past disk.new) (IsPast (D.pages disk.new)) }
    ensures cause { OnErr result (Rose (D.faults disk.old) (D.faults disk.new)) }
{
    let _count = disk.pages();
    let mut next = part.next;
    write_piece(disk, first, part.len, &mut next, piece)?;
    part.next = next;
    part.hasher.update(piece);
    part.len += piece.len() as u64;
    Ok(())
}

/// Writes the header of a slot and syncs, which settles its images too.
pub(crate) fn seal_slot<D: Disk>(
    disk: &mut D,
    geometry: &Geometry,
    slot: Slot,
    sys: &Sys,
) -> Result<(), DiskFailed>
    requires limits { IsWithinLimits geometry.now }
    requires room { total_pages geometry.now ≤ D.pages disk.old }
    ensures sealed { OnOk result ((images : Images) → AreOf sys.now images
        → AreFilled (D.past disk.old) geometry.now slot images
        → EachImage (D.past disk.new) (HasSystem geometry.now slot sys.now)) }
    ensures order { OnOk result (SettlesPage (header_page geometry.now slot)
        (λ page. IsHeader page sys.now) (D.past disk.old) (D.past disk.new)) }
    ensures only { WritesOnly (D.past disk.old) (D.past disk.new)
        (IsInRow (header_page geometry.now slot) 1) }
    ensures pages_stay { D.pages disk.new ≡ D.pages disk.old }
    ensures tie_stays { D.tie disk.new ≡ D.tie disk.old }
    ensures reads_stay { D.reads disk.new ≡ D.reads disk.old }
    ensures faults_never_fall { D.faults disk.old ≤ D.faults disk.new }
    ensures told { IfSome (D.past disk.new) (IsPast (D.pages disk.new)) }
    ensures cause { OnErr result (Rose (D.faults disk.old) (D.faults disk.new)) }
{
    let header = write_header(sys);
    settle_pages(disk, slot_start(geometry, slot), &[header])?;
    Ok(())
}
