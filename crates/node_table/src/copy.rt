//! Reading and writing a copy of the table, page after page.

ghost use Rattle.std.specs.Prelude.{◌≡◌, ◌⊎◌, ℕ, [], ◌∷◌, ◌+◌, ◌*◌, ◌<◌, ◌≤◌, false, not, length, List, vec_capacity, OnOk, OnErr, IfOk, IfSome};
ghost use Rattle.disk_model.specs.declared.act.DiskAct.TheVariants.{Synced};
ghost use Rattle.disk_model.specs.Past.{zero_page, IsPast, Rose};
ghost use Rattle.disk_model.specs.Images.{EachImage, SomeImage, AtEach, IsWritten, WritesOnly, IsInRow};
ghost use Rattle.image_layout.specs.declared.geometry.TheConstants.{SELECTOR_PAGE};
ghost use Rattle.image_layout.specs.Geometry.{IsIn, IsWithinLimits, table_pages, table_start, table_region, total_pages};
ghost use Rattle.node_table.specs.declared.entry.Entry.{Entry as EntryOf};
ghost use Rattle.node_table.specs.Table.{HasTable, IsTablePage, WritesRow, Commits, Formats};
ghost use Rattle.node_table.specs.Steps.{ReadAs, WrittenAs, IsChoice, IsRead, HasRows, HasLinks, AreSheets, LaysOut, HasCopy, IsSwitchPage};

use crate::pages::{put_links, put_rows, take_links, take_rows};
use crate::rows::Row;
use crate::selector::{selected, selector_page};
use disk_model::{Disk, DiskFailed};
use image_layout::{Geometry, SELECTOR_PAGE, table_pages, table_start};

/// Reads which copy counts.
pub(crate) fn read_selector<D: Disk>(disk: &mut D) -> Result<Option<bool>, DiskFailed>
    requires { SELECTOR_PAGE < D.pages disk.old }
    ensures read { IfOk result (λ choice. ReadAs (D.past disk.old) SELECTOR_PAGE (IsChoice choice)) }
    ensures past_stays { D.past disk.new ≡ D.past disk.old }
    ensures pages_stay { D.pages disk.new ≡ D.pages disk.old }
    ensures tie_stays { D.tie disk.new ≡ D.tie disk.old }
    ensures faults_never_fall { D.faults disk.old ≤ D.faults disk.new }
    ensures told { IfSome (D.past disk.old) (IsPast (D.pages disk.old)) }
    ensures cause { OnErr result (Rose (D.faults disk.old) (D.faults disk.new)) }
{
    let mut page = [0; 4096];
    disk.read(SELECTOR_PAGE, &mut page)?;
    Ok(selected(&page))
}

/// Reads pages of rows, from the one numbered `first`.
pub(crate) fn read_rows<D: Disk>(
    disk: &mut D,
    first: u32,
    count: u32,
    rows: &mut Vec<Row>,
) -> Result<(), DiskFailed>
    requires pages { first + count ≤ D.pages disk.old }
    requires empty { rows.old.items ≡ [] }
    requires room { 64 * count ≤ vec_capacity rows.old }
    ensures size { OnOk result (length rows.new.items ≡ 64 * count) }
    ensures read { OnOk result ((j : ℕ) → j < count
        → ReadAs (D.past disk.old) (first + j) (HasRows rows.new.items j)) }
    ensures past_stays { D.past disk.new ≡ D.past disk.old }
    ensures pages_stay { D.pages disk.new ≡ D.pages disk.old }
    ensures tie_stays { D.tie disk.new ≡ D.tie disk.old }
    ensures faults_never_fall { D.faults disk.old ≤ D.faults disk.new }
    ensures cause { OnErr result (Rose (D.faults disk.old) (D.faults disk.new)) }
{
    let _count = disk.pages();
    let mut page = [0; 4096];
    for j in 0..count {
        disk.read(first + j, &mut page)?;
        take_rows(&page, rows);
    }
    Ok(())
}

/// Reads pages of links, from the one numbered `first`.
pub(crate) fn read_links<D: Disk>(
    disk: &mut D,
    first: u32,
    count: u32,
    links: &mut Vec<u32>,
) -> Result<(), DiskFailed>
    requires pages { first + count ≤ D.pages disk.old }
    requires empty { links.old.items ≡ [] }
    requires room { 1024 * count ≤ vec_capacity links.old }
    ensures size { OnOk result (length links.new.items ≡ 1024 * count) }
    ensures read { OnOk result ((j : ℕ) → j < count
        → ReadAs (D.past disk.old) (first + j) (HasLinks links.new.items j)) }
    ensures past_stays { D.past disk.new ≡ D.past disk.old }
    ensures pages_stay { D.pages disk.new ≡ D.pages disk.old }
    ensures tie_stays { D.tie disk.new ≡ D.tie disk.old }
    ensures faults_never_fall { D.faults disk.old ≤ D.faults disk.new }
    ensures cause { OnErr result (Rose (D.faults disk.old) (D.faults disk.new)) }
{
    let _count = disk.pages();
    let mut page = [0; 4096];
    for j in 0..count {
        disk.read(first + j, &mut page)?;
        take_links(&page, links);
    }
    Ok(())
}

/// Reads the rows and links of the copy that counts, and answers which one that is.
pub(crate) fn read_table<D: Disk>(
    disk: &mut D,
    geometry: &Geometry,
    rows: &mut Vec<Row>,
    links: &mut Vec<u32>,
) -> Result<Option<bool>, DiskFailed>
    requires limits { IsWithinLimits geometry.now }
    requires room { total_pages geometry.now ≤ D.pages disk.old }
    requires no_rows { rows.old.items ≡ [] }
    requires no_links { links.old.items ≡ [] }
    requires row_room { geometry.now.blobs ≤ vec_capacity rows.old }
    requires link_room { geometry.now.data_pages ≤ vec_capacity links.old }
    ensures sheets { IfOk result (λ choice. IfSome choice (λ second.
        AreSheets geometry.now rows.new.items links.new.items)) }
    ensures read { IfOk result (λ choice. SomeImage (D.past disk.old)
        (IsRead geometry.now rows.new.items links.new.items choice)) }
    ensures past_stays { D.past disk.new ≡ D.past disk.old }
    ensures pages_stay { D.pages disk.new ≡ D.pages disk.old }
    ensures tie_stays { D.tie disk.new ≡ D.tie disk.old }
    ensures faults_never_fall { D.faults disk.old ≤ D.faults disk.new }
    ensures told { IfSome (D.past disk.new) (IsPast (D.pages disk.new)) }
    ensures cause { OnErr result (Rose (D.faults disk.old) (D.faults disk.new)) }
{
    let Some(second) = read_selector(disk)? else {
        return Ok(None);
    };
    let first = table_start(geometry, second);
    let count = geometry.blobs / 64;
    read_rows(disk, first, count, rows)?;
    read_links(disk, first + count, geometry.data_pages / 1024, links)?;
    Ok(Some(second))
}

/// Writes pages of rows, from the one numbered `first`.
pub(crate) fn write_rows<D: Disk>(
    disk: &mut D,
    first: u32,
    count: u32,
    rows: &[Row],
) -> Result<(), DiskFailed>
    requires pages { first + count ≤ D.pages disk.old }
    requires rows { length rows.now ≡ 64 * count }
    ensures written { OnOk result ((j : ℕ) → j < count
        → WrittenAs (D.past disk.new) (first + j) (HasRows rows.now j)) }
    ensures acts { OnOk result (WritesRow first count [] (D.past disk.old) (D.past disk.new)) }
    ensures only { WritesOnly (D.past disk.old) (D.past disk.new) (IsInRow first count) }
    ensures pages_stay { D.pages disk.new ≡ D.pages disk.old }
    ensures tie_stays { D.tie disk.new ≡ D.tie disk.old }
    ensures reads_stay { D.reads disk.new ≡ D.reads disk.old }
    ensures faults_never_fall { D.faults disk.old ≤ D.faults disk.new }
    ensures told { IfSome (D.past disk.new) (IsPast (D.pages disk.new)) }
    ensures cause { OnErr result (Rose (D.faults disk.old) (D.faults disk.new)) }
{
    let _count = disk.pages();
    let mut page = [0; 4096];
    for j in 0..count {
        let at = 64 * j as usize;
        put_rows(&rows[at..at + 64], &mut page);
        disk.write(first + j, &page)?;
    }
    Ok(())
}

/// Writes pages of links, from the one numbered `first`.
pub(crate) fn write_links<D: Disk>(
    disk: &mut D,
    first: u32,
    count: u32,
    links: &[u32],
) -> Result<(), DiskFailed>
    requires pages { first + count ≤ D.pages disk.old }
    requires links { length links.now ≡ 1024 * count }
    ensures written { OnOk result ((j : ℕ) → j < count
        → WrittenAs (D.past disk.new) (first + j) (HasLinks links.now j)) }
    ensures acts { OnOk result (WritesRow first count [] (D.past disk.old) (D.past disk.new)) }
    ensures only { WritesOnly (D.past disk.old) (D.past disk.new) (IsInRow first count) }
    ensures pages_stay { D.pages disk.new ≡ D.pages disk.old }
    ensures tie_stays { D.tie disk.new ≡ D.tie disk.old }
    ensures reads_stay { D.reads disk.new ≡ D.reads disk.old }
    ensures faults_never_fall { D.faults disk.old ≤ D.faults disk.new }
    ensures told { IfSome (D.past disk.new) (IsPast (D.pages disk.new)) }
    ensures cause { OnErr result (Rose (D.faults disk.old) (D.faults disk.new)) }
{
    let _count = disk.pages();
    let mut page = [0; 4096];
    for j in 0..count {
        let at = 1024 * j as usize;
        put_links(&links[at..at + 1024], &mut page);
        disk.write(first + j, &page)?;
    }
    Ok(())
}

/// Writes a copy, and syncs.
pub(crate) fn settle_copy<D: Disk>(
    disk: &mut D,
    geometry: &Geometry,
    second: bool,
    rows: &[Row],
    links: &[u32],
) -> Result<(), DiskFailed>
    requires limits { IsWithinLimits geometry.now }
    requires room { total_pages geometry.now ≤ D.pages disk.old }
    requires sheets { AreSheets geometry.now rows.now links.now }
    ensures settled { OnOk result
        (EachImage (D.past disk.new) (HasCopy geometry.now second rows.now links.now)) }
    ensures acts { OnOk result (WritesRow (table_start geometry.now second)
        (table_pages geometry.now) (Synced ∷ []) (D.past disk.old) (D.past disk.new)) }
    ensures only { WritesOnly (D.past disk.old) (D.past disk.new)
        (IsIn (table_region geometry.now second)) }
    ensures pages_stay { D.pages disk.new ≡ D.pages disk.old }
    ensures tie_stays { D.tie disk.new ≡ D.tie disk.old }
    ensures reads_stay { D.reads disk.new ≡ D.reads disk.old }
    ensures faults_never_fall { D.faults disk.old ≤ D.faults disk.new }
    ensures told { IfSome (D.past disk.new) (IsPast (D.pages disk.new)) }
    ensures cause { OnErr result (Rose (D.faults disk.old) (D.faults disk.new)) }
{
    let first = table_start(geometry, second);
    let count = geometry.blobs / 64;
    write_rows(disk, first, count, rows)?;
    write_links(disk, first + count, geometry.data_pages / 1024, links)?;
    disk.sync()?;
    Ok(())
}

/// Writes a copy, syncs, selects that copy, and syncs again.
pub(crate) fn switch<D: Disk>(
    disk: &mut D,
    geometry: &Geometry,
    second: bool,
    rows: &[Row],
    links: &[u32],
) -> Result<(), DiskFailed>
    requires limits { IsWithinLimits geometry.now }
    requires room { total_pages geometry.now ≤ D.pages disk.old }
    requires sheets { AreSheets geometry.now rows.now links.now }
    ensures each_moment { (before after : List EntryOf)
        → EachImage (D.past disk.old) (HasTable geometry.now (not second) before)
        → LaysOut geometry.now rows.now links.now after
        → AtEach (D.past disk.old) (D.past disk.new) (λ image.
        HasTable geometry.now (not second) before image
        ⊎ HasTable geometry.now second after image) }
    ensures done { OnOk result ((after : List EntryOf)
        → LaysOut geometry.now rows.now links.now after
        → EachImage (D.past disk.new) (HasTable geometry.now second after)) }
    ensures acts { OnOk result (Commits geometry.now second (D.past disk.old) (D.past disk.new)) }
    ensures only { WritesOnly (D.past disk.old) (D.past disk.new)
        (IsSwitchPage geometry.now second) }
    ensures pages_stay { D.pages disk.new ≡ D.pages disk.old }
    ensures tie_stays { D.tie disk.new ≡ D.tie disk.old }
    ensures reads_stay { D.reads disk.new ≡ D.reads disk.old }
    ensures faults_never_fall { D.faults disk.old ≤ D.faults disk.new }
    ensures told { IfSome (D.past disk.new) (IsPast (D.pages disk.new)) }
    ensures cause { OnErr result (Rose (D.faults disk.old) (D.faults disk.new)) }
{
    settle_copy(disk, geometry, second, rows, links)?;
    disk.write(SELECTOR_PAGE, &selector_page(second))?;
    disk.sync()?;
    Ok(())
}

fn zero_page() -> [u8; 4096]
    ensures { result ≡ zero_page }
{
    [0; 4096]
}

// Writes pages of zeros, from the one numbered `first`.
fn write_zeros<D: Disk>(disk: &mut D, first: u32, count: u32) -> Result<(), DiskFailed>
    requires pages { first + count ≤ D.pages disk.old }
    ensures written { OnOk result ((j : ℕ) → j < count
        → IsWritten (D.past disk.new) (first + j) zero_page) }
    ensures acts { OnOk result (WritesRow first count [] (D.past disk.old) (D.past disk.new)) }
    ensures only { WritesOnly (D.past disk.old) (D.past disk.new) (IsInRow first count) }
    ensures pages_stay { D.pages disk.new ≡ D.pages disk.old }
    ensures tie_stays { D.tie disk.new ≡ D.tie disk.old }
    ensures reads_stay { D.reads disk.new ≡ D.reads disk.old }
    ensures faults_never_fall { D.faults disk.old ≤ D.faults disk.new }
    ensures told { IfSome (D.past disk.new) (IsPast (D.pages disk.new)) }
    ensures cause { OnErr result (Rose (D.faults disk.old) (D.faults disk.new)) }
{
    let _count = disk.pages();
    let page = zero_page();
    for j in 0..count {
        disk.write(first + j, &page)?;
    }
    Ok(())
}

/// Writes an empty table: zeros on both copies, and the selector of the first one.
pub(crate) fn write_empty<D: Disk>(disk: &mut D, geometry: &Geometry) -> Result<(), DiskFailed>
    requires limits { IsWithinLimits geometry.now }
    requires room { total_pages geometry.now ≤ D.pages disk.old }
    ensures empty { OnOk result (EachImage (D.past disk.new) (HasTable geometry.now false [])) }
    ensures acts { OnOk result (Formats geometry.now (D.past disk.old) (D.past disk.new)) }
    ensures only { WritesOnly (D.past disk.old) (D.past disk.new) (IsTablePage geometry.now) }
    ensures pages_stay { D.pages disk.new ≡ D.pages disk.old }
    ensures tie_stays { D.tie disk.new ≡ D.tie disk.old }
    ensures reads_stay { D.reads disk.new ≡ D.reads disk.old }
    ensures faults_never_fall { D.faults disk.old ≤ D.faults disk.new }
    ensures told { IfSome (D.past disk.new) (IsPast (D.pages disk.new)) }
    ensures cause { OnErr result (Rose (D.faults disk.old) (D.faults disk.new)) }
{
    write_zeros(
        disk,
        table_start(geometry, false),
        2 * table_pages(geometry),
    )?;
    disk.write(SELECTOR_PAGE, &selector_page(false))?;
    disk.sync()?;
    Ok(())
}
