//! Pages in a row.

ghost use Rattle.std.specs.Prelude.{◌≡◌, ◌+◌, ◌≤◌, ◌∷◌, ◌++◌, [], length, Option, OnOk, OnErr, IfSome};
ghost use Rattle.disk_model.specs.declared.act.DiskAct.TheVariants.{Synced};
ghost use Rattle.disk_model.specs.Past.{IsPast, Rose};
ghost use Rattle.disk_model.specs.Images.{row_acts, with_acts, IsInRow, RowIsWritten, RowIsSettled, SettlesOthers, WritesOnly};

use crate::disk::{Disk, DiskFailed};

/// Writes pages in a row, from the one numbered `first`.
pub fn write_pages<D: Disk>(
    disk: &mut D,
    first: u32,
    pages: &[[u8; 4096]],
) -> Result<(), DiskFailed>
    requires { first + length pages.now ≤ D.pages disk.old }
    ensures acts { OnOk result
        (D.past disk.new ≡ with_acts (D.past disk.old) (row_acts first pages.now)) }
    ensures written { OnOk result (RowIsWritten (D.past disk.new) first pages.now) }
    ensures only { WritesOnly (D.past disk.old) (D.past disk.new) (IsInRow first (length pages.now)) }
    ensures pages_stay { D.pages disk.new ≡ D.pages disk.old }
    ensures tie_stays { D.tie disk.new ≡ D.tie disk.old }
    ensures reads_stay { D.reads disk.new ≡ D.reads disk.old }
    ensures faults_never_fall { D.faults disk.old ≤ D.faults disk.new }
    ensures told_before { IfSome (D.past disk.old) (IsPast (D.pages disk.old)) }
    ensures told { IfSome (D.past disk.new) (IsPast (D.pages disk.new)) }
    ensures cause { OnErr result (Rose (D.faults disk.old) (D.faults disk.new)) }
{
    // so the numbers of its pages fit their type
    let _count = disk.pages();
    for (i, page) in pages.iter().enumerate() {
        disk.write(first + i as u32, page)?;
    }
    Ok(())
}

/// Writes pages in a row, from the one numbered `first`, and then syncs. So each has its one value.
pub fn settle_pages<D: Disk>(
    disk: &mut D,
    first: u32,
    pages: &[[u8; 4096]],
) -> Result<(), DiskFailed>
    requires { first + length pages.now ≤ D.pages disk.old }
    ensures acts { OnOk result
        (D.past disk.new ≡ with_acts (D.past disk.old) (row_acts first pages.now ++ Synced ∷ [])) }
    ensures written { OnOk result (RowIsWritten (D.past disk.new) first pages.now) }
    ensures settled { OnOk result (RowIsSettled (D.past disk.new) first pages.now) }
    ensures others { OnOk result (SettlesOthers (D.past disk.old) (D.past disk.new)
        (IsInRow first (length pages.now)) (D.pages disk.old)) }
    ensures only { WritesOnly (D.past disk.old) (D.past disk.new) (IsInRow first (length pages.now)) }
    ensures pages_stay { D.pages disk.new ≡ D.pages disk.old }
    ensures tie_stays { D.tie disk.new ≡ D.tie disk.old }
    ensures reads_stay { D.reads disk.new ≡ D.reads disk.old }
    ensures faults_never_fall { D.faults disk.old ≤ D.faults disk.new }
    ensures told_before { IfSome (D.past disk.old) (IsPast (D.pages disk.old)) }
    ensures told { IfSome (D.past disk.new) (IsPast (D.pages disk.new)) }
    ensures cause { OnErr result (Rose (D.faults disk.old) (D.faults disk.new)) }
{
    write_pages(disk, first, pages)?;
    disk.sync()?;
    Ok(())
}
