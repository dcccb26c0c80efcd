//! A copy in memory of any disk.

ghost use Rattle.std.specs.Prelude.{◌≡◌, ◌+◌, ◌-◌, ◌^◌, ◌<◌, ◌≤◌, min, ℕ, [], ◌∷◌, ◌++◌, List, length, vec_len, Some, Err, Option, IfOk, OnOk, OnErr, IfSome, IsErrOf};
ghost use Rattle.std.specs.List.{AllByRecursion};
ghost use Rattle.disk_model.specs.Past.{Page, Past, IsPage, IsPast, page_at, state_of, MayRead, Rose, RoseBy};
ghost use Rattle.disk_model.specs.Images.{IsImage};
ghost use Rattle.disk_model.specs.Disks.{new_mem, ReadsPages};

use crate::disk::Disk;
use crate::mem::MemDisk;
use crate::pages::zero_page;
use std::alloc::{AllocError, AllocFailed, Global};

/// Why a disk was not copied.
#[derive(Clone, Copy, Debug, PartialEq, Eq)]
pub enum CopyFault {
    /// The disk failed to read a page.
    Read,
    NoMemory,
}

impl From<AllocError> for CopyFault {
    ghost use Rattle.std.specs.Prelude.{◌≡◌};
    ghost use Rattle.disk_model.specs.declared.copy.CopyFault.TheVariants.{NoMemory};

    ghost from_gives = { λ _ e. e ≡ NoMemory };

    fn from(_: AllocError) -> Self {
        CopyFault::NoMemory
    }
}

impl<T: Drop> From<AllocFailed<T>> for CopyFault {
    ghost use Rattle.std.specs.Prelude.{◌≡◌};
    ghost use Rattle.disk_model.specs.declared.copy.CopyFault.TheVariants.{NoMemory};

    ghost from_gives = { λ _ e. e ≡ NoMemory };

    fn from(_: AllocFailed<T>) -> Self {
        CopyFault::NoMemory
    }
}

// Reads a page and puts it behind the others.
fn read_next<D: Disk>(disk: &mut D, page: u32, pages: &mut Vec<[u8; 4096]>) -> Result<(), CopyFault>
    requires in_range { page < D.pages disk.old }
    ensures read { OnOk result ((bytes : Page)
        × (pages.new.items ≡ pages.old.items ++ bytes ∷ []) × IsPage bytes
        × IfSome (D.past disk.old) (λ past. MayRead (state_of past page) bytes)) }
    ensures past_stays { D.past disk.new ≡ D.past disk.old }
    ensures pages_stay { D.pages disk.new ≡ D.pages disk.old }
    ensures tie_stays { D.tie disk.new ≡ D.tie disk.old }
    ensures counted { D.reads disk.new ≡ min (D.reads disk.old + 1) (2 ^ 64 - 1) }
    ensures faults_never_fall { D.faults disk.old ≤ D.faults disk.new }
    ensures cause { IsErrOf result CopyFault.Read → Rose (D.faults disk.old) (D.faults disk.new) }
{
    let mut bytes = zero_page();
    if disk.read(page, &mut bytes).is_err() {
        return Err(CopyFault::Read);
    }
    push_page(pages, &bytes)?;
    Ok(())
}

fn push_page(pages: &mut Vec<[u8; 4096]>, bytes: &[u8; 4096]) -> Result<(), AllocError>
    ensures pushed { OnOk result (pages.new.items ≡ pages.old.items ++ bytes.now ∷ []) }
    ensures page { IsPage bytes.now }
{
    pages.push(*bytes)?;
    Ok(())
}

// Reads all pages, in order.
fn read_pages<D: Disk>(alloc: Global, disk: &mut D) -> Result<Vec<[u8; 4096]>, CopyFault>
    ensures pages { IfOk result (λ pages. AllByRecursion IsPage pages.items) }
    ensures size { IfOk result (λ pages. length pages.items ≡ D.pages disk.old) }
    ensures small { D.pages disk.old < 2 ^ 32 }
    ensures read { IfOk result (λ pages. IfSome (D.past disk.old)
        (λ past. ReadsPages past (D.pages disk.old) pages.items)) }
    ensures told { IfSome (D.past disk.old) (IsPast (D.pages disk.old)) }
    ensures past_stays { D.past disk.new ≡ D.past disk.old }
    ensures pages_stay { D.pages disk.new ≡ D.pages disk.old }
    ensures tie_stays { D.tie disk.new ≡ D.tie disk.old }
    ensures counted { OnOk result (RoseBy (D.pages disk.old) (D.reads disk.old) (D.reads disk.new)) }
    ensures reads { D.reads disk.new ≤ D.reads disk.old + D.pages disk.old }
    ensures faults_never_fall { D.faults disk.old ≤ D.faults disk.new }
    ensures cause { IsErrOf result CopyFault.Read → Rose (D.faults disk.old) (D.faults disk.new) }
{
    let count = disk.pages();
    let mut pages = Vec::with_capacity(alloc, count as usize)?;
    for page in 0..count {
        read_next(disk, page, &mut pages)?;
    }
    Ok(pages)
}

impl MemDisk {
    /// A disk that begins with the pages of this one as they are read, with no acts and no failing calls.
    pub fn copy_of<D: Disk>(alloc: Global, disk: &mut D) -> Result<MemDisk, CopyFault>
        ensures fresh { IfOk result (λ copy. copy ≡ new_mem copy.past.start []) }
        ensures size { IfOk result (λ copy. length copy.past.start ≡ D.pages disk.old) }
        ensures read { IfOk result (λ copy. IfSome (D.past disk.old)
            (λ past. ReadsPages past (D.pages disk.old) copy.past.start)) }
        ensures image { IfOk result (λ copy. IfSome (D.past disk.old)
            (λ past. IsImage past copy.past.start)) }
        ensures told { OnOk result (IfSome (D.past disk.old) (IsPast (D.pages disk.old))) }
        ensures past_stays { D.past disk.new ≡ D.past disk.old }
        ensures pages_stay { D.pages disk.new ≡ D.pages disk.old }
        ensures tie_stays { D.tie disk.new ≡ D.tie disk.old }
        ensures counted { OnOk result (RoseBy (D.pages disk.old) (D.reads disk.old) (D.reads disk.new)) }
        ensures reads { D.reads disk.new ≤ D.reads disk.old + D.pages disk.old }
        ensures faults_never_fall { D.faults disk.old ≤ D.faults disk.new }
        ensures cause { IsErrOf result CopyFault.Read
            → Rose (D.faults disk.old) (D.faults disk.new) }
    {
        let pages = read_pages(alloc, disk)?;
        Ok(MemDisk::with_pages(alloc, pages)?)
    }
}
