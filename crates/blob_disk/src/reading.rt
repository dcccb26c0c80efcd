//! Blobs are read and checked.

ghost use Rattle.std.specs.Prelude.{◌≡◌, ◌+◌, ◌*◌, ◌<◌, ◌≤◌, length, Err, IfOk, OnOk};
ghost use Rattle.std.specs.List.{All};
ghost use Rattle.disk_model.specs.Past.{Rose, RoseBy};
ghost use Rattle.pkg_merkle.specs.declared.hasher.TheConstants.{BYTES_LIMIT};
ghost use Rattle.blob_pages.specs.Pages.{page_count};
ghost use Rattle.blob_disk.specs.Reading.{ReadsAll, Checks};

use crate::answers::{BlobFault, CheckFault};
use blob_pages::{read_blob, root_of_blob};
use disk_model::Disk;
use node_table::Entry;
use pkg_merkle::root_of;
use pkg_names::Bytes;
use std::alloc::Global;

/// Reads a whole blob, whose pages are counted from `start`.
pub(crate) fn read_entry<D: Disk>(
    alloc: Global,
    disk: &mut D,
    start: u32,
    entry: &Entry,
    limit: u32,
) -> Result<Bytes, BlobFault>
    requires limit { entry.now.len ≤ BYTES_LIMIT }
    requires whole { entry.now.len ≤ 4096 * length entry.now.pages }
    requires range { All (λ page. start + page < D.pages disk.old) entry.now.pages }
    ensures too_long { limit < entry.now.len → result ≡ Err (BlobFault.TooLong entry.now.len) }
    ensures reads { ReadsAll (D.past disk.old) start limit entry.now result }
    ensures past_stays { D.past disk.new ≡ D.past disk.old }
    ensures pages_stay { D.pages disk.new ≡ D.pages disk.old }
    ensures tie_stays { D.tie disk.new ≡ D.tie disk.old }
    ensures faults_never_fall { D.faults disk.old ≤ D.faults disk.new }
    ensures cause { result ≡ Err BlobFault.Read → Rose (D.faults disk.old) (D.faults disk.new) }
{
    if entry.len > limit as u64 {
        return Err(BlobFault::TooLong { len: entry.len });
    }
    let Ok(mut bytes) = Vec::with_capacity(alloc, entry.len as usize) else {
        return Err(BlobFault::NoMemory);
    };
    if read_blob(disk, start, entry.pages.as_slice(), entry.len, &mut bytes).is_err() {
        return Err(BlobFault::Read);
    }
    let got = root_of(&bytes);
    if got != entry.root {
        return Err(BlobFault::Rotten { got });
    }
    Ok(Bytes::make(bytes))
}

/// Reads a whole blob and makes its root anew.
pub(crate) fn check_entry<D: Disk>(
    disk: &mut D,
    start: u32,
    entry: &Entry,
) -> Result<u64, CheckFault>
    requires limit { entry.now.len ≤ BYTES_LIMIT }
    requires whole { entry.now.len ≤ 4096 * length entry.now.pages }
    requires range { All (λ page. start + page < D.pages disk.old) entry.now.pages }
    ensures checks { Checks (D.past disk.old) start entry.now result }
    ensures reads { OnOk result
        (RoseBy (page_count entry.now.len) (D.reads disk.old) (D.reads disk.new)) }
    ensures past_stays { D.past disk.new ≡ D.past disk.old }
    ensures pages_stay { D.pages disk.new ≡ D.pages disk.old }
    ensures tie_stays { D.tie disk.new ≡ D.tie disk.old }
    ensures faults_never_fall { D.faults disk.old ≤ D.faults disk.new }
    ensures cause { result ≡ Err CheckFault.Read → Rose (D.faults disk.old) (D.faults disk.new) }
{
    match root_of_blob(disk, start, entry.pages.as_slice(), entry.len) {
        Ok(got) if got == entry.root => Ok(entry.len),
        Ok(got) => Err(CheckFault::Rotten { got }),
        Err(_) => Err(CheckFault::Read),
    }
}
