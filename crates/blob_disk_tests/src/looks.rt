//! Looks whether a call may be made.

ghost use Rattle.std.specs.Prelude.{◌≡◌, ◌≢◌, ◌≤◌, false, option_copied, IsSome, IsTrue};
ghost use Rattle.std.specs.List.{All};
ghost use Rattle.image_layout.specs.Geometry.{IsWithinLimits, total_pages};
ghost use Rattle.node_table.specs.Entries.{entry_of};
ghost use Rattle.blob_disk.specs.Drafts.{all_entries, IsDraftIn};

use blob_disk::Blobs;
use blob_pages::Draft;
use disk_model::Disk;
use image_layout::{Geometry, total_pages};
use node_table::Entry;
use pkg_names::Root;

/// The geometry is within the limits, and the disk has room for it.
pub fn has_room<D: Disk>(disk: &D, geometry: &Geometry) -> bool
    ensures within { IsTrue result → IsWithinLimits geometry.now }
    ensures room { IsTrue result → total_pages geometry.now ≤ D.pages disk.now }
{
    geometry.is_within_limits() && total_pages(geometry) <= disk.pages()
}

/// The disk has room for these blobs.
pub fn fits<D: Disk>(blobs: &Blobs, disk: &D) -> bool
    ensures { IsTrue result → total_pages blobs.now.table.geometry ≤ D.pages disk.now }
{
    has_room(disk, blobs.geometry())
}

/// These blobs can be written.
pub fn may_write<D: Disk>(blobs: &Blobs, disk: &D) -> bool
    ensures unbroken { IsTrue result → blobs.now.broken ≡ false }
    ensures room { IsTrue result → total_pages blobs.now.table.geometry ≤ D.pages disk.now }
{
    !blobs.is_broken() && fits(blobs, disk)
}

fn are_others(entries: &[Entry], root: &Root) -> bool
    ensures { IsTrue result → All (λ entry. entry.root ≢ root.now) entries.now }
{
    for entry in entries {
        if entry.root == *root {
            return false;
        }
    }
    true
}

/// Neither a blob nor a draft has this root.
pub fn is_new(blobs: &Blobs, root: &Root) -> bool
    ensures { IsTrue result → All (λ entry. entry.root ≢ root.now) (all_entries blobs.now) }
{
    are_others(blobs.entries(), root) && are_others(blobs.drafts(), root)
}

// The entry of this root.
fn entry_in<'a>(entries: &'a [Entry], root: &Root) -> Option<&'a Entry>
    ensures { option_copied result ≡ entry_of entries.now root.now }
{
    entries.iter().find(|entry| *root == entry.root)
}

/// A blob of this root is stored.
pub fn is_stored(blobs: &Blobs, root: &Root) -> bool
    ensures { IsTrue result → IsSome (entry_of blobs.now.table.entries root.now) }
{
    match entry_in(blobs.entries(), root) {
        Some(_) => true,
        None => false,
    }
}

/// The draft is one of these blobs'.
pub fn has_draft(blobs: &Blobs, draft: &Draft) -> bool
    ensures { IsTrue result → IsDraftIn blobs.now draft.now }
{
    match entry_in(blobs.drafts(), &draft.root()) {
        Some(entry) => entry.len == draft.len(),
        None => false,
    }
}
