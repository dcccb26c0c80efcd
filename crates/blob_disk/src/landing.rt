//! The table changes: a blob comes, or blobs go.

ghost use Rattle.std.specs.Prelude.{◌≡◌, ◌⊎◌, ℕ, ◌+◌, ◌/◌, ◌<◌, ◌≤◌, true, false, List, [], length, Some, None, IsSome, OnOk, OnErr};
ghost use Rattle.pkg_names.specs.declared.root.Root.{Root as RootOf};
ghost use Rattle.pkg_merkle.specs.Merkle.{merkle_root};
ghost use Rattle.disk_model.specs.Past.{Rose};
ghost use Rattle.disk_model.specs.Images.{AtEach, WritesOnly};
ghost use Rattle.image_layout.specs.Geometry.{IsWithinLimits, data_start, total_pages};
ghost use Rattle.node_table.specs.Entries.{AreSound, MayCome};
ghost use Rattle.std.specs.Option.{ForSome};
ghost use Rattle.node_table.specs.Table.{Fits, Has, IsCommitPage, committed};
ghost use Rattle.blob_pages.specs.Pages.{open_page};
ghost use Rattle.blob_pages.specs.Written.{IsOn, AreWritten};
ghost use Rattle.blob_disk.specs.Drafts.{with_flag};
ghost use Rattle.blob_disk.specs.Stock.{HasBlobs, Stores};
ghost use Rattle.blob_disk.specs.Writes.{AddsOnePage};

use blob_pages::{PAGE_SIZE, settle_blob};
use disk_model::{Disk, DiskFailed};
use image_layout::data_start;
use node_table::{CommitReply, Entry, Table};
use pkg_names::Root;

/// Writes the open page of a blob that came whole, if it has one, syncs, and puts its entry last in the
/// table, by one commit.
pub(crate) fn land_entry<D: Disk>(
    table: &mut Table,
    disk: &mut D,
    entry: Entry,
    page: &Option<[u8; 4096]>,
) -> Result<(), DiskFailed>
    requires unbroken { table.old.broken ≡ false }
    requires room { total_pages table.old.geometry ≤ D.pages disk.old }
    requires added { MayCome table.old.geometry table.old.entries entry }
    requires begun { IsSome page.now → entry.len / PAGE_SIZE < length entry.pages }
    requires node { length table.old.entries < table.old.geometry.blobs }
    ensures landed { OnOk result (table.new ≡ committed table.old (Some entry) []) }
    ensures failed { OnErr result (table.new ≡ with_flag table.new.broken table.old) }
    ensures each_moment { (blob : List ℕ) (contents : RootOf → List ℕ) → length blob ≡ entry.len
        → page.now ≡ open_page blob → merkle_root blob ≡ entry.root → contents entry.root ≡ blob
        → AreWritten (D.past disk.old) (data_start table.old.geometry) entry.pages blob (entry.len / PAGE_SIZE)
        → Stores (D.past disk.old) table.old contents
        → AtEach (D.past disk.old) (D.past disk.new) (λ image. HasBlobs table.old contents image
        ⊎ HasBlobs (committed table.old (Some entry) []) contents image) }
    ensures stores { OnOk result ((blob : List ℕ) (contents : RootOf → List ℕ) → length blob ≡ entry.len
        → page.now ≡ open_page blob → merkle_root blob ≡ entry.root → contents entry.root ≡ blob
        → AreWritten (D.past disk.old) (data_start table.old.geometry) entry.pages blob (entry.len / PAGE_SIZE)
        → Stores (D.past disk.old) table.old contents
        → Stores (D.past disk.new) table.new contents) }
    ensures only { WritesOnly (D.past disk.old) (D.past disk.new)
        (λ n. IsOn (data_start table.old.geometry) entry.pages n ⊎ IsCommitPage table.old n) }
    ensures few { OnOk result
        (AddsOnePage (data_start table.old.geometry) (D.past disk.old) (D.past disk.new)) }
    ensures pages_stay { D.pages disk.new ≡ D.pages disk.old }
    ensures tie_stays { D.tie disk.new ≡ D.tie disk.old }
    ensures reads_stay { D.reads disk.new ≡ D.reads disk.old }
    ensures faults_never_fall { D.faults disk.old ≤ D.faults disk.new }
    ensures cause { OnErr result (Rose (D.faults disk.old) (D.faults disk.new)) }
{
    let start = data_start(table.geometry());
    settle_blob(disk, start, entry.pages.as_slice(), entry.len, page)?;
    commit(table, disk, Some(entry), &[])
}

/// Takes the blobs of these roots out of the table, by one commit.
pub(crate) fn remove_entries<D: Disk>(
    table: &mut Table,
    disk: &mut D,
    roots: &[Root],
) -> Result<(), DiskFailed>
    requires unbroken { table.old.broken ≡ false }
    requires room { total_pages table.old.geometry ≤ D.pages disk.old }
    ensures removed { OnOk result (table.new ≡ committed table.old None roots.now) }
    ensures failed { OnErr result (table.new ≡ with_flag true table.old) }
    ensures each_moment { (contents : RootOf → List ℕ) → Stores (D.past disk.old) table.old contents
        → AtEach (D.past disk.old) (D.past disk.new) (λ image. HasBlobs table.old contents image
        ⊎ HasBlobs (committed table.old None roots.now) contents image) }
    ensures stores { OnOk result ((contents : RootOf → List ℕ)
        → Stores (D.past disk.old) table.old contents → Stores (D.past disk.new) table.new contents) }
    ensures only { WritesOnly (D.past disk.old) (D.past disk.new) (IsCommitPage table.old) }
    ensures pages_stay { D.pages disk.new ≡ D.pages disk.old }
    ensures tie_stays { D.tie disk.new ≡ D.tie disk.old }
    ensures reads_stay { D.reads disk.new ≡ D.reads disk.old }
    ensures faults_never_fall { D.faults disk.old ≤ D.faults disk.new }
    ensures cause { OnErr result (Rose (D.faults disk.old) (D.faults disk.new)) }
{
    let _stock = table.entries();
    commit(table, disk, None, roots)
}

// A commit that has room for its entry.
fn commit<D: Disk>(
    table: &mut Table,
    disk: &mut D,
    add: Option<Entry>,
    gone: &[Root],
) -> Result<(), DiskFailed>
    requires unbroken { table.old.broken ≡ false }
    requires room { total_pages table.old.geometry ≤ D.pages disk.old }
    requires added { ForSome add (MayCome table.old.geometry table.old.entries) }
    requires node { length (committed table.old add gone.now).entries ≤ table.old.geometry.blobs }
    ensures done { OnOk result (table.new ≡ committed table.old add gone.now) }
    ensures failed { OnErr result (table.new ≡ with_flag true table.old) }
    ensures each_moment { Fits (D.past disk.old) table.old
        → AtEach (D.past disk.old) (D.past disk.new) (λ image.
        Has table.old image ⊎ Has (committed table.old add gone.now) image) }
    ensures fits { OnOk result (Fits (D.past disk.new) table.new) }
    ensures only { WritesOnly (D.past disk.old) (D.past disk.new) (IsCommitPage table.old) }
    ensures pages_stay { D.pages disk.new ≡ D.pages disk.old }
    ensures tie_stays { D.tie disk.new ≡ D.tie disk.old }
    ensures reads_stay { D.reads disk.new ≡ D.reads disk.old }
    ensures faults_never_fall { D.faults disk.old ≤ D.faults disk.new }
    ensures cause { OnErr result (Rose (D.faults disk.old) (D.faults disk.new)) }
{
    match table.commit(disk, add, gone) {
        CommitReply::Done => Ok(()),
        CommitReply::Broke => Err(DiskFailed),
        CommitReply::NoNode => unreachable!(),
    }
}
