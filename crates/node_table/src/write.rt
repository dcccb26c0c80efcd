//! The writes of a commit.

ghost use Rattle.std.specs.Prelude.{◌≡◌, ◌⊎◌, ◌↔◌, ◌<◌, ◌≤◌, not, length, IsTrue, IfSome};
ghost use Rattle.std.specs.Option.{ForSome};
ghost use Rattle.disk_model.specs.Past.{IsPast, Rose};
ghost use Rattle.disk_model.specs.Images.{EachImage, AtEach, WritesOnly};
ghost use Rattle.image_layout.specs.Geometry.{IsWithinLimits, total_pages};
ghost use Rattle.node_table.specs.Entries.{AreSound, MayCome, without, with_added};
ghost use Rattle.node_table.specs.Table.{HasTable, Commits};
ghost use Rattle.node_table.specs.Steps.{AreSheets, LaidOut, IsSwitchPage};

use crate::copy::switch;
use crate::entry::{CommitReply, Entry};
use crate::layout::lay_all;
use crate::rows::Row;
use disk_model::Disk;
use image_layout::Geometry;
use pkg_names::Root;

/// Lays out the entries after a commit, and writes them to the copy that doesn't count. `laid` says that
/// the entries before it are laid out.
pub(crate) fn write_commit<D: Disk>(
    disk: &mut D,
    geometry: &Geometry,
    second: bool,
    entries: &[Entry],
    add: &Option<Entry>,
    gone: &[Root],
    laid: bool,
    rows: &mut [Row],
    links: &mut [u32],
) -> CommitReply
    requires limits { IsWithinLimits geometry.now }
    requires room { total_pages geometry.now ≤ D.pages disk.old }
    requires sound { AreSound geometry.now entries.now }
    requires sheets { AreSheets geometry.now rows.old links.old }
    requires added { ForSome add.now (MayCome geometry.now entries.now) }
    requires laid { IsTrue laid → LaidOut rows.old links.old entries.now }
    ensures laid { result ≡ CommitReply.Done
        → LaidOut rows.new links.new (with_added add.now (without gone.now entries.now)) }
    ensures no_node { (result ≡ CommitReply.NoNode) ↔ (geometry.now.blobs
        < length (with_added add.now (without gone.now entries.now))) }
    ensures sound { (result ≡ CommitReply.NoNode → ⊥)
        → AreSound geometry.now (with_added add.now (without gone.now entries.now)) }
    ensures untouched { result ≡ CommitReply.NoNode → disk.new ≡ disk.old }
    ensures each_moment { EachImage (D.past disk.old) (HasTable geometry.now second entries.now)
        → AtEach (D.past disk.old) (D.past disk.new) (λ image.
        HasTable geometry.now second entries.now image
        ⊎ HasTable geometry.now (not second) (with_added add.now (without gone.now entries.now)) image) }
    ensures done { result ≡ CommitReply.Done → EachImage (D.past disk.new)
        (HasTable geometry.now (not second) (with_added add.now (without gone.now entries.now))) }
    ensures acts { result ≡ CommitReply.Done
        → Commits geometry.now (not second) (D.past disk.old) (D.past disk.new) }
    ensures only { WritesOnly (D.past disk.old) (D.past disk.new)
        (IsSwitchPage geometry.now (not second)) }
    ensures pages_stay { D.pages disk.new ≡ D.pages disk.old }
    ensures tie_stays { D.tie disk.new ≡ D.tie disk.old }
    ensures reads_stay { D.reads disk.new ≡ D.reads disk.old }
    ensures faults_never_fall { D.faults disk.old ≤ D.faults disk.new }
    ensures told { IfSome (D.past disk.new) (IsPast (D.pages disk.new)) }
    ensures cause { result ≡ CommitReply.Broke → Rose (D.faults disk.old) (D.faults disk.new) }
{
    let _pages = disk.pages();
    if !lay_all(entries, gone, add, laid, rows, links) {
        return CommitReply::NoNode;
    }
    match switch(disk, geometry, !second, rows, links) {
        Ok(()) => CommitReply::Done,
        Err(_) => CommitReply::Broke,
    }
}
