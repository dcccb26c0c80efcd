//! The table, in memory and on the disk.

ghost use Rattle.std.specs.Prelude.{◌≡◌, ◌⊎◌, ◌↔◌, ◌+◌, ◌<◌, ◌≤◌, false, not, [], length, option_copied, IfSome, IfOk, IfErr, OnOk, OnErr};
ghost use Rattle.std.specs.Option.{ForSome};
ghost use Rattle.disk_model.specs.Past.{IsPast, Rose};
ghost use Rattle.disk_model.specs.Images.{EachImage, SomeImage, AtEach, WritesOnly};
ghost use Rattle.image_layout.specs.Geometry.{IsWithinLimits, total_pages};
ghost use Rattle.node_table.specs.Entries.{AreSound, MayCome, entry_of};
ghost use Rattle.node_table.specs.Steps.{AreEmpty};
ghost use Rattle.node_table.specs.Table.{Has, HasTable, Fits, HaveOneTable, HasCause, IsTablePage, IsCommitPage, Commits, Formats, committed, after_commit};

use crate::admit::judge;
use crate::copy::{read_table, write_empty};
use crate::entry::{CommitReply, Entry, LoadFault};
use crate::index::{change, find};
use crate::rows::Row;
use crate::write::write_commit;
use disk_model::{Disk, DiskFailed};
use image_layout::{Geometry, Place, table_start};
use pkg_names::Root;
use std::alloc::{AllocError, Global};
use std::collections::HashMap;
use std::marker::Model;

/// The table of an image. Contracts see its geometry, which copy counts, its entries in stock order, and
/// whether a commit has broken it.
#[derive(Drop)]
pub struct Table {
    geometry: Geometry,
    second: bool,
    broken: bool,
    entries: Vec<Entry>,
    index: HashMap<Root, u32>,
    // what a commit writes is laid out here, so that it takes no memory
    rows: Vec<Row>,
    links: Vec<u32>,
    // whether the entries are laid out there
    laid: bool,
}

impl Model for Table {
    ghost use Rattle.node_table.specs.Table.{TableView};
    ghost use Rattle.node_table.specs.Steps.{IsTable};

    ghost Value = { TableView };

    ghost view = { λ t. record {
      geometry = t.geometry;
      second = t.second;
      entries = t.entries.items;
      broken = t.broken;
    } };

    ghost invariant = { λ t. IsTable t.geometry t.entries t.index t.laid t.rows t.links };
}

impl Table {
    /// Writes an empty table. There need not be a super page yet.
    pub fn format<D: Disk>(disk: &mut D, geometry: &Geometry) -> Result<(), DiskFailed>
        requires limits { IsWithinLimits geometry.now }
        requires room { total_pages geometry.now ≤ D.pages disk.old }
        ensures empty { OnOk result (EachImage (D.past disk.new) (HasTable geometry.now false [])) }
        ensures acts { OnOk result (Formats geometry.now (D.past disk.old) (D.past disk.new)) }
        ensures only { WritesOnly (D.past disk.old) (D.past disk.new) (IsTablePage geometry.now) }
        ensures pages_stay { D.pages disk.new ≡ D.pages disk.old }
        ensures tie_stays { D.tie disk.new ≡ D.tie disk.old }
        ensures reads_stay { D.reads disk.new ≡ D.reads disk.old }
        ensures faults_never_fall { D.faults disk.old ≤ D.faults disk.new }
        ensures told { IfSome (D.past disk.new) (IsPast (D.pages disk.new)) }
        ensures cause { OnErr result (Rose (D.faults disk.old) (D.faults disk.new)) }
    {
        write_empty(disk, geometry)
    }

    /// Reads the table of a disk. What was read stands together in some image of the disk, and the answer
    /// is that image's table, or where it is damaged.
    pub fn load<D: Disk>(
        alloc: Global,
        disk: &mut D,
        geometry: &Geometry,
    ) -> Result<Table, LoadFault>
        requires limits { IsWithinLimits geometry.now }
        requires room { total_pages geometry.now ≤ D.pages disk.old }
        ensures geometry { IfOk result (λ table. table.geometry ≡ geometry.now) }
        ensures unbroken { IfOk result (λ table. table.broken ≡ false) }
        ensures sound { IfOk result (λ table. AreSound table.geometry table.entries) }
        ensures table { IfOk result (λ table. SomeImage (D.past disk.old) (Has table)) }
        ensures damaged { IfErr result (HasCause (D.past disk.old) geometry.now) }
        ensures fits { HaveOneTable (D.past disk.old) geometry.now
            → IfOk result (Fits (D.past disk.new)) }
        ensures past_stays { D.past disk.new ≡ D.past disk.old }
        ensures pages_stay { D.pages disk.new ≡ D.pages disk.old }
        ensures tie_stays { D.tie disk.new ≡ D.tie disk.old }
        ensures faults_never_fall { D.faults disk.old ≤ D.faults disk.new }
        ensures told { IfSome (D.past disk.new) (IsPast (D.pages disk.new)) }
        ensures cause { result ≡ Err LoadFault.Read → Rose (D.faults disk.old) (D.faults disk.new) }
    {
        let _pages = disk.pages();
        let Ok(parts) = Parts::make(alloc, geometry) else {
            return Err(LoadFault::NoMemory);
        };
        let Parts {
            mut rows,
            mut links,
            mut taken,
            mut entries,
            mut index,
        } = parts;
        let second = match read_table(disk, geometry, &mut rows, &mut links) {
            Ok(Some(second)) => second,
            Ok(None) => return Err(LoadFault::Damaged {
                place: Place::Selector,
            }),
            Err(_) => return Err(LoadFault::Read),
        };
        match judge(alloc, &rows, &links, &mut taken, &mut entries, &mut index) {
            Ok(None) => Ok(Table {
                geometry: *geometry,
                second,
                broken: false,
                entries,
                index,
                rows,
                links,
                laid: false,
            }),
            Ok(Some(row)) => Err(LoadFault::Damaged {
                place: Place::Table {
                    page: table_start(geometry, second) + row / 64,
                },
            }),
            Err(_) => Err(LoadFault::NoMemory),
        }
    }

    /// Takes the entries of these roots away and puts an entry last, in one change of the disk. Entries that
    /// go make room for one that comes.
    pub fn commit<D: Disk>(
        &mut self,
        disk: &mut D,
        add: Option<Entry>,
        drop: &[Root],
    ) -> CommitReply
        requires unbroken { self.old.broken ≡ false }
        requires room { total_pages self.old.geometry ≤ D.pages disk.old }
        requires added { ForSome add (MayCome self.old.geometry self.old.entries) }
        ensures value { self.new ≡ after_commit self.old add drop.now result }
        ensures sound { AreSound self.new.geometry self.new.entries }
        ensures no_node { (result ≡ CommitReply.NoNode)
            ↔ (self.old.geometry.blobs < length (committed self.old add drop.now).entries) }
        ensures untouched { result ≡ CommitReply.NoNode → disk.new ≡ disk.old }
        ensures each_moment { Fits (D.past disk.old) self.old
            → AtEach (D.past disk.old) (D.past disk.new) (λ image.
            Has self.old image ⊎ Has (committed self.old add drop.now) image) }
        ensures done { result ≡ CommitReply.Done → Fits (D.past disk.new) self.new }
        ensures acts { result ≡ CommitReply.Done
            → Commits self.old.geometry (not self.old.second) (D.past disk.old) (D.past disk.new) }
        ensures only { WritesOnly (D.past disk.old) (D.past disk.new) (IsCommitPage self.old) }
        ensures pages_stay { D.pages disk.new ≡ D.pages disk.old }
        ensures tie_stays { D.tie disk.new ≡ D.tie disk.old }
        ensures reads_stay { D.reads disk.new ≡ D.reads disk.old }
        ensures faults_never_fall { D.faults disk.old ≤ D.faults disk.new }
        ensures told { IfSome (D.past disk.new) (IsPast (D.pages disk.new)) }
        ensures cause { result ≡ CommitReply.Broke → Rose (D.faults disk.old) (D.faults disk.new) }
    {
        let reply = write_commit(
            disk,
            &self.geometry,
            self.second,
            &self.entries,
            &add,
            drop,
            self.laid,
            &mut self.rows,
            &mut self.links,
        );
        match reply {
            CommitReply::Done => {
                self.second = !self.second;
                self.laid = true;
                change(&mut self.entries, &mut self.index, add, drop);
                CommitReply::Done
            }
            CommitReply::NoNode => {
                self.laid = false;
                CommitReply::NoNode
            }
            CommitReply::Broke => {
                self.laid = false;
                self.broken = true;
                CommitReply::Broke
            }
        }
    }

    /// The entries, in stock order.
    pub fn entries(&self) -> &[Entry]
        ensures list { result.now ≡ self.now.entries }
        ensures sound { AreSound self.now.geometry self.now.entries }
    {
        &self.entries
    }

    /// The entry of a root, in a time that doesn't grow with the number of entries.
    pub fn find(&self, root: &Root) -> Option<&Entry>
        ensures found { option_copied result ≡ entry_of self.now.entries root.now }
        ensures sound { AreSound self.now.geometry self.now.entries }
    {
        find(&self.index, &self.entries, root)
    }

    pub fn geometry(&self) -> &Geometry
        ensures geometry { result.now ≡ self.now.geometry }
        ensures limits { IsWithinLimits self.now.geometry }
    {
        &self.geometry
    }

    /// Whether a commit has answered `Broke`, so that the table can't be written any more.
    pub fn is_broken(&self) -> bool
        ensures { result ≡ self.now.broken }
    {
        self.broken
    }
}

// What loading makes room for.
#[derive(Drop)]
struct Parts {
    rows: Vec<Row>,
    links: Vec<u32>,
    taken: Vec<bool>,
    entries: Vec<Entry>,
    index: HashMap<Root, u32>,
}

impl Parts {
    fn make(alloc: Global, geometry: &Geometry) -> Result<Parts, AllocError>
        ensures { IfOk result (λ parts. AreEmpty geometry.now parts.rows parts.links parts.taken
            parts.entries parts.index) }
    {
        Ok(Parts {
            rows: Vec::with_capacity(alloc, geometry.blobs as usize)?,
            links: Vec::with_capacity(alloc, geometry.data_pages as usize)?,
            taken: vec![in alloc; false; geometry.data_pages as usize]?,
            entries: Vec::with_capacity(alloc, geometry.blobs as usize)?,
            index: HashMap::with_capacity(alloc, geometry.blobs as usize)?,
        })
    }
}
