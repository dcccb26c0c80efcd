//! The blobs of a disk.

ghost use Rattle.std.specs.Prelude.{◌≡◌, ◌≢◌, ◌⊎◌, ◌↔◌, ℕ, ◌+◌, ◌-◌, ◌/◌, ◌%◌, ◌<◌, ◌≤◌, List, [], ◌∷◌, ◌++◌, length, min, take, drop, IsSome, Bool, true, false, Option, Some, None, Ok, Err, IfOk, IfErr, IfSome, OnOk, OnErr};
ghost use Rattle.std.specs.List.{All, AllPairs, Any, Contains};
ghost use Rattle.std.specs.Option.{option_map};
ghost use Rattle.pkg_names.specs.declared.root.Root.{Root as RootOf};
ghost use Rattle.disk_model.specs.Past.{IsPast, Rose, RoseBy};
ghost use Rattle.disk_model.specs.Images.{EachImage, SomeImage, AtEach, WritesOnly};
ghost use Rattle.image_layout.specs.Geometry.{IsWithinLimits, data_start, total_pages};
ghost use Rattle.node_table.specs.Entries.{AreSound, entry_of};
ghost use Rattle.node_table.specs.Table.{HasTable, committed, IsTablePage, IsCommitPage};

use crate::answers::{BlobFault, CheckFault, LandEnd, PutEnd, RemoveEnd, RoomFault, WriteEnd};
use crate::checking::check_all;
use crate::entries::{
    chain_of, draft_at, entry_at, lend_chain, pages_for, return_chain, take_draft,
};
use crate::landing::{land_entry, remove_entries};
use crate::marks::pool_of;
use crate::pools::{give_pages, note_gone, note_pages, take_pages};
use crate::reading::{check_entry, read_entry};
use blob_pages::{Draft, DraftEnd, PIECE_LIMIT, read_part, write_full};
use disk_model::{Disk, DiskFailed};
use image_layout::{Geometry, data_start};
use node_table::{BLOB_LIMIT, Entry, LoadFault, Table};
use page_pool::{Pool, taken_after};
use pkg_names::{Bytes, Items, Root};
use std::alloc::Global;
use std::marker::Model;
use std::mem;

/// The blobs of a disk, which is lent to each call. The stock is durable; drafts are not.
#[derive(Drop)]
pub struct Blobs {
    table: Table,
    // the pages that neither a blob nor a draft has are free
    pool: Pool,
    drafts: Vec<Entry>,
    // room for the pages that a call gives back
    spare: Vec<u32>,
    broken: bool,
}

impl Model for Blobs {
    ghost use Rattle.blob_disk.specs.Drafts.{BlobsView, AreBlobs};

    ghost Value = { BlobsView };

    ghost view = { λ b. record { table = b.table; drafts = b.drafts.items; broken = b.broken } };

    ghost invariant = { λ b. AreBlobs b.table b.drafts.items b.pool b.spare b.broken };
}

impl Blobs {
    ghost use Rattle.node_table.specs.declared.entry.Entry.{Entry as EntryOf};
    ghost use Rattle.pkg_merkle.specs.Merkle.{merkle_root};
    ghost use Rattle.blob_pages.specs.Pages.{open_page, page_count};
    ghost use Rattle.blob_pages.specs.Written.{IsOn, AreWritten};
    ghost use Rattle.blob_disk.specs.Chains.{chain_of, without_draft};
    ghost use Rattle.blob_pages.specs.Draft.{have, IsDraftOf, HasNoFullPage};
    ghost use Rattle.blob_disk.specs.Stock.{HasBlobs, HasCause, HaveOneStock, IsNotDamaged, Stores};
    ghost use Rattle.blob_disk.specs.Drafts.{all_entries, room_fault, with_broken, with_failed, without_draft_of, with_landed, IsDraftIn, IsPageOf, IsPutOn};
    ghost use Rattle.blob_disk.specs.Writes.{AddsOnePage};
    ghost use Rattle.blob_disk.specs.Ends.{is_broke, put_broke, EndsLand, IsRefused, IsLanded, IsBroke};
    ghost use Rattle.blob_disk.specs.Reading.{ReadsAll, Checks, GivesBytes, IsNotRotten};

    /// Writes an empty stock. There need not be a super page yet.
    pub fn format<D: Disk>(disk: &mut D, geometry: &Geometry) -> Result<(), DiskFailed>
        requires limits { IsWithinLimits geometry.now }
        requires room { total_pages geometry.now ≤ D.pages disk.old }
        ensures empty { OnOk result (EachImage (D.past disk.new) (HasTable geometry.now false [])) }
        ensures only { WritesOnly (D.past disk.old) (D.past disk.new) (IsTablePage geometry.now) }
        ensures pages_stay { D.pages disk.new ≡ D.pages disk.old }
        ensures tie_stays { D.tie disk.new ≡ D.tie disk.old }
        ensures reads_stay { D.reads disk.new ≡ D.reads disk.old }
        ensures faults_never_fall { D.faults disk.old ≤ D.faults disk.new }
        ensures cause { OnErr result (Rose (D.faults disk.old) (D.faults disk.new)) }
    {
        Table::format(disk, geometry)
    }

    /// Loads the blobs of a disk: its table, and then the bytes of each blob, of which the root is made
    /// anew.
    pub fn attach<D: Disk>(
        alloc: Global,
        disk: &mut D,
        geometry: &Geometry,
    ) -> Result<Blobs, LoadFault>
        requires limits { IsWithinLimits geometry.now }
        requires room { total_pages geometry.now ≤ D.pages disk.old }
        ensures new { IfOk result (λ blobs. (blobs.table.geometry ≡ geometry.now)
            × (blobs.table.broken ≡ false) × (blobs.drafts ≡ []) × (blobs.broken ≡ false)) }
        ensures sound { IfOk result (λ blobs. AreSound blobs.table.geometry blobs.table.entries) }
        ensures stock { IfOk result (λ blobs. SomeImage (D.past disk.old)
            (λ image. (contents : RootOf → List ℕ) × HasBlobs blobs.table contents image)) }
        ensures damaged { IfErr result (HasCause (D.past disk.old) geometry.now) }
        ensures stores { (contents : RootOf → List ℕ)
            → HaveOneStock (D.past disk.old) geometry.now contents
            → IfOk result (λ blobs. Stores (D.past disk.new) blobs.table contents) }
        ensures undamaged { (contents : RootOf → List ℕ)
            → HaveOneStock (D.past disk.old) geometry.now contents
            → IfErr result (λ fault. IfSome (D.past disk.old) (λ _. IsNotDamaged fault)) }
        ensures past_stays { D.past disk.new ≡ D.past disk.old }
        ensures pages_stay { D.pages disk.new ≡ D.pages disk.old }
        ensures tie_stays { D.tie disk.new ≡ D.tie disk.old }
        ensures faults_never_fall { D.faults disk.old ≤ D.faults disk.new }
        ensures cause { result ≡ Err LoadFault.Read → Rose (D.faults disk.old) (D.faults disk.new) }
    {
        let table = Table::load(alloc, disk, geometry)?;
        check_all(disk, geometry, table.entries())?;
        let Ok(mut spare) = Vec::with_capacity(alloc, geometry.data_pages as usize) else {
            return Err(LoadFault::NoMemory);
        };
        let Ok(pool) = pool_of(alloc, geometry, table.entries(), &mut spare) else {
            return Err(LoadFault::NoMemory);
        };
        Ok(Blobs {
            table,
            pool,
            drafts: Vec::new(alloc),
            spare,
            broken: false,
        })
    }

    /// The second half of a put: writes the pages of a draft that are full, after `Draft::add`.
    pub fn write<D: Disk>(&mut self, disk: &mut D, draft: &mut Draft) -> WriteEnd
        requires unbroken { self.old.broken ≡ false }
        requires room { total_pages self.old.table.geometry ≤ D.pages disk.old }
        requires own { IsDraftIn self.old draft.old }
        ensures open { result ≡ WriteEnd.Written → HasNoFullPage draft.new }
        ensures stands { (blob : List ℕ) → IsDraftOf draft.old blob → IsDraftOf draft.new blob }
        ensures declared { (draft.new.root ≡ draft.old.root) × (draft.new.len ≡ draft.old.len)
            × (draft.new.hasher ≡ draft.old.hasher) × (draft.new.kept ≡ draft.old.kept) }
        ensures value { self.new ≡ with_broken (is_broke result) self.old }
        ensures put_on { (blob : List ℕ) → IsDraftOf draft.old blob
            → IsPutOn (D.past disk.old) self.old draft.old blob
            → IsPutOn (D.past disk.new) self.new draft.new blob }
        ensures stores { (contents : RootOf → List ℕ) → Stores (D.past disk.old) self.old.table contents
            → AtEach (D.past disk.old) (D.past disk.new) (HasBlobs self.old.table contents) }
        ensures only { WritesOnly (D.past disk.old) (D.past disk.new) (IsPageOf self.old draft.old) }
        ensures pages_stay { D.pages disk.new ≡ D.pages disk.old }
        ensures tie_stays { D.tie disk.new ≡ D.tie disk.old }
        ensures reads_stay { D.reads disk.new ≡ D.reads disk.old }
        ensures faults_never_fall { D.faults disk.old ≤ D.faults disk.new }
        ensures cause { result ≡ WriteEnd.Broke → Rose (D.faults disk.old) (D.faults disk.new) }
    {
        let chain = chain_of(&self.drafts, &draft.root());
        let start = data_start(self.table.geometry());
        match write_full(disk, start, chain, draft) {
            Ok(()) => WriteEnd::Written,
            Err(_) => {
                self.broken = true;
                WriteEnd::Broke
            }
        }
    }

    /// Makes the draft of a blob, and takes its pages. The root is neither stored nor a draft's.
    pub fn room(&mut self, alloc: Global, root: Root, len: u64) -> Result<Draft, RoomFault>
        requires fresh { All (λ entry. entry.root ≢ root) (all_entries self.old) }
        ensures refused { IfSome (room_fault self.old len) (λ fault. result ≡ Err fault) }
        ensures made { room_fault self.old len ≡ None
            → IfErr result (λ fault. fault ≡ RoomFault.NoMemory) }
        ensures draft { IfOk result (λ draft. IsDraftOf draft [] × (draft.root ≡ root)
            × (draft.len ≡ len) × (draft.pages ≡ 0) × HasNoFullPage draft) }
        ensures own { IfOk result (IsDraftIn self.new) }
        ensures drafts { OnOk result ((pages : List ℕ) × (self.new ≡ record self.old {
          drafts = self.old.drafts ++ record { root = root; len = len; pages = pages } ∷ [];
        })) }
        ensures err { OnErr result (self.new ≡ self.old) }
    {
        if len > BLOB_LIMIT {
            return Err(RoomFault::TooLarge { len });
        }
        let nodes = self.table.geometry().blobs as usize;
        if self.table.entries().len() + self.drafts.len() == nodes {
            return Err(RoomFault::NoNode);
        }
        let need = pages_for(len);
        let free = self.pool.free();
        if need > free {
            return Err(RoomFault::NoSpace { need, free });
        }
        let Ok(draft) = Draft::make(alloc, root, len) else {
            return Err(RoomFault::NoMemory);
        };
        let Ok(mut pages) = Vec::with_capacity(alloc, need as usize) else {
            return Err(RoomFault::NoMemory);
        };
        if self.drafts.reserve(1).is_err() {
            return Err(RoomFault::NoMemory);
        }
        take_pages(&mut self.pool, need, &mut pages);
        self.drafts.push_reserved(Entry {
            root,
            len,
            pages: Items::make(pages),
        });
        Ok(draft)
    }

    /// Takes a piece of a blob, and writes the pages that are full then: `Draft::add`, and then `write`.
    pub fn put<D: Disk>(&mut self, disk: &mut D, draft: &mut Draft, bytes: &[u8]) -> PutEnd
        requires unbroken { self.old.broken ≡ false }
        requires room { total_pages self.old.table.geometry ≤ D.pages disk.old }
        requires own { IsDraftIn self.old draft.old }
        requires piece { length bytes.now ≤ PIECE_LIMIT }
        requires open { HasNoFullPage draft.old }
        ensures long { (result ≡ PutEnd.Long draft.old.len)
            ↔ (draft.old.len < have draft.old + length bytes.now) }
        ensures refused { draft.old.len < have draft.old + length bytes.now
            → (draft.new ≡ draft.old) × (self.new ≡ self.old) × (disk.new ≡ disk.old) }
        ensures stands { have draft.old + length bytes.now ≤ draft.old.len → (blob : List ℕ)
            → IsDraftOf draft.old blob → IsDraftOf draft.new (blob ++ bytes.now) }
        ensures declared { (draft.new.root ≡ draft.old.root) × (draft.new.len ≡ draft.old.len) }
        ensures full { HasNoFullPage draft.new ⊎ (result ≡ PutEnd.Broke) }
        ensures value { self.new ≡ with_broken (put_broke result) self.old }
        ensures put_on { (blob : List ℕ) → IsDraftOf draft.old blob
            → IsPutOn (D.past disk.old) self.old draft.old blob
            → have draft.old + length bytes.now ≤ draft.old.len
            → IsPutOn (D.past disk.new) self.new draft.new (blob ++ bytes.now) }
        ensures stores { (contents : RootOf → List ℕ) → Stores (D.past disk.old) self.old.table contents
            → AtEach (D.past disk.old) (D.past disk.new) (HasBlobs self.old.table contents) }
        ensures only { WritesOnly (D.past disk.old) (D.past disk.new) (IsPageOf self.old draft.old) }
        ensures pages_stay { D.pages disk.new ≡ D.pages disk.old }
        ensures tie_stays { D.tie disk.new ≡ D.tie disk.old }
        ensures reads_stay { D.reads disk.new ≡ D.reads disk.old }
        ensures faults_never_fall { D.faults disk.old ≤ D.faults disk.new }
        ensures cause { result ≡ PutEnd.Broke → Rose (D.faults disk.old) (D.faults disk.new) }
    {
        match draft.add(bytes) {
            Err(long) => PutEnd::Long { len: long.len },
            Ok(()) => match self.write(disk, draft) {
                WriteEnd::Written => PutEnd::Taken,
                WriteEnd::Broke => PutEnd::Broke,
            },
        }
    }

    /// All bytes of a draft so far, where it keeps them.
    pub fn kept<'a>(&self, draft: &'a Draft) -> Option<&'a [u8]>
        ensures value { option_map (λ bytes. bytes.now) result ≡ draft.now.kept }
    {
        draft.kept()
    }

    /// Ends a draft without a blob. Its pages are free again.
    pub fn drop_draft(&mut self, draft: Draft)
        requires own { IsDraftIn self.old draft }
        ensures value { self.new ≡ without_draft_of draft.root self.old }
    {
        self.forget(&draft.root());
    }

    /// Ends a draft. Where the blob came whole it is stored: the open page if it has a byte, a sync, and
    /// one commit of the table. Where it didn't its pages are free again. Where the disk fails they stay taken,
    /// since an image may have the blob.
    pub fn land<D: Disk>(&mut self, disk: &mut D, draft: Draft) -> LandEnd
        requires unbroken { self.old.broken ≡ false }
        requires room { total_pages self.old.table.geometry ≤ D.pages disk.old }
        requires own { IsDraftIn self.old draft }
        requires open { HasNoFullPage draft }
        ensures ends { (blob : List ℕ) → IsDraftOf draft blob → EndsLand draft blob result }
        ensures refused { IsRefused result
            → (self.new ≡ without_draft_of draft.root self.old) × (disk.new ≡ disk.old) }
        ensures landed { IsLanded result → self.new ≡ with_landed draft.root self.old }
        ensures broke { IsBroke result → self.new ≡ with_failed self.new.table.broken self.old }
        ensures each_moment { (blob : List ℕ) (contents : RootOf → List ℕ) → IsDraftOf draft blob
            → contents draft.root ≡ blob → IsPutOn (D.past disk.old) self.old draft blob
            → Stores (D.past disk.old) self.old.table contents
            → AtEach (D.past disk.old) (D.past disk.new) (λ image. HasBlobs self.old.table contents image
            ⊎ HasBlobs (committed self.old.table (entry_of self.old.drafts draft.root) []) contents image) }
        ensures stores { (blob : List ℕ) (contents : RootOf → List ℕ) → IsDraftOf draft blob
            → contents draft.root ≡ blob → IsPutOn (D.past disk.old) self.old draft blob
            → Stores (D.past disk.old) self.old.table contents
            → IsLanded result → Stores (D.past disk.new) self.new.table contents }
        ensures only { WritesOnly (D.past disk.old) (D.past disk.new)
            (λ n. IsPageOf self.old draft n ⊎ IsCommitPage self.old.table n) }
        ensures few { IsLanded result
            → AddsOnePage (data_start self.old.table.geometry) (D.past disk.old) (D.past disk.new) }
        ensures pages_stay { D.pages disk.new ≡ D.pages disk.old }
        ensures tie_stays { D.tie disk.new ≡ D.tie disk.old }
        ensures reads_stay { D.reads disk.new ≡ D.reads disk.old }
        ensures faults_never_fall { D.faults disk.old ≤ D.faults disk.new }
        ensures cause { IsBroke result → Rose (D.faults disk.old) (D.faults disk.new) }
    {
        let root = draft.root();
        let _have = draft.have();
        match draft.end() {
            DraftEnd::Short { have } => {
                self.forget(&root);
                LandEnd::Short { have }
            }
            DraftEnd::Wrong { got } => {
                self.forget(&root);
                LandEnd::Wrong { got }
            }
            DraftEnd::Whole(whole) => match self.store(disk, &root, &whole.open) {
                Ok(()) => LandEnd::Landed(whole.kept),
                Err(_) => LandEnd::Broke,
            },
        }
    }

    /// Takes the blobs of these roots out of the stock, by one commit. Only then are their pages free. Roots
    /// that have no blob are passed over; no roots make no disk call.
    pub fn remove<D: Disk>(&mut self, disk: &mut D, roots: &[Root]) -> RemoveEnd
        requires unbroken { self.old.broken ≡ false }
        requires room { total_pages self.old.table.geometry ≤ D.pages disk.old }
        ensures none { roots.now ≡ [] → (result ≡ RemoveEnd.Removed) × (self.new ≡ self.old) × (disk.new ≡ disk.old) }
        ensures removed { result ≡ RemoveEnd.Removed → (roots.now ≡ [])
            ⊎ (self.new ≡ record self.old { table = committed self.old.table None roots.now }) }
        ensures broke { result ≡ RemoveEnd.Broke → self.new ≡ with_failed true self.old }
        ensures each_moment { (contents : RootOf → List ℕ) → Stores (D.past disk.old) self.old.table contents
            → AtEach (D.past disk.old) (D.past disk.new) (λ image. HasBlobs self.old.table contents image
            ⊎ HasBlobs (committed self.old.table None roots.now) contents image) }
        ensures stores { (contents : RootOf → List ℕ) → Stores (D.past disk.old) self.old.table contents
            → result ≡ RemoveEnd.Removed → Stores (D.past disk.new) self.new.table contents }
        ensures only { WritesOnly (D.past disk.old) (D.past disk.new) (IsCommitPage self.old.table) }
        ensures pages_stay { D.pages disk.new ≡ D.pages disk.old }
        ensures tie_stays { D.tie disk.new ≡ D.tie disk.old }
        ensures reads_stay { D.reads disk.new ≡ D.reads disk.old }
        ensures faults_never_fall { D.faults disk.old ≤ D.faults disk.new }
        ensures cause { result ≡ RemoveEnd.Broke → Rose (D.faults disk.old) (D.faults disk.new) }
    {
        if roots.is_empty() {
            return RemoveEnd::Removed;
        }
        taken_after();
        note_gone(&mut self.spare, self.table.entries(), roots);
        match remove_entries(&mut self.table, disk, roots) {
            Ok(()) => {
                self.pool.give(&self.spare);
                RemoveEnd::Removed
            }
            Err(_) => {
                self.broken = true;
                RemoveEnd::Broke
            }
        }
    }

    // Stores the blob of a draft that came whole, of which this page is left to be written.
    fn store<D: Disk>(
        &mut self,
        disk: &mut D,
        root: &Root,
        page: &Option<[u8; 4096]>,
    ) -> Result<(), DiskFailed>
        requires unbroken { self.old.broken ≡ false }
        requires room { total_pages self.old.table.geometry ≤ D.pages disk.old }
        requires own { (entry : EntryOf) × (entry_of self.old.drafts root.now ≡ Some entry)
            × (IsSome page.now → 0 < entry.len % 4096) }
        ensures landed { OnOk result (self.new ≡ with_landed root.now self.old) }
        ensures failed { OnErr result (self.new ≡ with_failed self.new.table.broken self.old) }
        ensures each_moment { (entry : EntryOf) (blob : List ℕ) (contents : RootOf → List ℕ)
            → entry_of self.old.drafts root.now ≡ Some entry
            → length blob ≡ entry.len → page.now ≡ open_page blob → merkle_root blob ≡ entry.root
            → contents entry.root ≡ blob
            → AreWritten (D.past disk.old) (data_start self.old.table.geometry) entry.pages blob (entry.len / 4096)
            → Stores (D.past disk.old) self.old.table contents
            → AtEach (D.past disk.old) (D.past disk.new) (λ image. HasBlobs self.old.table contents image
            ⊎ HasBlobs (committed self.old.table (Some entry) []) contents image) }
        ensures stores { OnOk result ((entry : EntryOf) (blob : List ℕ) (contents : RootOf → List ℕ)
            → entry_of self.old.drafts root.now ≡ Some entry
            → length blob ≡ entry.len → page.now ≡ open_page blob → merkle_root blob ≡ entry.root
            → contents entry.root ≡ blob
            → AreWritten (D.past disk.old) (data_start self.old.table.geometry) entry.pages blob (entry.len / 4096)
            → Stores (D.past disk.old) self.old.table contents
            → Stores (D.past disk.new) self.new.table contents) }
        ensures only { WritesOnly (D.past disk.old) (D.past disk.new)
            (λ n. IsOn (data_start self.old.table.geometry) (chain_of self.old.drafts root.now) n
            ⊎ IsCommitPage self.old.table n) }
        ensures few { OnOk result
            (AddsOnePage (data_start self.old.table.geometry) (D.past disk.old) (D.past disk.new)) }
        ensures pages_stay { D.pages disk.new ≡ D.pages disk.old }
        ensures tie_stays { D.tie disk.new ≡ D.tie disk.old }
        ensures reads_stay { D.reads disk.new ≡ D.reads disk.old }
        ensures faults_never_fall { D.faults disk.old ≤ D.faults disk.new }
        ensures cause { OnErr result (Rose (D.faults disk.old) (D.faults disk.new)) }
    {
        let alloc = *self.spare.allocator();
        let place = draft_at(&self.drafts, root);
        let entry = lend_chain(alloc, &mut self.drafts, place);
        note_pages(&mut self.spare, entry.pages.as_slice());
        match land_entry(&mut self.table, disk, entry, page) {
            Ok(()) => {
                let _draft = self.drafts.remove(place);
                Ok(())
            }
            Err(failed) => {
                // an image may have the blob, so its pages stay taken
                let pages = mem::replace(&mut self.spare, Vec::new(alloc));
                return_chain(&mut self.drafts, place, pages);
                self.broken = true;
                Err(failed)
            }
        }
    }

    // The draft of this root is gone, and its pages are free again.
    fn forget(&mut self, root: &Root)
        requires own { IsSome (entry_of self.old.drafts root.now) }
        ensures value { self.new ≡ without_draft_of root.now self.old }
    {
        let entry = take_draft(&mut self.drafts, root);
        give_pages(&mut self.pool, entry.pages.as_slice());
    }

    /// The stock, in stock order.
    pub fn entries(&self) -> &[Entry]
        ensures list { result.now ≡ self.now.table.entries }
        ensures sound { AreSound self.now.table.geometry self.now.table.entries }
    {
        self.table.entries()
    }

    /// The drafts with their pages. No page is in two chains of the stock and the drafts.
    pub fn drafts(&self) -> &[Entry]
        ensures list { result.now ≡ self.now.drafts }
        ensures sound { AreSound self.now.table.geometry (all_entries self.now) }
    {
        &self.drafts
    }

    pub fn geometry(&self) -> &Geometry
        ensures geometry { result.now ≡ self.now.table.geometry }
        ensures limits { IsWithinLimits self.now.table.geometry }
    {
        self.table.geometry()
    }

    /// Whether a call has answered `Broke`, so that nothing can be written any more.
    pub fn is_broken(&self) -> bool
        ensures { result ≡ self.now.broken }
    {
        self.broken
    }

    /// Reads a whole blob of the stock.
    pub fn read_all<D: Disk>(
        &self,
        alloc: Global,
        disk: &mut D,
        root: &Root,
        limit: u32,
    ) -> Result<Bytes, BlobFault>
        requires room { total_pages self.now.table.geometry ≤ D.pages disk.old }
        requires stored { IsSome (entry_of self.now.table.entries root.now) }
        ensures too_long { IfSome (entry_of self.now.table.entries root.now) (λ entry.
            limit < entry.len → result ≡ Err (BlobFault.TooLong entry.len)) }
        ensures reads { IfSome (entry_of self.now.table.entries root.now)
            (λ entry. ReadsAll (D.past disk.old) (data_start self.now.table.geometry) limit entry result) }
        ensures same { (contents : RootOf → List ℕ) → Stores (D.past disk.old) self.now.table contents
            → IfSome (D.past disk.old) (λ _. GivesBytes (contents root.now) result) }
        ensures past_stays { D.past disk.new ≡ D.past disk.old }
        ensures pages_stay { D.pages disk.new ≡ D.pages disk.old }
        ensures tie_stays { D.tie disk.new ≡ D.tie disk.old }
        ensures faults_never_fall { D.faults disk.old ≤ D.faults disk.new }
        ensures cause { result ≡ Err BlobFault.Read → Rose (D.faults disk.old) (D.faults disk.new) }
    {
        let _count = disk.pages();
        let start = data_start(self.table.geometry());
        read_entry(alloc, disk, start, entry_at(&self.table, root), limit)
    }

    /// Reads a whole blob of the stock and makes its root anew. Gives its length.
    pub fn check<D: Disk>(&self, disk: &mut D, root: &Root) -> Result<u64, CheckFault>
        requires room { total_pages self.now.table.geometry ≤ D.pages disk.old }
        requires stored { IsSome (entry_of self.now.table.entries root.now) }
        ensures checks { IfSome (entry_of self.now.table.entries root.now)
            (λ entry. Checks (D.past disk.old) (data_start self.now.table.geometry) entry result) }
        ensures reads { IfOk result (λ len.
            RoseBy (page_count len) (D.reads disk.old) (D.reads disk.new)) }
        ensures same { (contents : RootOf → List ℕ) → Stores (D.past disk.old) self.now.table contents
            → IfSome (D.past disk.old) (λ _. IsNotRotten result) }
        ensures past_stays { D.past disk.new ≡ D.past disk.old }
        ensures pages_stay { D.pages disk.new ≡ D.pages disk.old }
        ensures tie_stays { D.tie disk.new ≡ D.tie disk.old }
        ensures faults_never_fall { D.faults disk.old ≤ D.faults disk.new }
        ensures cause { result ≡ Err CheckFault.Read → Rose (D.faults disk.old) (D.faults disk.new) }
    {
        let _count = disk.pages();
        let start = data_start(self.table.geometry());
        check_entry(disk, start, entry_at(&self.table, root))
    }

    /// Reads a part of a blob of the stock, from the place `from` on: as many bytes as there are and fit.
    pub fn read_part<D: Disk>(
        &self,
        disk: &mut D,
        root: &Root,
        from: u64,
        out: &mut [u8],
    ) -> Result<usize, DiskFailed>
        requires room { total_pages self.now.table.geometry ≤ D.pages disk.old }
        requires stored { IsSome (entry_of self.now.table.entries root.now) }
        ensures count { IfSome (entry_of self.now.table.entries root.now) (λ entry.
            IfOk result (λ count. count ≡ min (length out.old) (entry.len - from))) }
        ensures part { (contents : RootOf → List ℕ) → Stores (D.past disk.old) self.now.table contents
            → IfOk result (λ count. IfSome (D.past disk.old)
            (λ _. out.new ≡ take count (drop from (contents root.now)) ++ drop count out.old)) }
        ensures past_stays { D.past disk.new ≡ D.past disk.old }
        ensures pages_stay { D.pages disk.new ≡ D.pages disk.old }
        ensures tie_stays { D.tie disk.new ≡ D.tie disk.old }
        ensures faults_never_fall { D.faults disk.old ≤ D.faults disk.new }
        ensures cause { OnErr result (Rose (D.faults disk.old) (D.faults disk.new)) }
    {
        let start = data_start(self.table.geometry());
        let entry = entry_at(&self.table, root);
        read_part(disk, start, entry.pages.as_slice(), entry.len, from, out)
    }
}
