//! The state, and what it answers.

ghost use Rattle.std.specs.Prelude.{◌≡◌, ◌==◌, not, find, None, is_some, option_and_then, option_copied, option_map, if◌then◌else◌};
ghost use Rattle.open_tracker.specs.Directories.{root_of};
ghost use Rattle.package_indexes.specs.declared.Arriving.{Arriving as ArrivingOf};
ghost use Rattle.package_indexes.specs.Sets.{arriving_with};
ghost use Rattle.package_indexes.specs.Indexes.{root_at};
ghost use Rattle.store_model.specs.State.{Arrival as ArrivalOf, durable, opened, stored_len, is_stored, arrival_of, is_successful, is_other_bootable, is_committed, is_pending, running_epoch, sys_of, other_slot};
ghost use Rattle.store_model.specs.Packages.{known_fault, is_complete};
ghost use Rattle.package_book.specs.Names.{names};
ghost use Rattle.store_model.specs.Acts.Begin.{begin_answer, has_to_read};
ghost use Rattle.store_model.specs.Acts.Want.{first_free, answer_for, want_answer};
ghost use Rattle.store_model.specs.Acts.OpenPath.{root_to_open};
ghost use Rattle.store_model.specs.Acts.Stage.{stage_answer};
ghost use Rattle.plain_state.specs.Opening.{replaced};

use crate::turns::Turn;
use abr_record::{Record, Slot, bootable};
use fetch_queue::{FetchEnd, Queue};
use image_layout::{Geometry, Sys};
use open_tracker::Dirs;
use package_book::{META_LIMIT, PackageFault, Shelf};
use package_indexes::{Arriving, Choice, Chosen, Indexes, PathSet};
use pkg_names::{Items, PackagePath, Pinned, Root};
use plain_stock::{Stock, fault_of, first_free, first_missing, is_book, is_known};
use std::alloc::Global;
use std::marker::Model;
use store_model::{BeginEnd, Cause, StageEnd, WantEnd};

/// What lasts: the stock, the boot record, and the systems of A and B.
#[derive(Drop)]
pub struct Standing {
    stock: Stock,
    abr: Record,
    a: Option<Sys>,
    b: Option<Sys>,
}

impl Model for Standing {
    ghost use Rattle.store_model.specs.State.{Standing as StandingOf};

    ghost Value = { StandingOf };

    ghost view = { λ d. record { stock = d.stock; abr = d.abr; a = d.a; b = d.b } };
}

impl Standing {
    pub fn make(stock: Stock, abr: Record, a: Option<Sys>, b: Option<Sys>) -> Standing
        ensures { result ≡ record { stock = stock; abr = abr; a = a; b = b } }
    {
        Standing { stock, abr, a, b }
    }
}

/// The state. Contracts see the model's; its books are the entries of a map.
#[derive(Drop)]
pub struct State {
    pub(crate) alloc: Global,
    pub(crate) geometry: Geometry,
    pub(crate) booted: bool,
    pub(crate) stock: Stock,
    pub(crate) books: Shelf,
    pub(crate) indexes: Indexes,
    pub(crate) queue: Queue,
    pub(crate) dirs: Dirs,
    pub(crate) abr: Record,
    pub(crate) a: Option<Sys>,
    pub(crate) b: Option<Sys>,
    pub(crate) running: Slot,
    pub(crate) stage: Option<Turn>,
    pub(crate) staged: Option<Items<Pinned>>,
    pub(crate) broken: Option<u64>,
}

impl Model for State {
    ghost use Rattle.store_model.specs.State.{State as StateOf};
    ghost use Rattle.plain_state.specs.Views.{joined, AreMarked};

    ghost Value = { StateOf };

    ghost view = { λ s. record {
      geometry = s.geometry;
      booted = s.booted;
      stock = s.stock;
      books = s.books;
      claims = s.queue.claims;
      arriving = joined s.indexes.arriving s.queue.marks;
      base = s.indexes.base;
      cached = s.indexes.cached;
      active = s.indexes.active;
      retained = s.indexes.retained;
      dirs = s.dirs;
      abr = s.abr;
      a = s.a;
      b = s.b;
      running = s.running;
      stage = s.stage;
      staged = s.staged;
      broken = s.broken;
    } };

    ghost invariant = { λ s. AreMarked s.indexes.arriving s.queue.marks };
}

impl State {
    /// The state before the boot.
    pub fn opened(alloc: Global, geometry: Geometry, standing: Standing) -> State
        ensures { result ≡ opened geometry standing }
    {
        let Standing { stock, abr, a, b } = standing;
        State {
            alloc,
            geometry,
            booted: false,
            stock,
            books: Shelf::new(alloc),
            indexes: Indexes::make(alloc, Vec::new(alloc), Vec::new(alloc)),
            queue: Queue::new(alloc),
            dirs: Dirs::new(alloc),
            abr,
            a,
            b,
            running: Slot::R,
            stage: None,
            staged: None,
            broken: None,
        }
    }

    /// What lasts of the state.
    pub fn into_standing(self) -> Standing
        ensures { result ≡ durable self }
    {
        let State {
            stock,
            abr,
            a,
            b,
            ..
        } = self;
        let a = a.filter(|_| bootable(&abr.a));
        let b = b.filter(|_| bootable(&abr.b));
        Standing { stock, abr, a, b }
    }

    /// The length of a stored blob.
    pub fn stored_len(&self, root: &Root) -> Option<u64>
        ensures { result ≡ stored_len self.now.stock root.now }
    {
        self.stock.len_of(root)
    }

    /// What a request for a package is answered, if no read fails.
    pub fn begin_answer(&self, path: &PackagePath, choice: Choice) -> BeginEnd
        ensures { result ≡ begin_answer self.now path.now choice }
    {
        if self.running == Slot::R {
            return BeginEnd::InRecovery;
        }
        match self.indexes.choose(path, choice) {
            Chosen::Is(root) => BeginEnd::Ticket(root),
            Chosen::NotFound => BeginEnd::NotFound,
            Chosen::ListingFault => BeginEnd::ListingFault,
        }
    }

    /// The package's meta blob is stored, is short enough, and isn't known.
    pub fn has_to_read(&self, root: &Root) -> bool
        ensures { result ≡ has_to_read self.now root.now }
    {
        match self.stored_len(root) {
            Some(len) => len <= META_LIMIT as u64 && !is_known(&self.books, root),
            None => false,
        }
    }

    /// The package is a book, and all blobs that it names are stored.
    pub fn is_complete(&self, root: &Root) -> bool
        ensures { result ≡ is_complete self.now root.now }
    {
        if !is_book(&self.books, root) {
            return false;
        }
        match self.first_missing(root) {
            Some(_) => false,
            None => true,
        }
    }

    // The first blob of the package that isn't stored.
    pub(crate) fn first_missing(&self, root: &Root) -> Option<Root>
        ensures { result ≡ find (λ name. not (is_stored self.now.stock name)) (names root.now self.now.books) }
    {
        first_missing(&self.books, &self.stock, root)
    }

    /// The first blob of the package that nobody has or fetches.
    pub fn first_free(&self, root: &Root) -> Option<Root>
        ensures { result ≡ first_free self.now root.now }
    {
        first_free(&self.books, &self.stock, &self.queue, root)
    }

    /// Why a known package is no package.
    pub fn known_fault(&self, root: &Root) -> Option<PackageFault>
        ensures { result ≡ known_fault self.now.books root.now }
    {
        fault_of(&self.books, root)
    }

    /// What the holder of a ticket is answered. There is no answer while others fetch all that is missing.
    pub fn want_answer(&self, ticket: u64) -> Option<WantEnd>
        ensures { result ≡ option_and_then (want_answer self.now) (arrival_of self.now.arriving ticket) }
    {
        match with_ticket(self.indexes.arriving(), ticket) {
            Some(arrival) => answer_for(
                self.queue.mark_of(ticket),
                self.known_fault(&arrival.root),
                self.is_complete(&arrival.root),
                self.first_free(&arrival.root),
            ),
            None => None,
        }
    }

    // The root of the package that arrives under a ticket.
    pub(crate) fn root_of_ticket(&self, ticket: u64) -> Option<Root>
        ensures { result ≡ option_map (λ (a : ArrivalOf). a.root) (arrival_of self.now.arriving ticket) }
    {
        match with_ticket(self.indexes.arriving(), ticket) {
            Some(arrival) => Some(arrival.root),
            None => None,
        }
    }

    /// The active package whose place the package of a ticket takes, once it is opened.
    pub fn replaced(&self, ticket: u64) -> Option<Root>
        ensures { result ≡ replaced self.now ticket }
    {
        match with_ticket(self.indexes.arriving(), ticket) {
            Some(arrival) => replaced_in(&self.indexes, &arrival.path),
            None => None,
        }
    }

    /// The root of the package that is opened under a path, if it is here.
    pub fn root_to_open(&self, path: &PackagePath) -> Option<Root>
        ensures { result ≡ root_to_open self.now path.now }
    {
        if let Some(root) = self.indexes.root_at(PathSet::Base, path) {
            return Some(root);
        }
        if let Some(root) = self.indexes.root_at(PathSet::Active, path) {
            return Some(root);
        }
        let root = self.indexes.root_at(PathSet::Cached, path)?;
        if self.is_complete(&root) {
            Some(root)
        } else {
            None
        }
    }

    // The running slot is marked successful.
    fn is_successful(&self) -> bool
        ensures { result ≡ is_successful self.now.abr self.now.running }
    {
        match self.running {
            Slot::A => self.abr.a.successful,
            Slot::B => self.abr.b.successful,
            Slot::R => false,
        }
    }

    /// One of A and B that doesn't run can be booted.
    pub fn is_other_bootable(&self) -> bool
        ensures { result ≡ is_other_bootable self.now.abr self.now.running }
    {
        match self.running {
            Slot::A => bootable(&self.abr.b),
            Slot::B => bootable(&self.abr.a),
            Slot::R => bootable(&self.abr.a) || bootable(&self.abr.b),
        }
    }

    /// The running system has succeeded, and no other is booted next but one that an update has activated.
    pub fn is_committed(&self) -> bool
        ensures { result ≡ is_committed self.now }
    {
        self.is_successful() && (!self.is_other_bootable() || self.staged.is_some())
    }

    /// A or B runs, and isn't committed.
    pub fn is_pending(&self) -> bool
        ensures { result ≡ is_pending self.now }
    {
        self.running != Slot::R && !self.is_committed()
    }

    /// The system that is sealed in a slot.
    pub fn sys_of(&self, slot: Slot) -> Option<Sys>
        ensures { result ≡ sys_of self.now slot }
    {
        match slot {
            Slot::A => self.a,
            Slot::B => self.b,
            Slot::R => None,
        }
    }

    // The epoch of the running system.
    fn running_epoch(&self) -> u64
        ensures { result ≡ running_epoch self.now }
    {
        match self.sys_of(self.running) {
            Some(sys) => sys.epoch,
            None => 0,
        }
    }

    // The slot that an update fills.
    pub(crate) fn other_slot(&self) -> Slot
        ensures { result ≡ other_slot self.now.running }
    {
        match self.running {
            Slot::A => Slot::B,
            Slot::B => Slot::A,
            Slot::R => Slot::R,
        }
    }

    /// Whether an update to a system of this epoch may begin.
    pub fn stage_answer(&self, epoch: u64) -> StageEnd
        ensures { result ≡ stage_answer self.now epoch }
    {
        if self.running == Slot::R {
            return StageEnd::InRecovery;
        }
        if let Some(stage) = &self.stage {
            return StageEnd::Busy { lane: stage.lane() };
        }
        if !self.is_committed() {
            return StageEnd::NotCommitted;
        }
        let have = self.running_epoch();
        if epoch < have {
            return StageEnd::Older { have };
        }
        StageEnd::Turn {
            slot: self.other_slot(),
        }
    }
}

fn with_ticket<'a>(arriving: &'a [Arriving], ticket: u64) -> Option<&'a Arriving>
    ensures { option_copied result ≡ find (λ (arrival : ArrivingOf). arrival.ticket == ticket) arriving.now }
{
    arriving.iter().find(|arrival| arrival.ticket == ticket)
}

// The active package of a path that the base hasn't.
fn replaced_in(indexes: &Indexes, path: &PackagePath) -> Option<Root>
    ensures { result ≡ if is_some (root_at indexes.now.base path.now) then None
        else root_at indexes.now.active path.now }
{
    match indexes.root_at(PathSet::Base, path) {
        Some(_) => None,
        None => indexes.root_at(PathSet::Active, path),
    }
}

// A mark comes first, then that the package is none, then that all is there, then what is to be fetched.
fn answer_for(
    mark: Option<FetchEnd>,
    fault: Option<PackageFault>,
    complete: bool,
    free: Option<Root>,
) -> Option<WantEnd>
    ensures { result ≡ answer_for mark fault complete free }
{
    if let Some(end) = mark {
        return Some(WantEnd::Failed(Cause::Fetch(end)));
    }
    if let Some(why) = fault {
        return Some(WantEnd::Failed(Cause::NotAPackage { why }));
    }
    if complete {
        return Some(WantEnd::Opened);
    }
    match free {
        Some(root) => Some(WantEnd::Fetch(root)),
        None => None,
    }
}
