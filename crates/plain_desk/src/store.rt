//! The store: its ledger, the bytes of its blobs, and what lanes are putting together.

ghost use Rattle.std.specs.Prelude.{◌≡◌, List, ℕ, length};
ghost use Rattle.store_model.specs.Desk.{Keeps, Rests};
ghost use Rattle.store_model.specs.Calls.{Closes, Rejects};
ghost use Rattle.plain_desk.specs.Stores.{IsOwnCall, view_of, kept_for};

use plain_drafts::{Drafts, Images};
use plain_ledger::Ledger;
use plain_stock::Contents;
use std::alloc::Global;
use std::marker::Model;
use store_model::{Act, CloseReply, Dir, RejectReply};
use system_lists::{ManifestFault, ManifestFile};

/// A store in memory. Contracts see where it began, its history, and what lanes are putting together.
#[derive(Drop)]
pub struct Store {
    pub(crate) alloc: Global,
    pub(crate) ledger: Ledger,
    pub(crate) contents: Contents,
    pub(crate) drafts: Drafts,
    pub(crate) images: Images,
}

impl Model for Store {
    ghost use Rattle.plain_desk.specs.Stores.{StoreOf, IsStore};

    ghost Value = { StoreOf };

    ghost view = { λ s. record {
      origin = s.ledger.origin;
      history = s.ledger.history;
      drafts = s.drafts;
      images = s.images;
    } };

    ghost invariant = { λ s. IsStore s.ledger s.contents s.drafts s.images };
}

impl Store {
    /// Notes that a manifest of an update is bad.
    pub fn reject(&mut self, lane: u32, file: ManifestFile, why: ManifestFault) -> RejectReply
        ensures event { (tie : List ℕ)
            → Rejects file why result (view_of tie lane self.old) (view_of tie lane self.new) }
        ensures kept { Keeps (kept_for lane self.old) (kept_for lane self.new) }
        ensures images { self.new.images ≡ self.old.images }
        ensures own { IsOwnCall lane self.old self.new }
    {
        match self.ledger.note(lane, Act::Reject { file, why }) {
            Ok(()) => RejectReply::Noted,
            Err(_) => RejectReply::NoMemory,
        }
    }

    /// Closes a directory.
    pub fn close(&mut self, lane: u32, dir: Dir) -> CloseReply
        ensures event { (tie : List ℕ)
            → Closes dir.number result (view_of tie lane self.old) (view_of tie lane self.new) }
        ensures kept { Keeps (kept_for lane self.old) (kept_for lane self.new) }
        ensures images { self.new.images ≡ self.old.images }
        ensures own { IsOwnCall lane self.old self.new }
    {
        match self.ledger.close(lane, dir.number) {
            Ok(true) => CloseReply::Closed,
            Ok(false) => CloseReply::BadDir,
            Err(_) => CloseReply::NoMemory,
        }
    }

    /// How many events there are.
    pub(crate) fn history_len(&self) -> u64
        ensures { result ≡ length self.now.history }
    {
        self.ledger.next_number() - 1
    }

    /// Does nothing: nobody else is at the store.
    pub(crate) fn pause(&self, lane: u32)
        ensures { (tie : List ℕ) → Rests (view_of tie lane self.now) (view_of tie lane self.now) }
    {
        let _ledger = &self.ledger;
    }
}
