//! What room there is for blobs.

ghost use Rattle.std.specs.Prelude.{◌≡◌, ◌-◌, ◌^◌, min, filter, length, is_some};
ghost use Rattle.fetch_queue.specs.declared.queue.ClaimEntry.{ClaimEntry as ClaimEntryOf};
ghost use Rattle.store_model.specs.State.{claim_of};
ghost use Rattle.store_model.specs.Packages.{room_pages, claim_pages, free_pages, nodes};
ghost use Rattle.store_model.specs.Acts.Room.{room_end};

use crate::state::State;
use fetch_queue::{ClaimEntry, FetchEnd};
use pkg_merkle::BYTES_LIMIT;
use pkg_names::Root;
use plain_stock::pages_of;

impl State {
    /// The claim of a root.
    pub fn claim_of(&self, root: &Root) -> Option<ClaimEntry>
        ensures { result ≡ claim_of self.now.claims root.now }
    {
        claim_in(self.queue.claims(), root)
    }

    /// The pages that neither a stored blob has nor one that room was made for.
    pub fn free_pages(&self) -> u32
        ensures { result ≡ free_pages self.now }
    {
        let stored = self.stock.pages();
        let taken = stored.saturating_add(claimed_pages(self.queue.claims()));
        u64::from(self.geometry.data_pages).saturating_sub(taken) as u32
    }

    /// How many blobs are stored, or have room made for them. The count stands still at its last value.
    pub fn nodes(&self) -> usize
        ensures { result ≡ min (nodes self.now) (2 ^ 64 - 1) }
    {
        let stored = self.stock.blobs().len();
        stored.saturating_add(rooms(self.queue.claims()))
    }

    /// Why there is no room for a blob of this length.
    pub fn room_end(&self, len: u64) -> Option<FetchEnd>
        ensures { result ≡ room_end self.now len }
    {
        if len > BYTES_LIMIT as u64 {
            return Some(FetchEnd::TooLarge { len });
        }
        if self.geometry.blobs as usize <= self.nodes() {
            return Some(FetchEnd::NoNode);
        }
        let need = pages_of(len) as u32;
        let free = self.free_pages();
        if free < need {
            return Some(FetchEnd::NoSpace { need, free });
        }
        None
    }
}

fn claim_in(claims: &[ClaimEntry], root: &Root) -> Option<ClaimEntry>
    ensures { result ≡ claim_of claims.now root.now }
{
    claims.iter().find(|claim| claim.root == *root).copied()
}

// How many pages the blobs have together that room was made for. The count stands still at its last value.
fn claimed_pages(claims: &[ClaimEntry]) -> u64
    ensures { result ≡ min (claim_pages claims.now) (2 ^ 64 - 1) }
{
    let mut pages: u64 = 0;
    for claim in claims {
        pages = pages.saturating_add(room_pages(claim));
    }
    pages
}

// How many pages the room has that was made for a claim.
fn room_pages(claim: &ClaimEntry) -> u64
    ensures { result ≡ room_pages claim.now.len }
{
    match claim.len {
        Some(len) => pages_of(len),
        None => 0,
    }
}

// For how many blobs room was made.
fn rooms(claims: &[ClaimEntry]) -> usize
    ensures { result ≡ length (filter (λ (claim : ClaimEntryOf). is_some claim.len) claims.now) }
{
    claims.iter().filter(|claim| claim.len.is_some()).count()
}
