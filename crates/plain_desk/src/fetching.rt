//! Calls of a store on blobs that are fetched.

ghost use Rattle.std.specs.Prelude.{◌≡◌, ◌+◌, ◌<◌, ◌≤◌, ◌++◌, [], None, Some, List, ℕ, length, IsSomeAnd, IfOk, OnErr, OnOk, MatchOption, ◌&&◌, is_some, nat_le, IfSome};
ghost use Rattle.package_book.specs.declared.book.TheConstants.{META_LIMIT};
ghost use Rattle.pkg_merkle.specs.Merkle.{merkle_root};
ghost use Rattle.pkg_merkle.specs.declared.hasher.TheConstants.{BYTES_LIMIT};
ghost use Rattle.store_model.specs.declared.ends.TheConstants.{PIECE_LIMIT};
ghost use Rattle.store_model.specs.declared.events.Act.TheVariants as acts;
ghost use Rattle.store_model.specs.State.{claim_of, has_root, protected_in};
ghost use Rattle.store_model.specs.Acts.Room.{IsRoomless};
ghost use Rattle.store_model.specs.Acts.Put.{IsRoomOf};
ghost use Rattle.store_model.specs.Desk.{Does, KeepsImages};
ghost use Rattle.store_model.specs.Replies.{IsMissed};
ghost use Rattle.store_model.specs.Calls.{MakesRoom, KeepsAtRoom, Puts, KeepsAtPut, Lands, KeepsAtLand, HoldsNewClaim, HoldsRoom, HoldsClaim, room_by};
ghost use Rattle.plain_stock.specs.Contents.{AreBytesOf};
ghost use Rattle.plain_ledger.specs.Ledgers.{Agrees, Notes, Stays};
ghost use Rattle.plain_desk.specs.Stores.{IsOwnCall, Drafted, IsLandingEnd, IsLandedAs, HasLanded, draft_of, room_after, room_in, view_of, kept_for};

use crate::asking::{copied, looked};
use crate::store::Store;
use fetch_queue::FetchEnd;
use package_book::META_LIMIT;
use pkg_merkle::root_of;
use pkg_names::{Bytes, Root};
use plain_drafts::Drafts;
use plain_ledger::Ledger;
use plain_state::State;
use plain_stock::Contents;
use std::alloc::{AllocError, Global};
use store_model::{Claim, LandReply, Miss, PutReply, RoomReply};

impl Store {
    /// Makes room for a blob of this length. The memory for its bytes is taken here, so that none is
    /// wanted when they come.
    pub fn room(&mut self, lane: u32, claim: Claim, len: u64) -> RoomReply
        requires { HoldsNewClaim (view_of [] lane self.old) claim.root }
        ensures event { (tie : List ℕ)
            → MakesRoom claim len result (view_of tie lane self.old) (view_of tie lane self.new) }
        ensures kept { KeepsAtRoom result (kept_for lane self.old) (kept_for lane self.new) }
        ensures images { self.new.images ≡ self.old.images }
        ensures own { IsOwnCall lane self.old self.new }
    {
        match room(
            self.alloc,
            &mut self.ledger,
            &mut self.drafts,
            lane,
            claim.root,
            len,
        ) {
            Ok(None) => RoomReply::Made(claim),
            Ok(Some(end)) => RoomReply::Ended(end),
            Err(_) => RoomReply::NoMemory(claim),
        }
    }

    /// Takes the next bytes of a blob.
    pub fn put(&mut self, lane: u32, claim: Claim, bytes: &[u8]) -> PutReply
        requires { HoldsRoom (view_of [] lane self.old) claim.root }
        ensures event { (tie : List ℕ) → Puts claim result (view_of tie lane self.old) (view_of tie lane self.new) }
        ensures kept { KeepsAtPut (room_by (view_of [] lane self.old)) bytes.now result
            (kept_for lane self.old) (kept_for lane self.new) }
        ensures images { self.new.images ≡ self.old.images }
        ensures own { IsOwnCall lane self.old self.new }
    {
        match put(&mut self.ledger, &mut self.drafts, lane, claim.root, bytes) {
            None => PutReply::Taken(claim),
            Some(end) => PutReply::Ended(end),
        }
    }

    /// Stores a blob whose bytes are there.
    pub fn land(&mut self, lane: u32, claim: Claim) -> LandReply
        requires { HoldsRoom (view_of [] lane self.old) claim.root }
        ensures event { (tie : List ℕ)
            → Lands claim (kept_for lane self.old) result (view_of tie lane self.old) (view_of tie lane self.new) }
        ensures kept { KeepsAtLand claim.root (room_by (view_of [] lane self.old)) result
            (kept_for lane self.old) (kept_for lane self.new) }
        ensures images { self.new.images ≡ self.old.images }
        ensures own { IsOwnCall lane self.old self.new }
    {
        match land(
            self.alloc,
            &mut self.ledger,
            &mut self.contents,
            &mut self.drafts,
            lane,
            claim.root,
        ) {
            Ok(None) => LandReply::Landed,
            Ok(Some(end)) => LandReply::Ended(end),
            Err(_) => LandReply::NoMemory(claim),
        }
    }

    /// Ends a claim without its bytes.
    pub fn miss(&mut self, lane: u32, claim: Claim, why: Miss)
        requires { HoldsClaim (view_of [] lane self.old) claim.root }
        ensures event { (tie : List ℕ)
            → Does (view_of tie lane self.old) (view_of tie lane self.new) (IsMissed claim.root why) }
        ensures kept { KeepsImages (kept_for lane self.old) (kept_for lane self.new) }
        ensures images { self.new.images ≡ self.old.images }
        ensures own { IsOwnCall lane self.old self.new }
    {
        self.ledger.miss(lane, claim.root, why);
        self.drafts.end(lane);
    }
}

// Room is made, or the fetch ends.
fn room(
    alloc: Global,
    ledger: &mut Ledger,
    drafts: &mut Drafts,
    lane: u32,
    root: Root,
    len: u64,
) -> Result<Option<FetchEnd>, AllocError>
    requires agrees { Agrees ledger.old }
    requires claim { IsSomeAnd (claim_of ledger.old.state.claims root) (IsRoomless lane) }
    ensures ok { IfOk result (λ end. Notes ledger.old lane (acts.Room root len end) ledger.new) }
    ensures room { IfOk result (λ end. Drafted lane (room_after len end) [] drafts.old drafts.new) }
    ensures short { IfOk result (λ end. room_after len end ≤ BYTES_LIMIT) }
    ensures err { OnErr result (Stays ledger.old ledger.new) }
    ensures none { OnErr result (Drafted lane 0 [] drafts.old drafts.new) }
{
    if let Some(end) = ledger.state().room_end(len) {
        ledger.end_room(lane, root, len, end);
        drafts.end(lane);
        return Ok(Some(end));
    }
    drafts.begin(alloc, lane, len as usize)?;
    match ledger.give_room(lane, root, len) {
        Ok(()) => Ok(None),
        Err(fault) => {
            drafts.end(lane);
            Err(fault)
        }
    }
}

// The bytes are taken if they fit; else the fetch ends.
fn put(
    ledger: &mut Ledger,
    drafts: &mut Drafts,
    lane: u32,
    root: Root,
    bytes: &[u8],
) -> Option<FetchEnd>
    requires room { IsSomeAnd (claim_of ledger.old.state.claims root) (IsRoomOf lane (room_in drafts.old lane)) }
    requires enough { length (draft_of drafts.old lane) ≤ room_in drafts.old lane }
    ensures event { MatchOption result (ledger.new ≡ ledger.old)
        (λ end. Notes ledger.old lane (acts.Put root (Some end)) ledger.new) }
    ensures fits { MatchOption result (length (draft_of drafts.old lane) + length bytes.now ≤ room_in drafts.old lane)
        (λ end. room_in drafts.old lane < length (draft_of drafts.old lane) + length bytes.now) }
    ensures drafts { MatchOption result
        (Drafted lane (room_in drafts.old lane) (draft_of drafts.old lane ++ bytes.now) drafts.old drafts.new)
        (λ end. Drafted lane 0 [] drafts.old drafts.new) }
{
    let room = drafts.room_of(lane);
    let filled = drafts.bytes_of(lane).len();
    if bytes.len() <= room - filled {
        drafts.add(lane, bytes);
        return None;
    }
    let end = FetchEnd::Long { len: room as u64 };
    ledger.end_put(lane, root, end);
    drafts.end(lane);
    Some(end)
}

// The bytes are stored, or the fetch ends.
fn land(
    alloc: Global,
    ledger: &mut Ledger,
    contents: &mut Contents,
    drafts: &mut Drafts,
    lane: u32,
    root: Root,
) -> Result<Option<FetchEnd>, AllocError>
    requires agrees { Agrees ledger.old }
    requires blobs { AreBytesOf contents.old ledger.old.state.stock }
    requires claim { IsSomeAnd (claim_of ledger.old.state.claims root) (IsRoomOf lane (room_in drafts.old lane)) }
    requires enough { length (draft_of drafts.old lane) ≤ room_in drafts.old lane }
    requires short { room_in drafts.old lane ≤ BYTES_LIMIT }
    ensures ok { IfOk result (λ end.
        IsLandedAs lane root (room_in drafts.old lane) (draft_of drafts.old lane) end ledger.old ledger.new) }
    ensures err { OnErr result (Stays ledger.old ledger.new) }
    ensures ended { IfOk result (λ end. Drafted lane 0 [] drafts.old drafts.new) }
    ensures kept { OnErr result (drafts.new ≡ drafts.old) }
    ensures blobs { AreBytesOf contents.new ledger.new.state.stock }
{
    let len = drafts.room_of(lane);
    if let Some(end) = landing_end(&root, len, drafts.bytes_of(lane)) {
        ledger.end_land(lane, root, len as u64, end);
        drafts.end(lane);
        return Ok(Some(end));
    }
    store(alloc, ledger, contents, drafts, lane, root)?;
    Ok(None)
}

// Too few bytes came, or others.
fn landing_end(root: &Root, len: usize, bytes: &[u8]) -> Option<FetchEnd>
    requires enough { length bytes.now ≤ len }
    requires short { len ≤ BYTES_LIMIT }
    ensures { MatchOption result ((length bytes.now ≡ len) × (merkle_root bytes.now ≡ root.now))
        (λ end. IsLandingEnd root.now len bytes.now end) }
{
    if bytes.len() < len {
        return Some(FetchEnd::Short {
            have: bytes.len() as u64,
        });
    }
    let got = root_of(bytes);
    if got != *root {
        return Some(FetchEnd::Wrong { got });
    }
    None
}

// The blob is stored: it has a place first, and what the lane has put goes there once the ledger has the landing.
// So without memory the lane still has its bytes, and nothing is copied.
fn store(
    alloc: Global,
    ledger: &mut Ledger,
    contents: &mut Contents,
    drafts: &mut Drafts,
    lane: u32,
    root: Root,
) -> Result<(), AllocError>
    requires agrees { Agrees ledger.old }
    requires blobs { AreBytesOf contents.old ledger.old.state.stock }
    requires claim { IsSomeAnd (claim_of ledger.old.state.claims root)
        (IsRoomOf lane (length (draft_of drafts.old lane))) }
    requires root { merkle_root (draft_of drafts.old lane) ≡ root }
    ensures ok { OnOk result (HasLanded lane root (draft_of drafts.old lane) ledger.old ledger.new) }
    ensures err { OnErr result (Stays ledger.old ledger.new) }
    ensures ended { OnOk result (Drafted lane 0 [] drafts.old drafts.new) }
    ensures kept { OnErr result (drafts.new ≡ drafts.old) }
    ensures blobs { AreBytesOf contents.new ledger.new.state.stock }
{
    let bytes = drafts.bytes_of(lane);
    let len = bytes.len() as u64;
    let meta = meta_landed(alloc, ledger.state(), &root, bytes)?;
    let seen = looked(alloc, root, &meta)?;
    contents.reserve(alloc, root)?;
    match ledger.land(lane, root, len, meta, seen) {
        Ok(()) => {
            contents.fill(&root, drafts.take(alloc, lane));
            Ok(())
        }
        Err(fault) => {
            contents.remove(&root);
            Err(fault)
        }
    }
}

// The blob's bytes, where a protected package's book is read from them.
fn meta_landed(
    alloc: Global,
    state: &State,
    root: &Root,
    bytes: &[u8],
) -> Result<Option<Bytes>, AllocError>
    ensures read { IfOk result (λ meta.
        is_some meta ≡ (has_root (protected_in state.now) root.now && nat_le (length bytes.now) META_LIMIT)) }
    ensures bytes { IfOk result (λ meta. IfSome meta (λ copy. copy ≡ bytes.now)) }
{
    if state.is_protected(root) && bytes.len() <= META_LIMIT {
        return Ok(Some(copied(alloc, bytes)?));
    }
    Ok(None)
}
