ghost use Rattle.std.specs.Prelude.{◌≡◌, ◌≢◌, [], ◌∷◌, ◌++◌, ◌==◌, false, None, find, option_copied, OnOk, OnErr};
ghost use Rattle.std.specs.List.{All};
ghost use Rattle.fetch_queue.specs.declared.queue.MarkEntry.{MarkEntry as MarkEntryOf};
ghost use Rattle.fetch_queue.specs.Fetches.{IsFetches, is_claimed, first_unclaimed, roomed, with_room, without_claim, first_mark, marked, with_mark, mark_of, without_ticket};

use crate::FetchEnd;
use pkg_names::Root;
use std::alloc::{AllocError, Global};
use std::marker::Model;

/// A claim: a blob, the lane that fetches it, and the length of the room that was made for it, once it
/// was made.
#[derive(Clone, Copy, Debug, PartialEq, Eq)]
pub struct ClaimEntry {
    pub root: Root,
    pub lane: u32,
    pub len: Option<u64>,
}

/// The ticket of a package that arrives, and its mark: how the first fetch of one of its blobs ended that
/// ended without the blob.
#[derive(Clone, Copy, Debug, PartialEq, Eq)]
pub struct MarkEntry {
    pub ticket: u64,
    pub end: Option<FetchEnd>,
}

/// The fetches under way. Contracts see the claims and the marks, each in the order in which they came.
#[derive(Debug, Drop)]
pub struct Queue {
    claims: Vec<ClaimEntry>,
    marks: Vec<MarkEntry>,
}

impl Model for Queue {
    ghost use Rattle.fetch_queue.specs.Fetches.{Fetches, IsFetches};

    ghost Value = { Fetches };

    ghost view = { λ q. record { claims = q.claims.items; marks = q.marks.items } };

    ghost invariant = { λ q. IsFetches q.claims.items q.marks.items };
}

impl Queue {
    /// Nothing is fetched.
    pub fn new(alloc: Global) -> Queue
        ensures claims { result.claims ≡ [] }
        ensures marks { result.marks ≡ [] }
    {
        Queue {
            claims: Vec::new(alloc),
            marks: Vec::new(alloc),
        }
    }

    /// The lane claims a root that nobody has claimed.
    pub fn claim(&mut self, root: Root, lane: u32) -> Result<(), AllocError>
        requires { is_claimed self.old.claims root ≡ false }
        ensures ok { OnOk result (self.new ≡ record self.old {
          claims = self.old.claims ++ record { root = root; lane = lane; len = None } ∷ [];
        }) }
        ensures err { OnErr result (self.new ≡ self.old) }
    {
        self.claims.push(ClaimEntry {
            root,
            lane,
            len: None,
        })?;
        Ok(())
    }

    /// Notes the length of the room that was made for the claimed root's blob.
    pub fn set_room(&mut self, root: &Root, len: u64)
        ensures { self.new ≡ record self.old { claims = with_room self.old.claims root.now len } }
    {
        make_room(&mut self.claims, root, len);
    }

    /// Ends the claim of a root.
    pub fn end_claim(&mut self, root: &Root)
        ensures { self.new ≡ record self.old { claims = without_claim self.old.claims root.now } }
    {
        self.claims.retain(|claim| claim.root != *root);
    }

    /// The claims, in the order in which they came.
    pub fn claims(&self) -> &[ClaimEntry]
        ensures { result.now ≡ self.now.claims }
    {
        &self.claims
    }

    /// The first of the wanted roots that nobody has claimed.
    pub fn first_unclaimed(&self, wanted: &[Root]) -> Option<Root>
        ensures first { result ≡ first_unclaimed self.now.claims wanted.now }
        ensures distinct { IsFetches self.now.claims self.now.marks }
    {
        first_free(&self.claims, wanted)
    }

    /// A package arrives under a new ticket. It has no mark.
    pub fn enlist(&mut self, ticket: u64) -> Result<(), AllocError>
        requires { All (λ mark. mark.ticket ≢ ticket) self.old.marks }
        ensures ok { OnOk result (self.new ≡ record self.old {
          marks = self.old.marks ++ record { ticket = ticket; end = None } ∷ [];
        }) }
        ensures err { OnErr result (self.new ≡ self.old) }
    {
        self.marks.push(MarkEntry { ticket, end: None })?;
        Ok(())
    }

    /// Marks a ticket with the end of a fetch. A first mark stays.
    pub fn mark(&mut self, ticket: u64, end: FetchEnd)
        ensures { self.new ≡ record self.old { marks = with_mark self.old.marks ticket end } }
    {
        put_mark(&mut self.marks, ticket, end);
    }

    /// The mark of a ticket, if it has one.
    pub fn mark_of(&self, ticket: u64) -> Option<FetchEnd>
        ensures mark { result ≡ mark_of self.now.marks ticket }
        ensures distinct { IsFetches self.now.claims self.now.marks }
    {
        match entry_of(&self.marks, ticket) {
            Some(mark) => mark.end,
            None => None,
        }
    }

    /// The package of a ticket arrives no longer.
    pub fn delist(&mut self, ticket: u64)
        ensures { self.new ≡ record self.old { marks = without_ticket self.old.marks ticket } }
    {
        self.marks.retain(|mark| mark.ticket != ticket);
    }
}

fn is_claimed(claims: &[ClaimEntry], root: &Root) -> bool
    ensures { result ≡ is_claimed claims.now root.now }
{
    claims.iter().any(|claim| claim.root == *root)
}

fn first_free(claims: &[ClaimEntry], wanted: &[Root]) -> Option<Root>
    ensures { result ≡ first_unclaimed claims.now wanted.now }
{
    wanted
        .iter()
        .find(|root| !is_claimed(claims, root))
        .copied()
}

// The claim, with room of this length if it is the root's.
fn roomed(claim: &ClaimEntry, root: &Root, len: u64) -> ClaimEntry
    ensures { result ≡ roomed root.now len claim.now }
{
    if claim.root != *root {
        return *claim;
    }
    ClaimEntry {
        root: claim.root,
        lane: claim.lane,
        len: Some(len),
    }
}

fn make_room(claims: &mut [ClaimEntry], root: &Root, len: u64)
    ensures { claims.new ≡ with_room claims.old root.now len }
{
    for claim in claims.iter_mut() {
        *claim = roomed(claim, root, len);
    }
}

fn entry_of<'a>(marks: &'a [MarkEntry], ticket: u64) -> Option<&'a MarkEntry>
    ensures { option_copied result ≡ find (λ (mark : MarkEntryOf). mark.ticket == ticket) marks.now }
{
    marks.iter().find(|mark| mark.ticket == ticket)
}

// The first mark of the two.
fn first_mark(mark: Option<FetchEnd>, end: FetchEnd) -> Option<FetchEnd>
    ensures { result ≡ first_mark mark end }
{
    match mark {
        Some(first) => Some(first),
        None => Some(end),
    }
}

// The entry, with the mark if it is the ticket's and has none.
fn marked(mark: &MarkEntry, ticket: u64, end: FetchEnd) -> MarkEntry
    ensures { result ≡ marked ticket end mark.now }
{
    if mark.ticket != ticket {
        return *mark;
    }
    MarkEntry {
        ticket,
        end: first_mark(mark.end, end),
    }
}

fn put_mark(marks: &mut [MarkEntry], ticket: u64, end: FetchEnd)
    ensures { marks.new ≡ with_mark marks.old ticket end }
{
    for mark in marks.iter_mut() {
        *mark = marked(mark, ticket, end);
    }
}
