//! Calls of a store on packages that are asked for.

ghost use Rattle.std.specs.Prelude.{◌≡◌, [], List, ℕ, is_some, IfSome, IfOk, OnErr, length};
ghost use Rattle.pkg_merkle.specs.Merkle.{merkle_root};
ghost use Rattle.store_model.specs.declared.ends.BeginEnd.TheVariants as begun;
ghost use Rattle.store_model.specs.Desk.{Does, Keeps};
ghost use Rattle.store_model.specs.Replies.{IsBegun, IsGivenUp};
ghost use Rattle.store_model.specs.Calls.{Begins, Wants, HoldsTicket, HoldsNoClaim, KeepsAtWant};
ghost use Rattle.store_model.specs.State.{stored_len};
ghost use Rattle.store_model.specs.Acts.Begin.{begin_answer, has_to_read};
ghost use Rattle.plain_stock.specs.Contents.{AreBytesOf};
ghost use Rattle.plain_state.specs.Learning.{seen_of};
ghost use Rattle.plain_ledger.specs.Ledgers.{Agrees, Stays, Tells};
ghost use Rattle.plain_desk.specs.Stores.{IsOwnCall, InMemory, view_of, kept_for, IsRefusal, IsBegunAs};

use crate::store::Store;
use package_indexes::Choice;
use pkg_names::{Bytes, PackagePath, Root};
use plain_ledger::Ledger;
use plain_state::State;
use plain_stock::Contents;
use std::alloc::{AllocError, Global};
use store_model::{
    Act, BeginEnd, BeginReply, Claim, Dir, Looked, LookedAt, Ticket, WantEnd, WantReply,
};

impl Store {
    /// Asks for a package.
    pub fn begin(&mut self, lane: u32, path: &PackagePath, choice: Choice) -> BeginReply
        ensures event { (tie : List ℕ)
            → Begins path.now choice result (view_of tie lane self.old) (view_of tie lane self.new) }
        ensures kept { Keeps (kept_for lane self.old) (kept_for lane self.new) }
        ensures images { self.new.images ≡ self.old.images }
        ensures own { IsOwnCall lane self.old self.new }
    {
        match begin(
            self.alloc,
            &mut self.ledger,
            &self.contents,
            lane,
            path,
            choice,
        ) {
            Ok(reply) => reply,
            Err(_) => BeginReply::NoMemory,
        }
    }

    /// Asks what is missing of a package that arrives.
    pub fn want(&mut self, lane: u32, ticket: Ticket) -> WantReply
        requires holds { HoldsTicket (view_of [] lane self.old) ticket }
        requires free { HoldsNoClaim (view_of [] lane self.old) }
        ensures event { (tie : List ℕ) → Wants ticket result (view_of tie lane self.old) (view_of tie lane self.new) }
        ensures kept { KeepsAtWant result (kept_for lane self.old) (kept_for lane self.new) }
        ensures images { self.new.images ≡ self.old.images }
        ensures own { IsOwnCall lane self.old self.new }
    {
        match self.ledger.state().want_answer(ticket.number) {
            Some(WantEnd::Failed(cause)) => {
                self.ledger.fail(lane, ticket.number, cause);
                WantReply::Failed(cause)
            }
            Some(WantEnd::Opened) => match self.ledger.open_ticket(lane, ticket.number) {
                Ok(number) => WantReply::Opened(Dir { number }),
                Err(_) => WantReply::NoMemory(ticket),
            },
            Some(WantEnd::Fetch(root)) => match self.ledger.grant(lane, ticket.number, root) {
                Ok(()) => WantReply::Fetch(ticket, Claim { root }),
                Err(_) => WantReply::NoMemory(ticket),
            },
            None => WantReply::NotYet(ticket, 0),
        }
    }

    /// Ends a ticket.
    pub fn give_up(&mut self, lane: u32, ticket: Ticket)
        requires { HoldsTicket (view_of [] lane self.old) ticket }
        ensures event { (tie : List ℕ)
            → Does (view_of tie lane self.old) (view_of tie lane self.new) (IsGivenUp ticket.number) }
        ensures kept { Keeps (kept_for lane self.old) (kept_for lane self.new) }
        ensures images { self.new.images ≡ self.old.images }
        ensures own { IsOwnCall lane self.old self.new }
    {
        self.ledger.give_up(lane, ticket.number);
    }
}

fn begin(
    alloc: Global,
    ledger: &mut Ledger,
    contents: &Contents,
    lane: u32,
    path: &PackagePath,
    choice: Choice,
) -> Result<BeginReply, AllocError>
    requires agrees { Agrees ledger.old }
    requires bytes { AreBytesOf contents.now ledger.old.state.stock }
    ensures ok { IfOk result (λ reply. Tells lane (InMemory (IsBegun path.now choice reply)) ledger.old ledger.new) }
    ensures err { OnErr result (Stays ledger.old ledger.new) }
{
    let asked = path.try_copy(alloc)?;
    match ledger.state().begin_answer(path, choice) {
        BeginEnd::Ticket(root) => arrive(alloc, ledger, contents, lane, asked, choice, root),
        reply => refuse(alloc, ledger, lane, asked, choice, reply),
    }
}

fn arrive(
    alloc: Global,
    ledger: &mut Ledger,
    contents: &Contents,
    lane: u32,
    path: PackagePath,
    choice: Choice,
    root: Root,
) -> Result<BeginReply, AllocError>
    requires agrees { Agrees ledger.old }
    requires bytes { AreBytesOf contents.now ledger.old.state.stock }
    requires answer { begin_answer ledger.old.state path choice ≡ begun.Ticket root }
    ensures ok { IfOk result (λ reply. Tells lane (InMemory (IsBegun path choice reply)) ledger.old ledger.new) }
    ensures err { OnErr result (Stays ledger.old ledger.new) }
{
    let meta = to_read(alloc, ledger.state(), contents, &root)?;
    let seen = looked(alloc, root, &meta)?;
    let number = ledger.arrive(lane, path, choice, root, meta, seen)?;
    Ok(BeginReply::Made(Ticket { number, root }))
}

fn refuse(
    alloc: Global,
    ledger: &mut Ledger,
    lane: u32,
    path: PackagePath,
    choice: Choice,
    reply: BeginEnd,
) -> Result<BeginReply, AllocError>
    requires answer { reply ≡ begin_answer ledger.old.state path choice }
    requires none { IsRefusal reply }
    ensures ok { IfOk result (λ reply. Tells lane (InMemory (IsBegun path choice reply)) ledger.old ledger.new) }
    ensures err { OnErr result (Stays ledger.old ledger.new) }
{
    let seen = Looked::make(Vec::new(alloc));
    ledger.note(
        lane,
        Act::Begin {
            path,
            choice,
            reply,
            seen,
        },
    )?;
    Ok(refusal(reply))
}

fn refusal(end: BeginEnd) -> BeginReply
    requires { IsRefusal end }
    ensures { IsBegunAs end result }
{
    match end {
        BeginEnd::InRecovery => BeginReply::InRecovery,
        BeginEnd::NotFound => BeginReply::NotFound,
        BeginEnd::ListingFault => BeginReply::ListingFault,
        BeginEnd::Ticket(_) | BeginEnd::DiskRead | BeginEnd::Rotten { .. } => unreachable!(),
    }
}

// The package's meta blob, where it has to be read.
fn to_read(
    alloc: Global,
    state: &State,
    contents: &Contents,
    root: &Root,
) -> Result<Option<Bytes>, AllocError>
    requires { AreBytesOf contents.now state.now.stock }
    ensures read { IfOk result (λ meta. is_some meta ≡ has_to_read state.now root.now) }
    ensures bytes { IfOk result (λ meta. IfSome meta (λ bytes. (merkle_root bytes ≡ root.now)
        × (stored_len state.now.stock root.now ≡ Some (length bytes)))) }
{
    if !state.has_to_read(root) {
        return Ok(None);
    }
    match contents.get(root) {
        Some(bytes) => Ok(Some(copied(alloc, bytes)?)),
        None => Ok(None),
    }
}

// The same bytes once more.
pub(crate) fn copied(alloc: Global, bytes: &[u8]) -> Result<Bytes, AllocError>
    ensures { IfOk result (λ copy. copy ≡ bytes.now) }
{
    let mut copy = Vec::new(alloc);
    copy.extend_from_slice(bytes)?;
    Ok(Bytes::make(copy))
}

// What is looked at, where a meta blob is read.
pub(crate) fn looked(alloc: Global, root: Root, meta: &Option<Bytes>) -> Result<Looked, AllocError>
    ensures { IfOk result (λ seen. seen ≡ seen_of root meta.now) }
{
    let mut seen = Vec::new(alloc);
    if let Some(bytes) = meta {
        seen.push(LookedAt {
            root,
            bytes: bytes.try_copy(alloc)?,
        })?;
    }
    Ok(Looked::make(seen))
}
