//! Calls of a store on what it keeps.

ghost use Rattle.std.specs.Prelude.{◌≡◌, ◌≤◌, List, ℕ, length, IfOk, OnErr};
ghost use Rattle.store_model.specs.declared.desk.TheConstants.{RETAIN_LIMIT};
ghost use Rattle.store_model.specs.Desk.{Keeps};
ghost use Rattle.store_model.specs.Calls.{Collects, Retains};
ghost use Rattle.store_model.specs.Replies.{IsCollected, IsRetained};
ghost use Rattle.plain_stock.specs.Contents.{AreBytesOf};
ghost use Rattle.plain_ledger.specs.Ledgers.{Agrees, Stays, Tells};
ghost use Rattle.plain_desk.specs.Stores.{IsOwnCall, InMemory, AreRemoved, Clears, view_of, kept_for};

use crate::store::Store;
use pkg_names::{Root, Roots};
use plain_ledger::Ledger;
use plain_stock::Contents;
use std::alloc::{AllocError, Global};
use store_model::{Act, CollectReply, Looked, RetainEnd, RetainReply};

impl Store {
    /// Removes what no protected package names.
    pub fn collect(&mut self, lane: u32) -> CollectReply
        ensures event { (tie : List ℕ) → Collects result (view_of tie lane self.old) (view_of tie lane self.new) }
        ensures kept { Keeps (kept_for lane self.old) (kept_for lane self.new) }
        ensures images { self.new.images ≡ self.old.images }
        ensures own { IsOwnCall lane self.old self.new }
    {
        match collect(self.alloc, &mut self.ledger, &mut self.contents, lane) {
            Ok(reply) => reply,
            Err(_) => CollectReply::NoMemory,
        }
    }

    /// Retains these packages and no others.
    pub fn retain(&mut self, lane: u32, roots: &[Root]) -> RetainReply
        requires { length roots.now ≤ RETAIN_LIMIT }
        ensures event { (tie : List ℕ)
            → Retains roots.now result (view_of tie lane self.old) (view_of tie lane self.new) }
        ensures kept { Keeps (kept_for lane self.old) (kept_for lane self.new) }
        ensures images { self.new.images ≡ self.old.images }
        ensures own { IsOwnCall lane self.old self.new }
    {
        match retain(self.alloc, &mut self.ledger, &self.contents, lane, roots) {
            Ok(reply) => reply,
            Err(_) => RetainReply::NoMemory,
        }
    }
}

fn collect(
    alloc: Global,
    ledger: &mut Ledger,
    contents: &mut Contents,
    lane: u32,
) -> Result<CollectReply, AllocError>
    requires agrees { Agrees ledger.old }
    requires bytes { AreBytesOf contents.old ledger.old.state.stock }
    ensures ok { IfOk result (λ reply. Clears lane (InMemory (IsCollected reply)) ledger.old ledger.new) }
    ensures err { OnErr result (Stays ledger.old ledger.new) }
    ensures bytes { AreBytesOf contents.new ledger.new.state.stock }
{
    let Some(removed) = ledger.state().collect_answer()? else {
        ledger.note(lane, Act::Collect { reply: None })?;
        return Ok(CollectReply::NotCommitted);
    };
    ledger.collect(lane, removed.try_copy(alloc)?)?;
    remove_all(contents, removed.as_slice());
    Ok(CollectReply::Removed(removed))
}

fn remove_all(contents: &mut Contents, roots: &[Root])
    ensures { AreRemoved roots.now contents.old contents.new }
{
    for root in roots {
        contents.remove(root);
    }
}

fn retain(
    alloc: Global,
    ledger: &mut Ledger,
    contents: &Contents,
    lane: u32,
    roots: &[Root],
) -> Result<RetainReply, AllocError>
    requires agrees { Agrees ledger.old }
    requires bytes { AreBytesOf contents.now ledger.old.state.stock }
    ensures ok { IfOk result (λ reply.
        Tells lane (InMemory (IsRetained roots.now (length roots.now) reply)) ledger.old ledger.new) }
    ensures err { OnErr result (Stays ledger.old ledger.new) }
{
    let kept = Roots::make(Vec::from_slice(alloc, roots)?);
    if ledger.state().is_other_bootable() {
        let seen = Looked::make(Vec::new(alloc));
        let reply = RetainEnd::SlotInUse;
        ledger.note(
            lane,
            Act::Retain {
                roots: kept,
                reply,
                seen,
            },
        )?;
        return Ok(RetainReply::SlotInUse);
    }
    ledger.retain(lane, kept, contents)?;
    Ok(RetainReply::Done)
}
