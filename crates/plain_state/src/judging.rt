//! The judgement of systems, by what is stored.

ghost use Rattle.std.specs.Prelude.{◌≡◌, ◌≢◌, [], find, is_some, IfOk, OnErr, option_copied};
ghost use Rattle.pkg_names.specs.Root.{root_eq};
ghost use Rattle.abr_record.specs.declared.Slot.TheVariants as slots;
ghost use Rattle.store_model.specs.declared.events.LookedAt.{LookedAt as LookedAtOf};
ghost use Rattle.store_model.specs.Mirrors.{Mirrors};
ghost use Rattle.store_model.specs.Packages.{known_book};
ghost use Rattle.store_model.specs.Settling.{IsSeen};
ghost use Rattle.store_model.specs.State.{IsStageOf, has_root};
ghost use Rattle.store_model.specs.State.Phase.{Sealed};
ghost use Rattle.store_model.specs.Systems.{seen_bytes, staged_verdict};
ghost use Rattle.store_model.specs.Acts.Activate.{IsAnswerTo, IsDueActivate, next_activate};
ghost use Rattle.system_judge.specs.Judgement.{verdict_of};
ghost use Rattle.plain_stock.specs.Contents.{AreBytesOf};
ghost use Rattle.plain_state.specs.Learning.{Forgets, IsReady, IsSettled};
ghost use Rattle.plain_state.specs.Looking.{LearnsAll, AreFrom, roots_seen};
ghost use Rattle.plain_state.specs.Judged.{outer_in, after_verdict, IsJudged, IsReadAll};

use crate::state::State;
use crate::turns::{PhaseOf, Turn};
use abr_record::{Slot, mark_active};
use image_layout::Sys;
use package_book::{Shelf, Shelved};
use pkg_names::{FilePath, Items, Root};
use plain_stock::{Contents, is_book};
use std::alloc::AllocError;
use store_model::{ActivateEnd, Looked, LookedAt};
use system_judge::{Evidence, Judgement, judge};

/// What is answered to a lane that wants its sealed system to boot, and the blobs that were looked at.
#[derive(Drop)]
pub struct Activation {
    pub reply: ActivateEnd,
    pub seen: Looked,
}

/// What the state has of a system, with the lists that were looked at. Where `retained` is set only what is
/// retained counts.
#[derive(Drop)]
pub struct Hand<'a> {
    pub state: &'a State,
    pub seen: &'a [LookedAt],
    pub retained: bool,
}

impl<'a> Evidence for Hand<'a> {
    ghost use Rattle.plain_state.specs.Judged.{hand_of};

    ghost at_hand = { λ h. hand_of h.state.now h.seen.now h.retained };

    fn len(&self, root: &Root) -> Option<u64> {
        self.state.stored_len(root)
    }

    fn is_kept(&self, root: &Root) -> bool {
        !self.retained || self.state.is_retained(root)
    }

    fn is_book(&self, root: &Root) -> bool {
        self.state.has_book(root)
    }

    fn first_missing(&self, root: &Root) -> Option<Root> {
        self.state.first_missing(root)
    }

    fn outer(&self, root: &Root, file: &FilePath) -> Option<Root> {
        self.state.outer_of(root, file)
    }

    fn bytes(&self, root: &Root) -> Option<&[u8]> {
        bytes_in(self.seen, root)
    }
}

// The first pair of a root.
fn pair_of<'a>(seen: &'a [LookedAt], root: &Root) -> Option<&'a LookedAt>
    ensures { option_copied result ≡ find (λ (pair : LookedAtOf). root_eq pair.root root.now) seen.now }
{
    seen.iter().find(|pair| pair.root == *root)
}

// The bytes of a blob that was looked at.
fn bytes_in<'a>(seen: &'a [LookedAt], root: &Root) -> Option<&'a [u8]>
    ensures { option_copied result ≡ seen_bytes seen.now root.now }
{
    match pair_of(seen, root) {
        Some(pair) => Some(pair.bytes.as_slice()),
        None => None,
    }
}

// The root of the file of this path that the package's book lists.
fn outer_in(books: &Shelf, root: &Root, file: &FilePath) -> Option<Root>
    ensures { result ≡ outer_in (known_book books.now root.now) file.now }
{
    match books.get(root) {
        Some(Shelved::Good(book)) => book.outer(file),
        _ => None,
    }
}

impl State {
    fn is_retained(&self, root: &Root) -> bool
        ensures { result ≡ has_root self.now.retained root.now }
    {
        self.indexes.is_retained(root)
    }

    fn has_book(&self, root: &Root) -> bool
        ensures { result ≡ is_some (known_book self.now.books root.now) }
    {
        is_book(&self.books, root)
    }

    pub(crate) fn outer_of(&self, root: &Root, file: &FilePath) -> Option<Root>
        ensures { result ≡ outer_in (known_book self.now.books root.now) file.now }
    {
        outer_in(&self.books, root, file)
    }
    /// Judges the sealed system of a lane's update, and where it is whole makes its slot the next to boot.
    pub fn activate(
        &mut self,
        lane: u32,
        sys: Sys,
        contents: &Contents,
    ) -> Result<Activation, AllocError>
        requires ready { IsReady self.old }
        requires stage { IsStageOf self.old lane (Sealed sys) }
        requires running { self.old.running ≢ slots.R }
        requires bytes { AreBytesOf contents.now self.old.stock }
        ensures due { IfOk result (λ done. IsDueActivate self.old lane done.seen done.reply) }
        ensures seen { IfOk result (λ done. IsSeen done.seen self.old.stock) }
        ensures settled { IfOk result (λ done.
            IsSettled done.seen (next_activate self.old lane done.seen done.reply) self.new) }
        ensures read { IfOk result (λ done. IsReadAll done.reply) }
        ensures err { OnErr result (Mirrors self.old self.new) }
    {
        let mut seen = Vec::new(self.alloc);
        match self.judge_staged(&sys, contents, &mut seen) {
            Ok(judgement) => {
                let reply = self.take_verdict(lane, sys, judgement);
                self.forget_seen(&seen);
                let seen = Items::make(seen);
                Ok(Activation { reply, seen })
            }
            Err(fault) => {
                self.forget_seen(&seen);
                Err(fault)
            }
        }
    }

    // Looks at the two lists of the system, and judges it by what is retained.
    fn judge_staged(
        &mut self,
        sys: &Sys,
        contents: &Contents,
        seen: &mut Vec<LookedAt>,
    ) -> Result<Judgement, AllocError>
        requires ready { IsReady self.old }
        requires nothing { seen.old.items ≡ [] }
        requires bytes { AreBytesOf contents.now self.old.stock }
        ensures learns { LearnsAll seen.new.items self.old self.new }
        ensures from { AreFrom contents.now seen.new.items }
        ensures verdict { IfOk result (λ found. verdict_of found ≡ staged_verdict self.old seen.new.items sys.now) }
        ensures judged { IfOk result (λ found. IsJudged (verdict_of found)) }
    {
        self.look_at_lists(contents, &sys.system, seen)?;
        let hand = Hand {
            state: self,
            seen,
            retained: true,
        };
        judge(self.alloc, &hand, &sys.system)
    }

    // What a judgement makes of the sealed system.
    fn take_verdict(&mut self, lane: u32, sys: Sys, judgement: Judgement) -> ActivateEnd
        requires running { self.old.running ≢ slots.R }
        requires judged { IsJudged (verdict_of judgement) }
        ensures state { self.new ≡ after_verdict self.old lane sys (verdict_of judgement) }
        ensures answer { IsAnswerTo self.old (verdict_of judgement) result }
        ensures read { IsReadAll result }
    {
        match judgement {
            Judgement::Missing(root) => ActivateEnd::BaseMissing { root },
            Judgement::Faulty(why) => ActivateEnd::NotASystem { why },
            Judgement::Unread(_) => unreachable!(),
            Judgement::Whole { base, .. } => {
                let slot = self.other_slot();
                self.abr = mark_active(&self.abr, slot);
                self.stage = Some(Turn {
                    lane,
                    phase: PhaseOf::Done,
                });
                self.staged = Some(base);
                match slot {
                    Slot::A => self.a = Some(sys),
                    Slot::B => self.b = Some(sys),
                    Slot::R => (),
                }
                ActivateEnd::Active { slot }
            }
        }
    }

    /// The books forget what was looked at, but for what is protected.
    pub fn forget_seen(&mut self, seen: &[LookedAt])
        ensures { Forgets (roots_seen seen.now) self.old self.new }
    {
        for pair in seen {
            self.forget(&pair.root);
        }
    }
}
