//! Whether a system is whole.

ghost use Rattle.std.specs.Prelude.{◌≡◌, ◌≢◌, ◌≤◌, false, List, Option, Some, None, Ok, Err, IfOk, IfErr, IfSome, IsSomeAnd};
ghost use Rattle.pkg_names.specs.Streams.{Rose};
ghost use Rattle.pkg_names.specs.declared.root.Root.{Root as RootOf};
ghost use Rattle.system_lists.specs.Judging.Verdict.{Whole};
ghost use Rattle.system_judge.specs.Judgement.{verdict_of};
ghost use Rattle.boot_core.specs.Look.{IsRotten};
ghost use Rattle.boot_core.specs.Seen.{AreSeen};
ghost use Rattle.boot_core.specs.declared.looking.SeenBlob.{SeenBlob as SeenBlobOf};
ghost use Rattle.boot_core.specs.declared.wholeness.WholeFault.TheVariants as fault;
ghost use Rattle.boot_core.specs.Whole.{said, plainly, verdict_on, is_open, IsBySeen};

use crate::hand::{judge_seen, outer};
use crate::looking::{Look, SeenBlob};
use crate::seen::{Seen, bytes_in, is_seen, look_at};
use image_layout::Sys;
use pkg_names::{Items, Root, read_file};
use std::alloc::{AllocError, Global};
use system_judge::Judgement;
use system_lists::{PinnedList, SystemFault, read_static};

/// The packages of a whole system: the base, with the system package first, and the cached set; and the
/// blobs that were looked at for that.
#[derive(Debug, Drop)]
pub struct BaseOf {
    pub base: PinnedList,
    pub cached: PinnedList,
    pub seen: Items<SeenBlob>,
}

/// Why a system isn't known to be whole.
#[derive(Clone, Copy, Debug, PartialEq, Eq)]
pub enum WholeFault {
    /// This package, or this blob that a package names, isn't stored.
    BaseMissing { root: Root },
    NotASystem { why: SystemFault },
    /// The store failed to read.
    Read,
    /// The bytes read of this blob have another root.
    Rotten { root: Root, got: Root },
    NoMemory,
}

impl From<AllocError> for WholeFault {
    ghost from_gives = { λ _ e. e ≡ fault.NoMemory };

    fn from(_e: AllocError) -> WholeFault {
        WholeFault::NoMemory
    }
}

/// Looks whether the system of a slot is whole (`docs/model.md`). The first thing that is wrong
/// counts, and a blob that can't be read counts where it is needed.
pub fn whole<L: Look>(alloc: Global, look: &mut L, sys: &Sys) -> Result<BaseOf, WholeFault>
    ensures seen { IfOk result (λ found. IsBySeen (L.stock look.old) found.seen sys.now.system
        (Whole found.base found.cached)) }
    ensures judged { IfSome (said result) (λ verdict. (blobs : List SeenBlobOf)
        × IsBySeen (L.stock look.old) blobs sys.now.system verdict) }
    ensures told { IfSome (L.blobs look.old) (λ all. IfSome (said result) (λ verdict.
        verdict ≡ verdict_on all (L.stock look.old) sys.now.system)) }
    ensures rotten { (root got : RootOf) → result ≡ Err (fault.Rotten root got)
        → IsRotten (L.stock look.old) root got × (L.blobs look.old ≡ None) }
    ensures cause { result ≡ Err WholeFault.Read → Rose (L.faults look.old) (L.faults look.new) }
    ensures stock_stays { L.stock look.new ≡ L.stock look.old }
    ensures blobs_stay { L.blobs look.new ≡ L.blobs look.old }
    ensures faults_never_fall { L.faults look.old ≤ L.faults look.new }
{
    // so lengths and bytes are known to agree
    let _len = look.len(&sys.system);
    let mut seen = Seen::new(alloc);
    // each round but the last looks at one blob more
    for _ in 0..u64::MAX {
        let judgement = judge_seen(alloc, look, &seen, &sys.system)?;
        match open_blob(look, &seen, &sys.system, &judgement) {
            Some(root) => {
                look_at(alloc, look, &mut seen, &root)?;
                look_ahead(alloc, look, &mut seen, &sys.system);
            }
            None => return answer(judgement, seen),
        }
    }
    Err(WholeFault::NoMemory)
}

// The blob that has to be looked at before the judgement counts.
fn open_blob<L: Look>(look: &L, seen: &Seen, system: &Root, judgement: &Judgement) -> Option<Root>
    ensures { result ≡ None → is_open (L.stock look.now) seen.now.books system.now
        (verdict_of judgement.now) ≡ false }
{
    let root = match judgement {
        Judgement::Faulty(SystemFault::NoBook) => *system,
        Judgement::Faulty(SystemFault::BadBase { root }) => *root,
        Judgement::Unread(root) => return look.len(root).map(|_| *root),
        _ => return None,
    };
    if is_seen(seen, &root) {
        None
    } else {
        Some(root)
    }
}

// Looks at the packages of the base, which are needed next, once the static list is known. What fails here
// is met again where it is needed.
fn look_ahead<L: Look>(alloc: Global, look: &mut L, seen: &mut Seen, system: &Root)
    ensures seen { AreSeen (L.stock look.old) (L.blobs look.old) seen.old
        → AreSeen (L.stock look.old) (L.blobs look.old) seen.new }
    ensures stock_stays { L.stock look.new ≡ L.stock look.old }
    ensures blobs_stay { L.blobs look.new ≡ L.blobs look.old }
    ensures faults_never_fall { L.faults look.old ≤ L.faults look.new }
{
    let Some(base) = base_seen(alloc, seen, system) else {
        return;
    };
    for pair in base.as_slice() {
        if look_at(alloc, look, seen, &pair.root).is_err() {
            return;
        }
    }
}

// The static list of a system, if it was looked at and is one.
fn base_seen(alloc: Global, seen: &Seen, system: &Root) -> Option<PinnedList> {
    let file = read_file(alloc, b"data/static_packages").ok()?;
    let root = outer(&seen.books, system, &file)?;
    let text = bytes_in(&seen.blobs, &root)?;
    read_static(alloc, text).ok()
}

// What a judgement answers. A list that isn't stored is a blob that isn't there.
fn answer(judgement: Judgement, seen: Seen) -> Result<BaseOf, WholeFault>
    ensures said { said result ≡ Some (plainly (verdict_of judgement)) }
    ensures seen { IfOk result (λ found. found.seen ≡ seen.blobs.items) }
{
    match judgement {
        Judgement::Missing(root) => Err(WholeFault::BaseMissing { root }),
        Judgement::Faulty(why) => Err(WholeFault::NotASystem { why }),
        Judgement::Unread(root) => Err(WholeFault::BaseMissing { root }),
        Judgement::Whole { base, cached } => Ok(found(base, cached, seen)),
    }
}

fn found(base: PinnedList, cached: PinnedList, seen: Seen) -> BaseOf
    ensures { result ≡ record { base = base; cached = cached; seen = seen.blobs.items } }
{
    BaseOf {
        base,
        cached,
        seen: Items::make(seen.blobs),
    }
}
