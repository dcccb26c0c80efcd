//! What a boot looks at, and what it makes of the slot's system.

ghost use Rattle.std.specs.Prelude.{◌≡◌, [], false, IfOk, OnOk};
ghost use Rattle.plain_stock.specs.Contents.{AreBytesOf};
ghost use Rattle.plain_state.specs.Judged.{hand_of};
ghost use Rattle.system_judge.specs.Judgement.{verdict_of};
ghost use Rattle.system_judge.specs.Listed.{listed};
ghost use Rattle.system_lists.specs.Judging.{judged};
ghost use Rattle.plain_boot.specs.Looking.{HasLookedAt, WasJudged};

use pkg_names::{Root, Roots};
use plain_state::{Hand, State};
use plain_stock::Contents;
use std::alloc::{AllocError, Global};
use store_model::LookedAt;
use system_judge::{Judgement, judge, listed};

// Looks at the system's package, at its two lists, and at the packages that these name.
fn look_at_system(
    alloc: Global,
    state: &mut State,
    contents: &Contents,
    system: &Root,
    seen: &mut Vec<LookedAt>,
) -> Result<(), AllocError>
    requires unknown { state.old.books ≡ [] }
    requires nothing { seen.old.items ≡ [] }
    requires bytes { AreBytesOf contents.now state.old.stock }
    ensures { OnOk result (HasLookedAt contents.now system.now state.old seen.new.items state.new) }
{
    state.look(contents, *system, seen)?;
    state.look_at_lists(contents, system, seen)?;
    let packages = packages_of(alloc, state, seen, system)?;
    state.look_at_each(contents, packages.as_slice(), seen)
}

// The packages that the system's lists name, as far as these were looked at.
fn packages_of(
    alloc: Global,
    state: &State,
    seen: &[LookedAt],
    system: &Root,
) -> Result<Roots, AllocError>
    ensures { IfOk result (λ roots. roots ≡ listed (hand_of state.now seen.now false) system.now) }
{
    let hand = Hand {
        state,
        seen,
        retained: false,
    };
    listed(alloc, &hand, system)
}

/// Looks at all that the judgement of the system with this package needs, and judges it.
pub(crate) fn judge_booted(
    alloc: Global,
    state: &mut State,
    contents: &Contents,
    system: &Root,
    seen: &mut Vec<LookedAt>,
) -> Result<Judgement, AllocError>
    requires unknown { state.old.books ≡ [] }
    requires nothing { seen.old.items ≡ [] }
    requires bytes { AreBytesOf contents.now state.old.stock }
    ensures { IfOk result (λ found.
        WasJudged contents.now system.now state.old seen.new.items state.new (verdict_of found)) }
{
    look_at_system(alloc, state, contents, system, seen)?;
    judge_by(alloc, state, seen, system)
}

fn judge_by(
    alloc: Global,
    state: &State,
    seen: &[LookedAt],
    system: &Root,
) -> Result<Judgement, AllocError>
    ensures { IfOk result (λ found. verdict_of found ≡ judged (hand_of state.now seen.now false) system.now) }
{
    let hand = Hand {
        state,
        seen,
        retained: false,
    };
    judge(alloc, &hand, system)
}
