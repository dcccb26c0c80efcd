//! The boot of what lasted.

ghost use Rattle.std.specs.Prelude.{◌≡◌, ◌≢◌, List, [], IfOk};
ghost use Rattle.abr_record.specs.declared.Slot.TheVariants as slots;
ghost use Rattle.plain_stock.specs.Contents.{AreBytesOf};
ghost use Rattle.store_model.specs.declared.events.LookedAt.{LookedAt as LookedAtOf};
ghost use Rattle.store_model.specs.State.{Standing as StandingOf, opened, sys_of};
ghost use Rattle.abr_record.specs.Boot.{boot_slot};
ghost use Rattle.image_layout.specs.declared.geometry.Geometry.{Geometry as GeometryOf};
ghost use Rattle.plain_boot.specs.Starting.{Starts, HasSettled};

use crate::looking::judge_booted;
use abr_record::Slot;
use image_layout::{Geometry, Sys};
use pkg_names::{Items, Root};
use plain_state::{Standing, State};
use plain_stock::Contents;
use std::alloc::{AllocError, Global};
use store_model::{Looked, LookedAt};
use system_judge::Judgement;
use system_lists::SystemFault;

/// How a boot ends.
#[derive(Drop)]
pub enum BootEnd {
    /// This slot runs. The boot looked at these blobs.
    Runs {
        state: State,
        slot: Slot,
        seen: Looked,
    },
    /// No system is sealed in the slot that the record boots.
    NoSystem {
        slot: Slot,
    },
    /// This package or blob of the slot's system isn't stored.
    Missing {
        slot: Slot,
        root: Root,
    },
    /// What is wrong with the slot's system.
    Faulty {
        slot: Slot,
        why: SystemFault,
    },
}

/// Boots what lasted, with the bytes of the stored blobs.
pub fn start(
    alloc: Global,
    geometry: Geometry,
    standing: Standing,
    contents: &Contents,
) -> Result<BootEnd, AllocError>
    requires { AreBytesOf contents.now standing.stock }
    ensures { IfOk result (λ end. Starts contents.now (opened geometry standing) end) }
{
    let state = State::opened(alloc, geometry, standing);
    let slot = state.boot_slot();
    if slot == Slot::R {
        return Ok(start_recovery(alloc, state));
    }
    match state.sys_of(slot) {
        Some(sys) => start_system(alloc, state, slot, sys, contents),
        None => Ok(BootEnd::NoSystem { slot }),
    }
}

// In recovery there are no packages.
fn start_recovery(alloc: Global, state: State) -> BootEnd
    requires recovery { boot_slot state.abr ≡ slots.R }
    ensures { (contents : List LookedAtOf) (g : GeometryOf) (d : StandingOf)
        → state ≡ opened g d → Starts contents state result }
{
    let base = Items::make(Vec::new(alloc));
    let cached = Items::make(Vec::new(alloc));
    BootEnd::Runs {
        state: state.booted(base, cached),
        slot: Slot::R,
        seen: Items::make(Vec::new(alloc)),
    }
}

fn start_system(
    alloc: Global,
    mut state: State,
    slot: Slot,
    sys: Sys,
    contents: &Contents,
) -> Result<BootEnd, AllocError>
    requires bytes { AreBytesOf contents.now state.stock }
    requires chosen { slot ≡ boot_slot state.abr }
    requires apart { slot ≢ slots.R }
    requires sealed { sys_of state slot ≡ Some sys }
    requires unknown { state.books ≡ [] }
    ensures { IfOk result (λ end. (g : GeometryOf) (d : StandingOf)
        → state ≡ opened g d → Starts contents.now state end) }
{
    let mut seen = Vec::new(alloc);
    match judge_booted(alloc, &mut state, contents, &sys.system, &mut seen)? {
        Judgement::Whole { base, cached } => {
            let state = settle(state.booted(base, cached), &seen)?;
            Ok(BootEnd::Runs {
                state,
                slot,
                seen: Items::make(seen),
            })
        }
        Judgement::Missing(root) => Ok(BootEnd::Missing { slot, root }),
        Judgement::Faulty(why) => Ok(BootEnd::Faulty { slot, why }),
        Judgement::Unread(_) => unreachable!(),
    }
}

// The books learn the lengths of the packages that are too long to be read, and forget what no package is.
fn settle(mut state: State, seen: &[LookedAt]) -> Result<State, AllocError>
    ensures { IfOk result (λ settled. HasSettled seen.now state settled) }
{
    let protected = state.protected()?;
    state.learn_lengths(protected.as_slice())?;
    state.forget_seen(seen);
    Ok(state)
}
