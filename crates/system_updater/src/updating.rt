//! A whole update.

ghost use Rattle.std.specs.Prelude.{◌≡◌, ◌≤◌, ◌↔◌, [], length, None};
ghost use Rattle.system_lists.specs.declared.list.TheConstants.{ENTRY_LIMIT};
ghost use Rattle.image_layout.specs.declared.ImageKind.TheVariants as kinds;
ghost use Rattle.store_model.specs.declared.replies.Dir.{Dir as DirOf};
ghost use Rattle.store_model.specs.Desk.Keeping.{Image};
ghost use Rattle.store_model.specs.Calls.{HoldsNoClaim};
ghost use Rattle.system_updater.specs.Plan.{sys_of};
ghost use Rattle.system_updater.specs.Serving.{closed, left};
ghost use Rattle.system_updater.specs.Serving.Prior.{NothingRead};
ghost use Rattle.system_updater.specs.Serving.Point.{Reading, Staging, Retaining, Activating};
ghost use Rattle.system_updater.specs.Holding.{HoldsAt};
ghost use Rattle.system_updater.specs.Viewing.{told, Updates};
ghost use Rattle.system_updater.specs.Filled.{IsFilledBy, TellsOf, SlotOf};
ghost use Rattle.system_updater.specs.Steps.{Goes, or_left, IsStaging, IsRetaining};

use crate::closing::{close, leave};
use crate::images::fill_all;
use crate::manifests::read_plan;
use crate::packages::{fetch_all, retain};
use crate::plan::Plan;
use crate::reply::{UpdateReply, refusal_of};
use crate::system::{activate, seal, stage, sys_of};
use package_url::Url;
use repo_source::Repo;
use resolver::{ResolveReply, resolve};
use std::alloc::Global;
use std::sync::Wait;
use store_model::{Desk, Dir};

/// Updates to the system of the package of a URL: its manifests are read and judged, its packages and images are
/// brought to the store, and the other slot is filled, sealed, and made the one that boots next. Whatever is
/// answered, the lane holds what it held before: no claim, no ticket, no directory and no stage of this call.
pub fn update<W: Wait, K: Desk, R: Repo>(
    rt: &W,
    alloc: Global,
    desk: &mut K,
    repo: &mut R,
    url: &Url,
) -> UpdateReply
    requires no_file { url.now.file ≡ None }
    requires free { HoldsNoClaim (K.view desk.old) }
    ensures run { Updates url.now.path url.now.pin result (K.view desk.old) (K.view desk.new)
        (told (R.listing repo.old) (R.files repo.old) (R.faults repo.old) (R.fetches repo.old))
        (told (R.listing repo.new) (R.files repo.new) (R.faults repo.new) (R.fetches repo.new)) }
    ensures images { IsFilledBy (K.firm desk.old) (K.view desk.old) (K.view desk.new) result }
    ensures firm { K.firm desk.old ↔ K.firm desk.new }
{
    match resolve(rt, alloc, desk, repo, url) {
        ResolveReply::Resolved(dir) => {
            let reply = update_from(rt, alloc, desk, repo, dir);
            close(desk, dir);
            reply
        }
        refused => refusal_of(refused),
    }
}

// Updates to the system of the open package.
fn update_from<W: Wait, K: Desk, R: Repo>(
    rt: &W,
    alloc: Global,
    desk: &mut K,
    repo: &mut R,
    dir: Dir,
) -> UpdateReply
    requires { HoldsAt (Reading dir NothingRead) (K.view desk.old) }
    ensures goes { Goes (Reading dir NothingRead) (closed dir result)
        (K.view desk.old) (K.view desk.new)
        (told (R.listing repo.old) (R.files repo.old) (R.faults repo.old) (R.fetches repo.old))
        (told (R.listing repo.new) (R.files repo.new) (R.faults repo.new) (R.fetches repo.new))
        (K.firm desk.old) (K.firm desk.new) }
    ensures images { IsFilledBy (K.firm desk.old) (K.view desk.old) (K.view desk.new) result }
{
    match read_plan(alloc, desk, dir) {
        Ok(plan) => take_slot(rt, alloc, desk, repo, plan),
        Err(reply) => reply,
    }
}

// Takes the slot, fills it, and leaves the stage.
fn take_slot<W: Wait, K: Desk, R: Repo>(
    rt: &W,
    alloc: Global,
    desk: &mut K,
    repo: &mut R,
    plan: Plan,
) -> UpdateReply
    requires few { length plan.packages ≤ ENTRY_LIMIT }
    requires at { IsStaging plan (K.view desk.old) }
    ensures goes { (dir : DirOf) → HoldsAt (Staging dir plan) (K.view desk.old)
        → Goes (Staging dir plan) (closed dir result)
        (K.view desk.old) (K.view desk.new)
        (told (R.listing repo.old) (R.files repo.old) (R.faults repo.old) (R.fetches repo.old))
        (told (R.listing repo.new) (R.files repo.new) (R.faults repo.new) (R.fetches repo.new))
        (K.firm desk.old) (K.firm desk.new) }
    ensures images { (dir : DirOf) → HoldsAt (Staging dir plan) (K.view desk.old)
        → TellsOf (K.firm desk.old) (K.view desk.old) (K.view desk.new) plan.images result }
{
    match stage(desk, plan.epoch) {
        Ok(()) => {
            let reply = install(rt, alloc, desk, repo, plan);
            leave(desk);
            reply
        }
        Err(reply) => reply,
    }
}

// Fills the slot, seals it, and makes it the one that boots next.
fn install<W: Wait, K: Desk, R: Repo>(
    rt: &W,
    alloc: Global,
    desk: &mut K,
    repo: &mut R,
    plan: Plan,
) -> UpdateReply
    requires few { length plan.packages ≤ ENTRY_LIMIT }
    requires at { IsRetaining plan (K.view desk.old) }
    ensures goes { (dir : DirOf) → HoldsAt (Retaining dir plan) (K.view desk.old)
        → Goes (Retaining dir plan) (left dir result)
        (K.view desk.old) (K.view desk.new)
        (told (R.listing repo.old) (R.files repo.old) (R.faults repo.old) (R.fetches repo.old))
        (told (R.listing repo.new) (R.files repo.new) (R.faults repo.new) (R.fetches repo.new))
        (K.firm desk.old) (K.firm desk.new) }
    ensures images { (dir : DirOf) → HoldsAt (Retaining dir plan) (K.view desk.old)
        → K.kept desk.old (Image kinds.Zbi) [] → K.kept desk.old (Image kinds.Vbmeta) []
        → TellsOf (K.firm desk.old) (K.view desk.old) (K.view desk.new) plan.images result }
{
    match fill_slot(rt, alloc, desk, repo, plan) {
        Ok(()) => activate(desk),
        Err(reply) => reply,
    }
}

// Retains the packages, resolves them, fills the images and seals the slot.
fn fill_slot<W: Wait, K: Desk, R: Repo>(
    rt: &W,
    alloc: Global,
    desk: &mut K,
    repo: &mut R,
    plan: Plan,
) -> Result<(), UpdateReply>
    requires few { length plan.packages ≤ ENTRY_LIMIT }
    requires at { IsRetaining plan (K.view desk.old) }
    ensures goes { (dir : DirOf) → HoldsAt (Retaining dir plan) (K.view desk.old)
        → Goes (Retaining dir plan) (or_left (λ done. Activating dir (sys_of plan)) dir result)
        (K.view desk.old) (K.view desk.new)
        (told (R.listing repo.old) (R.files repo.old) (R.faults repo.old) (R.fetches repo.old))
        (told (R.listing repo.new) (R.files repo.new) (R.faults repo.new) (R.fetches repo.new))
        (K.firm desk.old) (K.firm desk.new) }
    ensures images { (dir : DirOf) → HoldsAt (Retaining dir plan) (K.view desk.old)
        → K.kept desk.old (Image kinds.Zbi) [] → K.kept desk.old (Image kinds.Vbmeta) []
        → SlotOf (K.firm desk.old) (K.view desk.old) (K.view desk.new) plan.images result }
{
    let sys = sys_of(&plan);
    let Plan {
        packages,
        images,
        ..
    } = plan;
    retain(alloc, desk, packages.as_slice())?;
    fetch_all(rt, alloc, desk, repo, packages.as_slice())?;
    fill_all(rt, alloc, desk, repo, images)?;
    seal(desk, &sys)
}
