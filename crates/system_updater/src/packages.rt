//! The packages of the next system: they are retained, and then each is resolved.

ghost use Rattle.std.specs.Prelude.{◌≡◌, ◌≤◌, ◌∷◌, [], List, length, IfOk, Some, None};
ghost use Rattle.pkg_names.specs.declared.pinned.Pinned.{Pinned as PinnedOf};
ghost use Rattle.system_lists.specs.declared.list.TheConstants.{ENTRY_LIMIT};
ghost use Rattle.store_model.specs.declared.replies.Dir.{Dir as DirOf};
ghost use Rattle.store_model.specs.Calls.{HoldsNoClaim};
ghost use Rattle.store_model.specs.Desk.{KeepsImages};
ghost use Rattle.system_updater.specs.declared.plan.Plan.{Plan as PlanOf};
ghost use Rattle.system_updater.specs.Plan.{roots_of};
ghost use Rattle.system_updater.specs.Serving.Point.{Retaining, Fetching};
ghost use Rattle.system_updater.specs.Holding.{HoldsAt};
ghost use Rattle.system_updater.specs.Viewing.{Told, told};
ghost use Rattle.system_updater.specs.Filled.{OrEarly};
ghost use Rattle.system_updater.specs.Steps.{Goes, or_left, IsFetching};

use crate::closing::close;
use crate::reply::{UpdateReply, refusal_of};
use package_url::Url;
use pkg_names::{PackagePath, Pinned, Root, Texts};
use repo_source::Repo;
use resolver::{ResolveReply, resolve};
use std::alloc::{AllocError, Global};
use std::sync::Wait;
use store_model::{Desk, RetainReply};

// Retains the packages, and no others.
pub(crate) fn retain<K: Desk>(
    alloc: Global,
    desk: &mut K,
    packages: &[Pinned],
) -> Result<(), UpdateReply>
    requires { length packages.now ≤ ENTRY_LIMIT }
    ensures goes { (dir : DirOf) (plan : PlanOf) (repo : Told) → plan.packages ≡ packages.now
        → Goes (Retaining dir plan) (or_left (λ done. Fetching dir plan plan.packages) dir result)
        (K.view desk.old) (K.view desk.new) repo repo (K.firm desk.old) (K.firm desk.new) }
    ensures images { OrEarly (λ done. KeepsImages (K.kept desk.old) (K.kept desk.new)) result }
{
    let Ok(roots) = roots_of(alloc, packages) else {
        return Err(UpdateReply::NoMemory);
    };
    match desk.retain(&roots) {
        RetainReply::Done => Ok(()),
        RetainReply::SlotInUse => Err(UpdateReply::SlotInUse),
        RetainReply::DiskRead => Err(UpdateReply::DiskRead),
        RetainReply::Rotten { root, got } => Err(UpdateReply::Rotten { root, got }),
        RetainReply::Broken { number } => Err(UpdateReply::Broken { number }),
        RetainReply::NoMemory => Err(UpdateReply::NoMemory),
    }
}

fn roots_of(alloc: Global, packages: &[Pinned]) -> Result<Vec<Root>, AllocError>
    ensures { IfOk result (λ roots. roots.items ≡ roots_of packages.now) }
{
    packages.iter().map(|pinned| pinned.root).collect(alloc)
}

// Resolves each of the packages, in order.
pub(crate) fn fetch_all<W: Wait, K: Desk, R: Repo>(
    rt: &W,
    alloc: Global,
    desk: &mut K,
    repo: &mut R,
    packages: &[Pinned],
) -> Result<(), UpdateReply>
    requires { IsFetching packages.now (K.view desk.old) }
    ensures goes { (dir : DirOf) (plan : PlanOf) → HoldsAt (Fetching dir plan packages.now) (K.view desk.old)
        → Goes (Fetching dir plan packages.now) (or_left (λ done. Fetching dir plan []) dir result)
        (K.view desk.old) (K.view desk.new)
        (told (R.listing repo.old) (R.files repo.old) (R.faults repo.old) (R.fetches repo.old))
        (told (R.listing repo.new) (R.files repo.new) (R.faults repo.new) (R.fetches repo.new))
        (K.firm desk.old) (K.firm desk.new) }
    ensures images { OrEarly (λ done. KeepsImages (K.kept desk.old) (K.kept desk.new)) result }
{
    for pinned in packages {
        fetch(rt, alloc, desk, repo, pinned)?;
    }
    Ok(())
}

// Resolves one package, and closes it.
fn fetch<W: Wait, K: Desk, R: Repo>(
    rt: &W,
    alloc: Global,
    desk: &mut K,
    repo: &mut R,
    pinned: &Pinned,
) -> Result<(), UpdateReply>
    requires { HoldsNoClaim (K.view desk.old) }
    ensures goes { (dir : DirOf) (plan : PlanOf) (later : List PinnedOf)
        → HoldsAt (Fetching dir plan (pinned.now ∷ later)) (K.view desk.old)
        → Goes (Fetching dir plan (pinned.now ∷ later)) (or_left (λ done. Fetching dir plan later) dir result)
        (K.view desk.old) (K.view desk.new)
        (told (R.listing repo.old) (R.files repo.old) (R.faults repo.old) (R.fetches repo.old))
        (told (R.listing repo.new) (R.files repo.new) (R.faults repo.new) (R.fetches repo.new))
        (K.firm desk.old) (K.firm desk.new) }
    ensures images { OrEarly (λ done. KeepsImages (K.kept desk.old) (K.kept desk.new)) result }
{
    let Ok(path) = pinned.path.try_copy(alloc) else {
        return Err(UpdateReply::NoMemory);
    };
    let url = pinned_url(alloc, path, pinned.root);
    match resolve(rt, alloc, desk, repo, &url) {
        ResolveReply::Resolved(from) => {
            close(desk, from);
            Ok(())
        }
        refused => Err(refusal_of(refused)),
    }
}

// The URL of a package, without its host: the repository is known.
fn pinned_url(alloc: Global, path: PackagePath, root: Root) -> Url
    ensures path { result.path ≡ path }
    ensures pin { result.pin ≡ Some root }
    ensures file { result.file ≡ None }
{
    Url {
        host: Texts::make(String::new(alloc)),
        path,
        pin: Some(root),
        file: None,
    }
}
