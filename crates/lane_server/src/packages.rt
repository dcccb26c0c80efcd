//! Requests that ask the repository: resolves and updates.

ghost use Rattle.std.specs.Prelude.{◌≡◌, None};
ghost use Rattle.script_lang.specs.declared.request.Ask.TheVariants as asks;
ghost use Rattle.store_model.specs.Calls.{HoldsNoClaim};
ghost use Rattle.system_updater.specs.Viewing.{told};
ghost use Rattle.lane_server.specs.Serving.{place_of, ServesOne};
ghost use Rattle.lane_server.specs.Viewing.{Does};

use crate::names::Names;
use package_url::Url;
use pkg_names::Texts;
use repo_source::Repo;
use resolver::ResolveReply;
use std::alloc::{AllocError, Global};
use std::sync::Wait;
use store_model::Desk;
use system_updater::UpdateReply;

// Resolves a package, and binds the name to its directory. The room for the name is made first, so that no directory
// is opened for which there is no name.
pub(crate) fn resolve<W: Wait, K: Desk, R: Repo>(
    rt: &W,
    alloc: Global,
    desk: &mut K,
    repo: &mut R,
    names: &mut Names,
    name: &Texts,
    url: &Url,
) -> Result<(), AllocError>
    requires no_file { url.now.file ≡ None }
    requires free { HoldsNoClaim (K.view desk.old) }
    ensures { Does (λ run. ServesOne (K.firm desk.old) (place_of (K.view desk.new)) result names.old.bindings
        (asks.Resolve name.now url.now) run names.new.bindings)
        (K.view desk.old) (K.view desk.new)
        (told (R.listing repo.old) (R.files repo.old) (R.faults repo.old) (R.fetches repo.old))
        (told (R.listing repo.new) (R.files repo.new) (R.faults repo.new) (R.fetches repo.new))
        (K.firm desk.old) (K.firm desk.new) }
{
    let Ok(copy) = names.reserve(alloc, name) else {
        return Err(AllocError);
    };
    match resolver::resolve(rt, alloc, desk, repo, url) {
        ResolveReply::Resolved(dir) => {
            names.bind(copy, dir);
            Ok(())
        }
        ResolveReply::NoMemory => Err(AllocError),
        _ => Ok(()),
    }
}

// Updates to the system of a package.
pub(crate) fn update<W: Wait, K: Desk, R: Repo>(
    rt: &W,
    alloc: Global,
    desk: &mut K,
    repo: &mut R,
    names: &Names,
    url: &Url,
) -> Result<(), AllocError>
    requires no_file { url.now.file ≡ None }
    requires free { HoldsNoClaim (K.view desk.old) }
    ensures { Does (λ run. ServesOne (K.firm desk.old) (place_of (K.view desk.new)) result names.now.bindings
        (asks.Update url.now) run names.now.bindings)
        (K.view desk.old) (K.view desk.new)
        (told (R.listing repo.old) (R.files repo.old) (R.faults repo.old) (R.fetches repo.old))
        (told (R.listing repo.new) (R.files repo.new) (R.faults repo.new) (R.fetches repo.new))
        (K.firm desk.old) (K.firm desk.new) }
{
    match system_updater::update(rt, alloc, desk, repo, url) {
        UpdateReply::NoMemory => Err(AllocError),
        _ => Ok(()),
    }
}
