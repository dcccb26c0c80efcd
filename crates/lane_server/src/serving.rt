//! The requests of one lane, in order.

ghost use Rattle.std.specs.Prelude.{◌≡◌, ◌==◌, ℕ, List, [], ◌∷◌, All};
ghost use Rattle.script_lang.specs.declared.request.Ask.{Ask as AskOf};
ghost use Rattle.script_lang.specs.Servable.{IsServable};
ghost use Rattle.store_model.specs.Calls.{HoldsNoClaim};
ghost use Rattle.store_model.specs.History.{Numbered};
ghost use Rattle.system_updater.specs.Viewing.{told};
ghost use Rattle.lane_server.specs.Serving.{place_of, ServesOne, ServesTo, asks_of};
ghost use Rattle.lane_server.specs.Steps.{ServesOwn};
ghost use Rattle.lane_server.specs.Viewing.{Does};

use crate::calls::{check, close, collect, commit, open, read, retain};
use crate::names::Names;
use crate::packages::{resolve, update};
use repo_source::Repo;
use script_lang::{Ask, Request};
use std::alloc::{AllocError, Global};
use std::sync::Wait;
use store_model::Desk;

/// Serves those of the requests that are the lane's, in order: each is one call of the desk, or a resolve, or an
/// update. A name stands for the directory that the last `resolve` or `open` under it gave, until it is closed; before
/// and after that, and where the last one was refused, for the number 0. Directories that are open at the end stay
/// open.
///
/// Where memory is short, nothing more is served. What the cut request held is given up.
pub fn serve_lane<W: Wait, K: Desk, R: Repo>(
    rt: &W,
    alloc: Global,
    desk: &mut K,
    repo: &mut R,
    requests: &[Request],
    lane: u32,
) -> Result<(), AllocError>
    requires servable { All IsServable (asks_of lane requests.now) }
    requires free { HoldsNoClaim (K.view desk.old) }
    ensures { Does (ServesTo (K.firm desk.old) (place_of (K.view desk.new)) result (asks_of lane requests.now))
        (K.view desk.old) (K.view desk.new)
        (told (R.listing repo.old) (R.files repo.old) (R.faults repo.old) (R.fetches repo.old))
        (told (R.listing repo.new) (R.files repo.new) (R.faults repo.new) (R.fetches repo.new))
        (K.firm desk.old) (K.firm desk.new) }
{
    let mut names = Names::new(alloc);
    for request in requests {
        serve_own(rt, alloc, desk, repo, &mut names, request, lane)?;
    }
    Ok(())
}

// Serves a request, if it is the lane's.
fn serve_own<W: Wait, K: Desk, R: Repo>(
    rt: &W,
    alloc: Global,
    desk: &mut K,
    repo: &mut R,
    names: &mut Names,
    request: &Request,
    lane: u32,
) -> Result<(), AllocError>
    requires servable { All IsServable (asks_of lane (request.now ∷ [])) }
    requires free { HoldsNoClaim (K.view desk.old) }
    ensures { Does (λ run. ServesOwn (K.firm desk.old) (place_of (K.view desk.new)) result names.old.bindings
        (request.now.lane == lane) request.now.ask run
        names.new.bindings)
        (K.view desk.old) (K.view desk.new)
        (told (R.listing repo.old) (R.files repo.old) (R.faults repo.old) (R.fetches repo.old))
        (told (R.listing repo.new) (R.files repo.new) (R.faults repo.new) (R.fetches repo.new))
        (K.firm desk.old) (K.firm desk.new) }
{
    if request.lane != lane {
        return Ok(());
    }
    serve(rt, alloc, desk, repo, names, &request.ask)
}

// Serves one request.
fn serve<W: Wait, K: Desk, R: Repo>(
    rt: &W,
    alloc: Global,
    desk: &mut K,
    repo: &mut R,
    names: &mut Names,
    ask: &Ask,
) -> Result<(), AllocError>
    requires servable { IsServable ask.now }
    requires free { HoldsNoClaim (K.view desk.old) }
    ensures { Does (λ run. ServesOne (K.firm desk.old) (place_of (K.view desk.new)) result names.old.bindings
        ask.now run names.new.bindings)
        (K.view desk.old) (K.view desk.new)
        (told (R.listing repo.old) (R.files repo.old) (R.faults repo.old) (R.fetches repo.old))
        (told (R.listing repo.new) (R.files repo.new) (R.faults repo.new) (R.fetches repo.new))
        (K.firm desk.old) (K.firm desk.new) }
{
    match ask {
        Ask::Resolve { name, url } => resolve(rt, alloc, desk, repo, names, name, url),
        Ask::OpenPath { name, path } => open(alloc, desk, names, name, path),
        Ask::Cat { name, file } => read(desk, names, name, file),
        Ask::Check { name, file } => check(desk, names, name, file),
        Ask::Close { name } => close(desk, names, name),
        Ask::Collect => collect(desk, names),
        Ask::Retain { roots } => retain(desk, names, roots.as_slice()),
        Ask::Update { url } => update(rt, alloc, desk, repo, names, url),
        Ask::Commit => commit(desk, names),
    }
}
