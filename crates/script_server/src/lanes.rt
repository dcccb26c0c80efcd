//! The lanes of a script, one after the other, at a store in memory.

ghost use Rattle.std.specs.Prelude.{◌≡◌, ◌+◌, ◌<◌, ◌≤◌, ◌^◌, List, [], ◌++◌, length, map, All};
ghost use Rattle.script_lang.specs.Servable.{IsServable};
ghost use Rattle.script_lang.specs.declared.request.Request.{Request as RequestOf};
ghost use Rattle.store_model.specs.declared.events.Event.{Event as EventOf};
ghost use Rattle.store_model.specs.History.{of_lane};
ghost use Rattle.system_updater.specs.Viewing.{told};
ghost use Rattle.plain_desk.specs.Stores.{LeavesOthers};
ghost use Rattle.script_server.specs.Lanes.{AreFresh, IsServed, ServesLanes, place_at};

use lane_server::serve_lane;
use plain_desk::{Lane, Store};
use repo_source::Repo;
use script_lang::Request;
use std::alloc::Global;
use std::sync::Wait;

/// Serves the requests of so many lanes, lane after lane, from lane 1 on. Lane n has the repository at place n - 1.
///
/// Gives whether memory was short for a lane. Such a lane is served no further; the lanes behind it are.
pub fn serve_lanes<T: Wait, R: Repo>(
    rt: &T,
    alloc: Global,
    store: &mut Store,
    repos: &mut [R],
    requests: &[Request],
    lanes: u32,
) -> bool
    requires servable { All (λ (r : RequestOf). IsServable r.ask) requests.now }
    requires fresh { AreFresh 0 store.old.history }
    requires enough { lanes ≤ length repos.old }
    ensures { ServesLanes requests.now 0 lanes result
        (map (λ (r : R). told (R.listing r) (R.files r) (R.faults r) (R.fetches r)) repos.old)
        (map (λ (r : R). told (R.listing r) (R.files r) (R.faults r) (R.fetches r)) repos.new) store.old store.new }
{
    serve_behind(rt, alloc, store, repos, requests, 0, lanes)
}

// Serves so many lanes behind the first ones.
fn serve_behind<T: Wait, R: Repo>(
    rt: &T,
    alloc: Global,
    store: &mut Store,
    repos: &mut [R],
    requests: &[Request],
    before: u32,
    count: u32,
) -> bool
    requires servable { All (λ (r : RequestOf). IsServable r.ask) requests.now }
    requires fresh { AreFresh before store.old.history }
    requires enough { count ≤ length repos.old }
    requires small { before + count < 2 ^ 32 }
    ensures { ServesLanes requests.now before count result
        (map (λ (r : R). told (R.listing r) (R.files r) (R.faults r) (R.fetches r)) repos.old)
        (map (λ (r : R). told (R.listing r) (R.files r) (R.faults r) (R.fetches r)) repos.new) store.old store.new }
{
    if count == 0 {
        return false;
    }
    match repos.split_first_mut() {
        Some((repo, rest)) => {
            let cut = serve_one(rt, alloc, store, repo, requests, before + 1);
            let later = serve_behind(rt, alloc, store, rest, requests, before + 1, count - 1);
            cut || later
        }
        None => false,
    }
}

// Serves one lane. Whether memory was short for it.
fn serve_one<T: Wait, R: Repo>(
    rt: &T,
    alloc: Global,
    store: &mut Store,
    repo: &mut R,
    requests: &[Request],
    lane: u32,
) -> bool
    requires servable { All (λ (r : RequestOf). IsServable r.ask) requests.now }
    requires fresh { of_lane lane store.old.history ≡ [] }
    ensures served { IsServed requests.now (place_at store.new.origin store.new.history lane) result
        (told (R.listing repo.old) (R.files repo.old) (R.faults repo.old) (R.fetches repo.old))
        (told (R.listing repo.new) (R.files repo.new) (R.faults repo.new) (R.fetches repo.new))
        (of_lane lane store.new.history) }
    ensures others { LeavesOthers lane store.old.history store.new.history }
    ensures grows { (more : List EventOf) × (store.new.history ≡ store.old.history ++ more) }
    ensures origin { store.new.origin ≡ store.old.origin }
{
    let mut desk = Lane::make(store, lane);
    let cut = serve_lane(rt, alloc, &mut desk, repo, requests, lane).is_err();
    desk.alone();
    cut
}
