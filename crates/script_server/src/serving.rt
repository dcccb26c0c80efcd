//! A script's lanes at a new store.

ghost use Rattle.std.specs.Prelude.{◌≡◌, ◌<◌, ◌≤◌, ℕ, List, Option, length, map, All, IfSome, IfOk, OnErr};
ghost use Rattle.script_lang.specs.Scripts.{IsScript, IsGreatestLane};
ghost use Rattle.script_lang.specs.Servable.{IsServable};
ghost use Rattle.script_lang.specs.declared.request.Request.{Request as RequestOf};
ghost use Rattle.system_updater.specs.Viewing.{told};
ghost use Rattle.script_server.specs.Serving.{ServesScript};

use crate::lanes::serve_lanes;
use first_store::start_store;
use repo_source::Repo;
use script_lang::Request;
use std::alloc::{AllocError, Global};
use std::sync::Wait;
use store_model::Event;

/// Serves the requests of a script: those of lane 1 in order, each to its end, at a new store, then those of lane 2,
/// and so on up to the script's greatest lane. Lane n has the repository at place n - 1.
///
/// Gives the history, and whether memory was short for a lane. Such a lane is served no further; the lanes behind it
/// are. Where memory is short for the store, nothing is served.
pub fn serve_script<T: Wait, R: Repo>(
    rt: &T,
    alloc: Global,
    repos: &mut [R],
    requests: &[Request],
    lanes: u32,
) -> Result<(Vec<Event>, bool), AllocError>
    requires servable { All (λ (r : RequestOf). IsServable r.ask) requests.now }
    requires enough { lanes ≤ length repos.old }
    requires greatest { IsGreatestLane requests.now lanes }
    ensures served { IfOk result (λ ended. (text : Option (List ℕ)) → IfSome text (λ bytes. IsScript bytes requests.now)
        → ServesScript text ended.1 ended.0.items
        (map (λ (r : R). told (R.listing r) (R.files r) (R.faults r) (R.fetches r)) repos.old)
        (map (λ (r : R). told (R.listing r) (R.files r) (R.faults r) (R.fetches r)) repos.new)) }
    ensures begun { IfOk result (λ ended. 0 < length ended.0.items) }
    ensures unasked { OnErr result (repos.new ≡ repos.old) }
{
    let mut store = start_store(alloc)?;
    let starved = serve_lanes(rt, alloc, &mut store, repos, requests, lanes);
    Ok((store.into_history(), starved))
}
