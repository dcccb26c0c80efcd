//! A store, a repository and the URL of a package, and what lane 1 does there.

ghost use Rattle.std.specs.Prelude.{◌≡◌, [], None, IfOk};
ghost use Rattle.store_model.specs.Holding.{held};
ghost use Rattle.store_model.specs.History.{of_lane};
ghost use Rattle.script_server.specs.Lanes.{AreFresh};

use crate::stores::base_store;
use package_shop::Shop;
use package_url::{Url, read_url};
use plain_desk::{Lane, Store};
use repo_source::MemRepo;
use resolver::{ResolveReply, resolve};
use std::alloc::Global;
use std::sync::Wait;
use std::test::Fail;
use system_updater::{UpdateReply, update};

#[derive(Drop)]
pub(crate) struct Scene {
    pub(crate) store: Store,
    pub(crate) repo: MemRepo,
    pub(crate) url: Url,
}

// The store runs a system of epoch 1 with an empty list. The repository is the shop's, and its calls with these numbers
// fail.
pub(crate) fn make_scene(
    alloc: Global,
    shop: Shop,
    failing: &[u64],
    url: &[u8],
) -> Result<Scene, Fail>
    ensures fresh { IfOk result (λ scene. of_lane 1 scene.store.history ≡ []) }
    ensures other { IfOk result (λ scene. of_lane 2 scene.store.history ≡ []) }
    ensures no_file { IfOk result (λ scene. scene.url.file ≡ None) }
{
    scene_at(alloc, base_store(alloc)?, shop, failing, url)
}

// The same at another store.
pub(crate) fn scene_at(
    alloc: Global,
    store: Store,
    shop: Shop,
    failing: &[u64],
    url: &[u8],
) -> Result<Scene, Fail>
    requires fresh { AreFresh 0 store.history }
    ensures fresh { IfOk result (λ scene. of_lane 1 scene.store.history ≡ []) }
    ensures other { IfOk result (λ scene. of_lane 2 scene.store.history ≡ []) }
    ensures no_file { IfOk result (λ scene. scene.url.file ≡ None) }
{
    let repo = shop.into_repo(failing.to_vec(alloc)?);
    let url = read_url(alloc, url)?;
    if url.file.is_some() {
        return Err(Fail::new("a file"));
    }
    Ok(Scene { store, repo, url })
}

pub(crate) fn resolve_in<W: Wait>(rt: &W, alloc: Global, scene: &mut Scene) -> ResolveReply
    requires no_file { scene.old.url.file ≡ None }
    requires free { (held (of_lane 1 scene.old.store.history)).claim ≡ None }
    ensures no_file { scene.new.url.file ≡ None }
    ensures free { (held (of_lane 1 scene.new.store.history)).claim ≡ None }
{
    let Scene { store, repo, url } = scene;
    let mut desk = Lane::make(store, 1);
    resolve(rt, alloc, &mut desk, repo, url)
}

pub(crate) fn update_in<W: Wait>(rt: &W, alloc: Global, scene: &mut Scene) -> UpdateReply
    requires no_file { scene.old.url.file ≡ None }
    requires free { (held (of_lane 1 scene.old.store.history)).claim ≡ None }
    ensures no_file { scene.new.url.file ≡ None }
    ensures free { (held (of_lane 1 scene.new.store.history)).claim ≡ None }
{
    let Scene { store, repo, url } = scene;
    let mut desk = Lane::make(store, 1);
    update(rt, alloc, &mut desk, repo, url)
}
