//! What is served in recovery.

use crate::scene::{resolve_in, scene_at, update_in};
use crate::stores::recovering_store;
use package_shop::Shop;
use resolver::ResolveReply;
use script_lang::text_of;
use std::test::Fail;
use system_updater::UpdateReply;

// Recovery has no packages, whatever the repository lists: a resolve ends at its first call, and an update with it.
#[test]
fn recovery_resolves_nothing(rt: HostRuntime) -> Result<(), Fail> {
    let alloc = rt.alloc();
    let mut shop = Shop::new(alloc);
    let _ = shop.package_of(b"example", b"data/a", b"hi")?;
    let store = recovering_store(alloc)?;
    let mut scene = scene_at(alloc, store, shop, &[], b"fuchsia-pkg://a/example")?;
    let reply = resolve_in(&rt, alloc, &mut scene);
    assert!(rt; reply == ResolveReply::InRecovery);
    let reply = update_in(&rt, alloc, &mut scene);
    assert!(rt; reply == UpdateReply::Resolve(ResolveReply::InRecovery));
    let text = text_of(alloc, &scene.store.into_history())?;
    let want = b"1 0 boot R\n2 1 begin example/0 in-recovery\n3 1 begin example/0 in-recovery\n";
    assert!(rt; text.as_slice() == want.as_slice());
    Ok(())
}
