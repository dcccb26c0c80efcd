//! Which root a resolve brings, of those that the system's lists and the repository have for a path.

use crate::scene::{resolve_in, scene_at};
use crate::stores::store_of;
use package_shop::{Shop, push_line, with_roots};
use pkg_names::Root;
use script_lang::text_of;
use std::alloc::Global;
use std::test::Fail;

const CACHED: &[u8] = b"{\"version\":\"1\",\"content\":[\"fuchsia-pkg://a/kept?hash=$0\"]}";

const BASED: &[u8] = b"fuchsia-pkg://a/based";

const KEPT: &[u8] = b"fuchsia-pkg://a/kept";

// The blobs of a system with a base package and a cached one. The roots of the system, the base and the cached package.
fn listed(alloc: Global) -> Result<(Shop, [Root; 3]), Fail> {
    let mut shop = Shop::new(alloc);
    let based = shop.package_of(b"based", b"data/a", b"hi")?;
    let kept = shop.package_of(b"kept", b"data/a", b"hi")?;
    let mut list = Vec::new(alloc);
    push_line(&mut list, b"based/0", &based)?;
    let cached = with_roots(alloc, CACHED, &[kept])?;
    let mut lines = Vec::new(alloc);
    shop.line(&mut lines, b"data/cache_packages.json", &cached)?;
    shop.line(&mut lines, b"data/static_packages", &list)?;
    let system = shop.package(b"system_image", lines)?;
    Ok((shop, [system, based, kept]))
}

// What the repository lists under both paths: other packages, of a file that the store has. Their roots.
fn others(alloc: Global) -> Result<(Shop, [Root; 2]), Fail> {
    let mut shop = Shop::new(alloc);
    let based = shop.package_of(b"based", b"data/b", b"hi")?;
    let kept = shop.package_of(b"kept", b"data/b", b"hi")?;
    Ok((shop, [based, kept]))
}

// The package of the base comes before the one that is listed, which comes before the cached one. Where the listing
// can't be had, the cached one is there.
#[test]
fn which_root_is_resolved(rt: HostRuntime) -> Result<(), Fail> {
    let alloc = rt.alloc();
    let cases: [(&[u8], &[u64], &[u8]); 3] = [
        (
            BASED,
            &[],
            b"1 0 boot A\n2 1 begin based/0 ticket $1\n3 1 want 2 opened\n",
        ),
        (
            KEPT,
            &[],
            b"1 0 boot A
2 1 begin kept/0 ticket $4
3 1 want 2 fetch $4
4 1 room $4 made 12288
5 1 land $4 landed 12288
6 1 want 2 opened
",
        ),
        (
            KEPT,
            &[1],
            b"1 0 boot A\n2 1 begin kept/0 ticket $2\n3 1 want 2 opened\n",
        ),
    ];
    for (url, failing, want) in cases.iter() {
        let (stored, [system, based, kept]) = listed(alloc)?;
        let (shop, other) = others(alloc)?;
        let store = store_of(alloc, stored.files(), system)?;
        let mut scene = scene_at(alloc, store, shop, failing, url)?;
        resolve_in(&rt, alloc, &mut scene);
        let text = text_of(alloc, &scene.store.into_history())?;
        let roots = [system, based, kept, other[0], other[1]];
        assert!(rt; text.as_slice() == with_roots(alloc, want, &roots)?.as_slice());
    }
    Ok(())
}
