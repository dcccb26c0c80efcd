//! Updates of one lane, each by its last events. The store runs a system of epoch 1 with an empty list.

ghost use Rattle.plain_desk.specs.Stores.{LeavesOthers};

use crate::memory::is_served;
use crate::scene::{make_scene, update_in};
use crate::stores::sum_of;
use abr_record::Slot;
use package_shop::{Shop, with_roots};
use pkg_names::{Bytes, Root};
use plain_desk::{Lane, Store};
use script_lang::text_of;
use std::alloc::Global;
use std::sync::Wait;
use std::test::Fail;
use store_model::{Desk, StageReply};
use system_updater::UpdateReply;

const UPDATE: &[u8] = b"fuchsia-pkg://a/update";

// How the history of an update ends that is staged.
const STAGED: &[u8] = b"32 1 close 31 closed
33 1 seal sealed
34 1 activate active B
35 1 leave-stage
36 1 close 15 closed
";

const EPOCH: &[u8] = b"{\"version\":\"1\",\"epoch\":2}";

const PACKAGES: &[u8] =
    b"{\"version\":\"1\",\"content\":[\"fuchsia-pkg://a/system_image?hash=$0\"]}";

// The sum of the zbi stands in place of `$2`, as a root.
const IMAGES: &[u8] =
    b"{\"version\":\"1\",\"contents\":{\"partitions\":[{\"slot\":\"fuchsia\",\"type\":\"zbi\",\
\"size\":5,\"hash\":\"$2\",\"url\":\"fuchsia-pkg://a/images?hash=$1#zbi\"}]}}";

// Another sum: the digits of the root of the images.
const OTHER_SUM: &[u8] =
    b"{\"version\":\"1\",\"contents\":{\"partitions\":[{\"slot\":\"fuchsia\",\"type\":\"zbi\",\
\"size\":5,\"hash\":\"$1\",\"url\":\"fuchsia-pkg://a/images?hash=$1#zbi\"}]}}";

// A zbi of 65,537 bytes, each of them `z`, and a vbmeta. Their sums are those that sha256sum gives.
const BOTH: &[u8] =
    b"{\"version\":\"1\",\"contents\":{\"partitions\":[{\"slot\":\"fuchsia\",\"type\":\"zbi\",\
\"size\":65537,\"hash\":\"810c37bb91b70d110564f7739f88b79f6e2ad5b9553d5a7a8119bf3a376e87f9\",\
\"url\":\"fuchsia-pkg://a/images?hash=$1#zbi\"},{\"slot\":\"fuchsia\",\"type\":\"vbmeta\",\
\"size\":2,\"hash\":\"88d2f47e5eec541d907a3951ea1586732930d4a84510624b48c5e259c51d139b\",\
\"url\":\"fuchsia-pkg://a/images?hash=$1#vbmeta\"}]}}";

// How the history of an update to them ends. The package of both is resolved for each. The roots of the two files were
// computed by another program.
const STAGED_BOTH: &[u8] = b"24 1 begin images/0 ticket $1
25 1 want 24 fetch $1
26 1 room $1 made 12288
27 1 land $1 landed 12288
28 1 want 24 fetch 2b73b2dff420e09c179bde785b71f9c4d19398ad003066ef62053bbc7e006d63
29 1 room 2b73b2dff420e09c179bde785b71f9c4d19398ad003066ef62053bbc7e006d63 made 2
30 1 land 2b73b2dff420e09c179bde785b71f9c4d19398ad003066ef62053bbc7e006d63 landed 2
31 1 want 24 fetch d901c633723ae494940d2f6af064df4180e021fac944acb75e8def505a10b254
32 1 room d901c633723ae494940d2f6af064df4180e021fac944acb75e8def505a10b254 made 65537
33 1 land d901c633723ae494940d2f6af064df4180e021fac944acb75e8def505a10b254 landed 65537
34 1 want 24 opened
35 1 close 34 closed
36 1 begin images/0 ticket $1
37 1 want 36 opened
38 1 close 37 closed
39 1 seal sealed
40 1 activate active B
41 1 leave-stage
42 1 close 15 closed
";

// The list of the system, the manifests of the update package (some have no epoch), its images (some have no vbmeta),
// and how the history of an update ends.
#[derive(Clone, Copy)]
struct Case<'a> {
    list: &'a [u8],
    epoch: Option<&'a [u8]>,
    packages: &'a [u8],
    images: &'a [u8],
    zbi: &'a [u8],
    vbmeta: Option<&'a [u8]>,
    end: &'a [u8],
}

// The shop with a system, its images, and the update package. Its roots: the system, the images, the sum of the zbi as
// a root, and the update package.
fn shop_of(alloc: Global, case: &Case) -> Result<(Shop, [Root; 4]), Fail> {
    let mut shop = Shop::new(alloc);
    let system = shop.package_of(b"system_image", b"data/static_packages", case.list)?;
    let images = add_images(alloc, &mut shop, case)?;
    let roots = [system, images, Root(sum_of(case.zbi).sha)];
    let mut lines = Vec::new(alloc);
    if let Some(epoch) = case.epoch {
        shop.line(&mut lines, b"epoch.json", epoch)?;
    }
    shop.line(
        &mut lines,
        b"images.json",
        &with_roots(alloc, case.images, &roots)?,
    )?;
    shop.line(
        &mut lines,
        b"packages.json",
        &with_roots(alloc, case.packages, &roots)?,
    )?;
    let update = shop.package(b"update", lines)?;
    Ok((shop, [system, images, roots[2], update]))
}

// Adds the package of the images.
fn add_images(alloc: Global, shop: &mut Shop, case: &Case) -> Result<Root, Fail> {
    let mut lines = Vec::new(alloc);
    if let Some(vbmeta) = case.vbmeta {
        shop.line(&mut lines, b"vbmeta", vbmeta)?;
    }
    shop.line(&mut lines, b"zbi", case.zbi)?;
    shop.package(b"images", lines)
}

// The shop of an update to the system of an empty list.
fn shop_of_update(alloc: Global) -> Result<Shop, Fail> {
    let case = good(b"", b"");
    Ok(shop_of(alloc, &case)?.0)
}

// The history of an update on lane 1 from this shop.
fn history_of<W: Wait>(rt: &W, alloc: Global, shop: Shop) -> Result<Bytes, Fail> {
    let mut scene = make_scene(alloc, shop, &[], UPDATE)?;
    update_in(rt, alloc, &mut scene);
    Ok(text_of(alloc, &scene.store.into_history())?)
}

// With good manifests.
fn good<'a>(list: &'a [u8], end: &'a [u8]) -> Case<'a> {
    Case {
        list,
        epoch: Some(EPOCH),
        packages: PACKAGES,
        images: IMAGES,
        zbi: b"zbi-1",
        vbmeta: None,
        end,
    }
}

// With the list of the running system, and one manifest in place of a good one.
fn with_epoch<'a>(epoch: Option<&'a [u8]>, end: &'a [u8]) -> Case<'a> {
    Case {
        epoch,
        ..good(b"", end)
    }
}

fn with_packages<'a>(packages: &'a [u8], end: &'a [u8]) -> Case<'a> {
    Case {
        packages,
        ..good(b"", end)
    }
}

fn with_images<'a>(images: &'a [u8], end: &'a [u8]) -> Case<'a> {
    Case {
        images,
        ..good(b"", end)
    }
}

// So does the history of an update end.
fn ends_so<W: Wait>(rt: &W, alloc: Global, case: &Case) -> Result<bool, Fail> {
    let (shop, roots) = shop_of(alloc, case)?;
    let text = history_of(rt, alloc, shop)?;
    Ok(
        text.as_slice()
            .ends_with(&with_roots(alloc, case.end, &roots)?),
    )
}

// With the list of the running system: the package that is resolved is there. The images are fetched, copied without
// an event, and closed. Where an allocation of the update fails, the reply is want of memory, and the update is served
// when it is asked for again. Where one before it fails, so does the set-up; behind it there is no text.
#[test]
fn an_update_is_staged(rt: HostRuntime) -> Result<(), Fail> {
    let alloc = rt.alloc();
    let mut scene = make_scene(alloc, shop_of_update(alloc)?, &[], UPDATE)?;
    let mut reply = update_in(&rt, alloc, &mut scene);
    let starved = reply == UpdateReply::NoMemory;
    if starved {
        println!(rt; "starved")?;
        reply = update_in(&rt, alloc, &mut scene);
    }
    assert!(rt; reply == UpdateReply::Staged { slot: Slot::B });
    let history = scene.store.into_history();
    assert!(rt; is_served(alloc, &history, starved, 0, STAGED)?);
    Ok(())
}

// The zbi is one byte longer than a part that is copied at once.
#[test]
fn two_images_are_staged(rt: HostRuntime) -> Result<(), Fail> {
    let alloc = rt.alloc();
    let zbi = vec![in alloc; b'z'; 65_537]?;
    let case = Case {
        zbi: &zbi,
        vbmeta: Some(b"vb"),
        ..with_images(BOTH, STAGED_BOTH)
    };
    assert!(rt; ends_so(&rt, alloc, &case)?);
    Ok(())
}

// A manifest that is bad, or of an older system. Without an epoch it is 0.
#[test]
fn bad_manifests(rt: HostRuntime) -> Result<(), Fail> {
    let alloc = rt.alloc();
    let epoch = with_epoch(
        Some(b"x"),
        b"17 1 reject epoch.json\n18 1 close 15 closed\n",
    );
    assert!(rt; ends_so(&rt, alloc, &epoch)?);
    let packages = with_packages(
        b"{\"version\":\"2\",\"content\":[]}",
        b"18 1 reject packages.json\n19 1 close 15 closed\n",
    );
    assert!(rt; ends_so(&rt, alloc, &packages)?);
    let images = with_images(
        b"{\"version\":1,\"contents\":{\"partitions\":[]}}",
        b"19 1 reject images.json\n20 1 close 15 closed\n",
    );
    assert!(rt; ends_so(&rt, alloc, &images)?);
    let older = with_epoch(
        Some(b"{\"version\":\"1\",\"epoch\":0}"),
        b"19 1 stage 0 older 1\n20 1 close 15 closed\n",
    );
    assert!(rt; ends_so(&rt, alloc, &older)?);
    let missing = with_epoch(None, b"16 1 stage 0 older 1\n17 1 close 12 closed\n");
    assert!(rt; ends_so(&rt, alloc, &missing)?);
    Ok(())
}

// The manifest has another sum than the file; a base package isn't listed; the list is none. The last two systems are
// new, so their package and their list are fetched.
#[test]
fn bad_systems(rt: HostRuntime) -> Result<(), Fail> {
    let alloc = rt.alloc();
    let differs = with_images(
        OTHER_SUM,
        b"33 1 seal differs zbi 5 $2\n34 1 leave-stage\n35 1 close 15 closed\n",
    );
    assert!(rt; ends_so(&rt, alloc, &differs)?);
    let missing = good(
        b"base/0=1111111111111111111111111111111111111111111111111111111111111111\n",
        b"39 1 seal sealed
40 1 activate base-missing 1111111111111111111111111111111111111111111111111111111111111111
41 1 leave-stage
42 1 close 15 closed
",
    );
    assert!(rt; ends_so(&rt, alloc, &missing)?);
    let none = good(
        b"x",
        b"40 1 activate not-a-system\n41 1 leave-stage\n42 1 close 15 closed\n",
    );
    assert!(rt; ends_so(&rt, alloc, &none)?);
    Ok(())
}

// The repository lacks the package of the images, so the slot is left.
#[test]
fn images_are_absent(rt: HostRuntime) -> Result<(), Fail> {
    let alloc = rt.alloc();
    let case = good(b"", b"");
    let (shop, roots) = shop_of(alloc, &case)?;
    let text = history_of(&rt, alloc, shop.without(roots[1]))?;
    let end = b"24 1 begin images/0 ticket $1
25 1 want 24 fetch $1
26 1 miss $1 absent
27 1 want 24 failed absent
28 1 leave-stage
29 1 close 15 closed
";
    assert!(rt; text.as_slice().ends_with(&with_roots(alloc, end, &roots)?));
    Ok(())
}

// Begins an update on lane 2. Whether it has its turn.
fn stage_by_another(store: &mut Store) -> bool
    ensures others { LeavesOthers 2 store.old.history store.new.history }
{
    let mut desk = Lane::make(store, 2);
    let reply = desk.stage(2);
    desk.alone();
    matches!(reply, StageReply::Turn { .. })
}

// Another lane is at its update, so this one ends, and its package is closed.
#[test]
fn another_lane_updates(rt: HostRuntime) -> Result<(), Fail> {
    let alloc = rt.alloc();
    let mut scene = make_scene(alloc, shop_of_update(alloc)?, &[], UPDATE)?;
    if !stage_by_another(&mut scene.store) {
        return Err(Fail::new("no turn"));
    }
    let reply = update_in(&rt, alloc, &mut scene);
    assert!(rt; matches!(reply, UpdateReply::Busy { lane: 2 }));
    let text = text_of(alloc, &scene.store.into_history())?;
    assert!(rt;
        text.as_slice()
            .ends_with(b"20 1 stage 2 busy 2\n21 1 close 16 closed\n")
    );
    Ok(())
}
