//! Updates of the system, by what their runs print. The system that runs has epoch 1 and an empty list.

use crate::set_up::{has, printed};
use package_shop::{Shop, push_line, with_roots};
use pkg_names::Root;
use std::alloc::Global;
use std::test::Fail;

const EPOCH: &[u8] = b"{\"version\":\"1\",\"epoch\":2}";

/// Pins the system and its base package.
const PACKAGES: &[u8] =
    b"{\"version\":\"1\",\"content\":[\"fuchsia-pkg://fuchsia.com/system_image?hash=$0\",\
\"fuchsia-pkg://fuchsia.com/base?hash=$1\"]}";

/// The zbi of five bytes, with its length and its SHA-256.
const IMAGES: &[u8] =
    b"{\"version\":\"1\",\"contents\":{\"partitions\":[{\"slot\":\"fuchsia\",\"type\":\"zbi\",\
\"size\":5,\"hash\":\"be11a1809ac2faf6cb4ee59bc83b586e802ea4f15b2690f75767ccf8d2153e70\",\
\"url\":\"fuchsia-pkg://fuchsia.com/update-images?hash=$2#zbi\"}]}}";

// The shop with a new system of one base package, its images, and the update package with these manifests. The roots
// of its files: that of the base package, and the package; the list, and the system; the zbi, and its package; the
// epoch, the images and the packages, and the update package.
fn shop_of(
    alloc: Global,
    epoch: &[u8],
    packages: &[u8],
    images: &[u8],
) -> Result<(Shop, Vec<Root>), Fail> {
    let mut shop = Shop::new(alloc);
    let base = shop.package_of(b"base", b"bin/x", b"x")?;
    let mut list = Vec::new(alloc);
    push_line(&mut list, b"base/0", &base)?;
    let system = shop.package_of(b"system_image", b"data/static_packages", &list)?;
    let slot = shop.package_of(b"update-images", b"zbi", b"zbi-1")?;
    let named = [system, base, slot];
    let mut lines = Vec::new(alloc);
    shop.line(&mut lines, b"epoch.json", epoch)?;
    shop.line(
        &mut lines,
        b"images.json",
        &with_roots(alloc, images, &named)?,
    )?;
    shop.line(
        &mut lines,
        b"packages.json",
        &with_roots(alloc, packages, &named)?,
    )?;
    shop.package(b"update", lines)?;
    let roots = shop.files().iter().map(|file| file.root).collect(alloc)?;
    Ok((shop, roots))
}

/// The update package is fetched, and its manifests are read.
const FETCHED: &[u8] = b"1 0 boot A
2 1 begin update/0 ticket $9
3 1 want 2 fetch $9
4 1 room $9 made 12288
5 1 land $9 landed 12288
6 1 want 2 fetch $6
7 1 room $6 made 25
8 1 land $6 landed 25
9 1 want 2 fetch $7
10 1 room $7 made 280
11 1 land $7 landed 280
12 1 want 2 fetch $8
13 1 room $8 made 241
14 1 land $8 landed 241
15 1 want 2 opened
16 1 read 15 epoch.json bytes 25 7b2276657273696f6e223a2231222c2265706f6368223a327d
17 1 read 15 packages.json bytes 241 7b22";

/// The system, its base package and its images are fetched; slot B is filled and made active.
const STAGED: &[u8] = b"19 1 stage 2 turn B
20 1 retain 2 done
21 1 begin system_image/0 ticket $3
22 1 want 21 fetch $3
23 1 room $3 made 12288
24 1 land $3 landed 12288
25 1 want 21 fetch $2
26 1 room $2 made 72
27 1 land $2 landed 72
28 1 want 21 opened
29 1 close 28 closed
30 1 begin base/0 ticket $1
31 1 want 30 fetch $1
32 1 room $1 made 12288
33 1 land $1 landed 12288
34 1 want 30 fetch $0
35 1 room $0 made 1
36 1 land $0 landed 1
37 1 want 30 opened
38 1 close 37 closed
39 1 begin update-images/0 ticket $5
40 1 want 39 fetch $5
41 1 room $5 made 12288
42 1 land $5 landed 12288
43 1 want 39 fetch $4
44 1 room $4 made 5
45 1 land $4 landed 5
46 1 want 39 opened
47 1 close 46 closed
48 1 seal sealed
49 1 activate active B
50 1 leave-stage
51 1 close 15 closed
";

/// The new system stays, and nothing can be retained. The same update makes B unbootable, and stages it anew.
const AGAIN: &[u8] = b"52 1 collect removed 0
53 1 retain 0 slot-in-use
54 1 commit not-pending
55 1 begin update/0 ticket $9
56 1 want 55 opened
57 1 read 56 epoch.json bytes 25 7b2276657273696f6e223a2231222c2265706f6368223a327d
58 1 read 56 packages.json bytes 241 7b22";

const STAGED_AGAIN: &[u8] = b"60 1 stage 2 turn B
61 1 retain 2 done
62 1 begin system_image/0 ticket $3
63 1 want 62 opened
64 1 close 63 closed
65 1 begin base/0 ticket $1
66 1 want 65 opened
67 1 close 66 closed
68 1 begin update-images/0 ticket $5
69 1 want 68 opened
70 1 close 69 closed
71 1 seal sealed
72 1 activate active B
73 1 leave-stage
74 1 close 56 closed
";

#[test]
fn an_update_twice(rt: HostRuntime) -> Result<(), Fail> {
    let alloc = rt.alloc();
    let script = b"1 update fuchsia-pkg://fuchsia.com/update
1 collect
1 retain
1 commit
1 update fuchsia-pkg://fuchsia.com/update
";
    let (shop, roots) = shop_of(alloc, EPOCH, PACKAGES, IMAGES)?;
    let text = printed(&rt, alloc, shop, script)?;
    assert!(rt; text.starts_with(&with_roots(alloc, FETCHED, &roots)?));
    assert!(rt; has(&text, b"\n18 1 read 15 images.json bytes 280 7b22"));
    let mut want = with_roots(alloc, STAGED, &roots)?;
    want.extend_from_slice(&with_roots(alloc, AGAIN, &roots)?)?;
    assert!(rt; has(&text, &want));
    assert!(rt; has(&text, b"\n59 1 read 56 images.json bytes 280 7b22"));
    assert!(rt; text.ends_with(&with_roots(alloc, STAGED_AGAIN, &roots)?));
    Ok(())
}

// The manifests of an update, and how its run ends: one is refused, or it is of an older system, or the images or the
// list are others.
#[test]
fn refused_updates(rt: HostRuntime) -> Result<(), Fail> {
    let alloc = rt.alloc();
    for (epoch, packages, images, end) in [
        (
            b"x".as_slice(),
            PACKAGES,
            IMAGES,
            b"\n17 1 reject epoch.json\n18 1 close 15 closed\n".as_slice(),
        ),
        (
            EPOCH,
            b"{\"version\":\"1\",\"content\":[\"fuchsia-pkg://fuchsia.com/base?hash=$1\"]}",
            IMAGES,
            b"\n18 1 reject packages.json\n19 1 close 15 closed\n",
        ),
        (
            EPOCH,
            PACKAGES,
            b"{\"version\":1,\"contents\":{\"partitions\":[]}}",
            b"\n19 1 reject images.json\n20 1 close 15 closed\n",
        ),
        (
            b"{\"version\":1,\"epoch\":0}",
            PACKAGES,
            IMAGES,
            b"\n19 1 stage 0 older 1\n20 1 close 15 closed\n",
        ),
        (
            b"{\"version\":1,\"epoch\":1}",
            b"{\"version\":\"1\",\"content\":[\"fuchsia-pkg://fuchsia.com/system_image?hash=$0\"]}",
            IMAGES,
            b"\n39 1 seal sealed\n40 1 activate base-missing $1\n41 1 leave-stage\n42 1 close 15 closed\n",
        ),
    ] {
        let (shop, roots) = shop_of(alloc, epoch, packages, images)?;
        let script = b"1 update fuchsia-pkg://fuchsia.com/update\n";
        let text = printed(&rt, alloc, shop, script)?;
        assert!(rt; text.ends_with(&with_roots(alloc, end, &roots)?));
    }
    Ok(())
}
