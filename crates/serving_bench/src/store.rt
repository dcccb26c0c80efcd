//! The store that serves.

ghost use Rattle.std.specs.Prelude.{◌≡◌, [], IfOk};
ghost use Rattle.script_server.specs.Lanes.{AreFresh};

use clients_tests::stores::store_in;
use image_layout::Geometry;
use package_shop::Shop;
use plain_desk::Store;
use std::alloc::Global;
use std::test::Fail;

/// A store in memory for 512 blobs in 32,768 pages, whose system has no packages.
pub(crate) fn store(alloc: Global) -> Result<Store, Fail>
    ensures { IfOk result (λ store. AreFresh 0 store.history) }
{
    let mut base = Shop::new(alloc);
    let root = base.package_of(b"system_image", b"data/static_packages", b"")?;
    let geometry = Geometry {
        blobs: 512,
        data_pages: 32_768,
        slot_pages: 8,
    };
    store_in(alloc, geometry, base.files(), root)
}
