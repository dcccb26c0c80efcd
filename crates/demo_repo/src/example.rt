//! The packages of the example: two versions of one, and an update to a system of two packages.

use package_shop::{Shop, listing_of, push_line, with_roots, write_folder};
use pkg_names::Root;
use sha2::{Digest, Sha256};
use std::alloc::{AllocError, Global};
use std::rt::Files;
use std::test::Fail;

const EPOCH: &[u8] = b"{\"version\":\"1\",\"epoch\":2}";

/// Pins the system and its base package.
const PACKAGES: &[u8] =
    b"{\"version\":\"1\",\"content\":[\"fuchsia-pkg://fuchsia.com/system_image?hash=$0\",\
\"fuchsia-pkg://fuchsia.com/shell?hash=$1\"]}";

/// The kernel, of nine bytes. Its SHA-256 stands in place of `$3`, as a root.
const IMAGES: &[u8] =
    b"{\"version\":\"1\",\"contents\":{\"partitions\":[{\"slot\":\"fuchsia\",\"type\":\"zbi\",\
\"size\":9,\"hash\":\"$3\",\"url\":\"fuchsia-pkg://fuchsia.com/update-images?hash=$2#zbi\"}]}}";

const KERNEL: &[u8] = b"a kernel\n";

/// The shops that have the example's files. The new one is listed.
#[derive(Drop)]
pub(crate) struct Example {
    old: Shop,
    new: Shop,
}

impl Example {
    pub(crate) fn make(alloc: Global) -> Result<Example, Fail> {
        let mut old = Shop::new(alloc);
        old.package_of(b"notes", b"data/text", b"the old text\n")?;
        let mut new = Shop::new(alloc);
        new.package_of(b"notes", b"data/text", b"the new text\n")?;
        stock_update(alloc, &mut new)?;
        Ok(Example { old, new })
    }

    /// The text of the listing.
    pub(crate) fn listing(&self, alloc: Global) -> Result<Vec<u8>, AllocError> {
        listing_of(alloc, &self.new)
    }

    /// Writes the listing, and the blobs, into a folder.
    pub(crate) fn write<F: Files>(
        &self,
        files: &F,
        alloc: Global,
        folder: &str,
    ) -> Result<(), Fail> {
        write_folder(files, alloc, &self.old, folder)?;
        write_folder(files, alloc, &self.new, folder)
    }
}

// The new system with its base package, its kernel, and the update package that names them.
fn stock_update(alloc: Global, shop: &mut Shop) -> Result<(), Fail> {
    let base = shop.package_of(b"shell", b"bin/shell", b"a shell\n")?;
    let mut list = Vec::new(alloc);
    push_line(&mut list, b"shell/0", &base)?;
    let system = shop.package_of(b"system_image", b"data/static_packages", &list)?;
    // The manifest tells this length.
    prove!(KERNEL.len() == 9);
    let images = shop.package_of(b"update-images", b"zbi", KERNEL)?;
    let named = [system, base, images, Root(Sha256::digest(KERNEL))];
    let mut lines = Vec::new(alloc);
    shop.line(&mut lines, b"epoch.json", EPOCH)?;
    let manifest = with_roots(alloc, IMAGES, &named)?;
    shop.line(&mut lines, b"images.json", &manifest)?;
    let manifest = with_roots(alloc, PACKAGES, &named)?;
    shop.line(&mut lines, b"packages.json", &manifest)?;
    shop.package(b"update", lines)?;
    Ok(())
}
