//! Stores that tests begin with.

ghost use Rattle.std.specs.Prelude.{IfOk};
ghost use Rattle.script_server.specs.Lanes.{AreFresh};

use abr_record::{Record, factory};
use image_layout::{Geometry, ImageSum, Sys};
use package_shop::Shop;
use pkg_merkle::BYTES_LIMIT;
use pkg_names::{Bytes, Root};
use plain_desk::{Opening, Store, StoredBlobs};
use plain_drafts::Images;
use plain_state::Standing;
use repo_source::RepoFile;
use sha2::{Digest, Sha256};
use std::alloc::Global;
use std::test::Fail;

pub fn sum_of(image: &[u8]) -> ImageSum {
    ImageSum {
        len: image.len() as u64,
        sha: Sha256::digest(image),
    }
}

/// A system of this epoch whose images are empty.
pub fn system(root: Root, epoch: u64) -> Sys {
    Sys {
        system: root,
        epoch,
        zbi: sum_of(b""),
        vbmeta: sum_of(b""),
    }
}

/// The store of this geometry that has these blobs, and runs the system of this package in A.
pub fn store_in(
    alloc: Global,
    geometry: Geometry,
    files: &[RepoFile],
    root: Root,
) -> Result<Store, Fail>
    ensures { IfOk result (λ store. AreFresh 0 store.history) }
{
    store_by(alloc, geometry, files, factory(), root)
}

// The same, booted by this record.
fn store_by(
    alloc: Global,
    geometry: Geometry,
    files: &[RepoFile],
    record: Record,
    root: Root,
) -> Result<Store, Fail>
    ensures { IfOk result (λ store. AreFresh 0 store.history) }
{
    let mut blobs = StoredBlobs::new(alloc);
    for file in files {
        put(alloc, &mut blobs, file)?;
    }
    let (stock, contents) = blobs.into_parts();
    let standing = Standing::make(stock, record, Some(system(root, 1)), None);
    match Store::open(alloc, geometry, standing, contents, Images::new(alloc))? {
        Opening::Booted(store) => Ok(store),
        _ => Err(Fail::new("no boot")),
    }
}

/// The same with room for 64 blobs and 1024 pages, and for a zbi of 17 pages.
pub fn store_of(alloc: Global, files: &[RepoFile], root: Root) -> Result<Store, Fail>
    ensures { IfOk result (λ store. AreFresh 0 store.history) }
{
    store_in(alloc, ample(), files, root)
}

fn ample() -> Geometry {
    Geometry {
        blobs: 64,
        data_pages: 1024,
        slot_pages: 17,
    }
}

/// The store that has the system package of an empty list, and runs it.
pub fn base_store(alloc: Global) -> Result<Store, Fail>
    ensures { IfOk result (λ store. AreFresh 0 store.history) }
{
    let (base, root) = base_of(alloc)?;
    store_of(alloc, base.files(), root)
}

/// The same, but that recovery runs this once.
pub fn recovering_store(alloc: Global) -> Result<Store, Fail>
    ensures { IfOk result (λ store. AreFresh 0 store.history) }
{
    let (base, root) = base_of(alloc)?;
    let record = Record {
        one_shot: 1,
        ..factory()
    };
    store_by(alloc, ample(), base.files(), record, root)
}

// The system package of an empty list.
fn base_of(alloc: Global) -> Result<(Shop, Root), Fail> {
    let mut base = Shop::new(alloc);
    let root = base.package_of(b"system_image", b"data/static_packages", b"")?;
    Ok((base, root))
}

fn put(alloc: Global, blobs: &mut StoredBlobs, file: &RepoFile) -> Result<(), Fail> {
    if file.bytes.as_slice().len() > BYTES_LIMIT {
        return Err(Fail::new("no blob"));
    }
    blobs.put(file.bytes.try_copy(alloc)?)?;
    Ok(())
}
