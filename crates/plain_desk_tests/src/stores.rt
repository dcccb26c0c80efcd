//! What a store begins with.

ghost use Rattle.std.specs.Prelude.{IfOk};
ghost use Rattle.plain_stock.specs.Contents.{AreBytesOf};
ghost use Rattle.plain_desk_tests.specs.Halls.{OpensEmpty};

use abr_record::{Record, factory};
use image_layout::{Geometry, ImageSum, Sys};
use pkg_merkle::BYTES_LIMIT;
use pkg_names::Root;
use plain_desk::{Opening, Store, StoredBlobs};
use plain_drafts::Images;
use plain_state::Standing;
use plain_stock::Contents;
use repo_source::RepoFile;
use sha2::{Digest, Sha256};
use std::alloc::Global;
use std::test::Fail;

/// What a store begins with beside its blobs.
#[derive(Clone, Copy)]
pub struct Slots {
    pub abr: Record,
    pub a: Option<Sys>,
    pub b: Option<Sys>,
}

/// A system of this package in A, which has succeeded.
pub fn only_a(root: Root, epoch: u64) -> Slots {
    Slots {
        abr: factory(),
        a: Some(system(root, epoch)),
        b: None,
    }
}

/// A system of this epoch whose images are empty.
pub fn system(root: Root, epoch: u64) -> Sys {
    Sys {
        system: root,
        epoch,
        zbi: sum_of(b""),
        vbmeta: sum_of(b""),
    }
}

/// The length and the SHA-256 of an image.
pub fn sum_of(image: &[u8]) -> ImageSum {
    ImageSum {
        len: image.len() as u64,
        sha: Sha256::digest(image),
    }
}

/// Room for 64 blobs and 1024 pages.
pub fn ample() -> Geometry {
    Geometry {
        blobs: 64,
        data_pages: 1024,
        slot_pages: 8,
    }
}

/// How a store of this size opens that has these blobs and slots.
pub fn open(
    alloc: Global,
    geometry: Geometry,
    files: &[RepoFile],
    slots: &Slots,
) -> Result<Opening, Fail>
    ensures { IfOk result OpensEmpty }
{
    let mut blobs = StoredBlobs::new(alloc);
    for file in files {
        put(alloc, &mut blobs, file)?;
    }
    let (stock, contents) = blobs.into_parts();
    let standing = Standing::make(stock, slots.abr, slots.a, slots.b);
    open_from(alloc, geometry, standing, contents, Images::new(alloc))
}

/// How a store opens from what lasted.
pub(crate) fn open_from(
    alloc: Global,
    geometry: Geometry,
    standing: Standing,
    contents: Contents,
    images: Images,
) -> Result<Opening, Fail>
    requires { AreBytesOf contents standing.stock }
    ensures { IfOk result OpensEmpty }
{
    Ok(Store::open(alloc, geometry, standing, contents, images)?)
}

fn put(alloc: Global, blobs: &mut StoredBlobs, file: &RepoFile) -> Result<(), Fail> {
    if file.bytes.as_slice().len() > BYTES_LIMIT {
        return Err(Fail::new("no blob"));
    }
    blobs.put(file.bytes.try_copy(alloc)?)?;
    Ok(())
}
