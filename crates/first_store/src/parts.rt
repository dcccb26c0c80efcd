//! What lasts at the start.

ghost use Rattle.std.specs.Prelude.{◌≡◌, [], IfOk};
ghost use Rattle.image_layout.specs.Sums.{image_sum};
ghost use Rattle.pkg_merkle.specs.Merkle.{merkle_root};
ghost use Rattle.first_store.specs.Bytes.{HasStartBytes};
ghost use Rattle.first_store.specs.Start.{start_geometry, start_stock, start_system, system_meta};

use crate::package::system_meta;
use image_layout::{Geometry, ImageSum, Sys};
use pkg_merkle::root_of;
use pkg_names::{Bytes, Root};
use plain_stock::{Contents, Stock};
use sha2::{Digest, Sha256};
use std::alloc::{AllocError, Global};

fn empty_sum() -> ImageSum
    ensures { result ≡ image_sum [] }
{
    ImageSum {
        len: 0,
        sha: Sha256::digest(b""),
    }
}

pub(crate) fn geometry() -> Geometry
    ensures { result ≡ start_geometry }
{
    Geometry {
        blobs: 64,
        data_pages: 1024,
        slot_pages: 8,
    }
}

/// The system of the package with this root.
pub(crate) fn system(root: Root) -> Sys
    requires { root ≡ merkle_root system_meta }
    ensures { result ≡ start_system }
{
    Sys {
        system: root,
        epoch: 1,
        zbi: empty_sum(),
        vbmeta: empty_sum(),
    }
}

/// The two blobs, and the bytes of each. The first has this root.
pub(crate) fn blobs(alloc: Global) -> Result<(Stock, Contents, Root), AllocError>
    ensures stock { IfOk result (λ parts. parts.0 ≡ start_stock) }
    ensures bytes { IfOk result (λ parts. HasStartBytes parts.1) }
    ensures root { IfOk result (λ parts. parts.2 ≡ merkle_root system_meta) }
{
    let meta = system_meta(alloc)?;
    let len = meta.len() as u64;
    let (root, list) = (root_of(&meta), root_of(b""));
    let mut stock = Stock::new(alloc);
    let mut contents = Contents::new(alloc);
    stock.push(root, len)?;
    stock.push(list, 0)?;
    contents.put(root, Bytes::make(meta))?;
    contents.put(list, Bytes::make(Vec::new(alloc)))?;
    Ok((stock, contents, root))
}
