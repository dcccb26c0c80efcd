//! Blobs with their bytes: what a store begins with.

ghost use Rattle.std.specs.Prelude.{◌≡◌, ◌≤◌, false, ◌++◌, ◌∷◌, [], length, IfOk, OnOk, OnErr};
ghost use Rattle.pkg_merkle.specs.Merkle.{merkle_root};
ghost use Rattle.pkg_merkle.specs.declared.hasher.TheConstants.{BYTES_LIMIT};
ghost use Rattle.store_model.specs.State.{is_stored};
ghost use Rattle.plain_stock.specs.Contents.{AreBytesOf};
ghost use Rattle.plain_desk.specs.Putting.{stock_with};

use pkg_merkle::root_of;
use pkg_names::{Bytes, Root};
use plain_stock::{Contents, Stock};
use std::alloc::{AllocError, Global};
use std::marker::Model;

/// Blobs that are stored, with their bytes. Contracts see their stock; the bytes are those of the stock.
#[derive(Drop)]
pub struct StoredBlobs {
    stock: Stock,
    contents: Contents,
}

impl Model for StoredBlobs {
    ghost use Rattle.plain_desk.specs.Putting.{BlobsOf};
    ghost use Rattle.plain_stock.specs.Contents.{AreBytesOf};

    ghost Value = { BlobsOf };

    ghost view = { λ b. record { stock = b.stock; contents = b.contents } };

    ghost invariant = { λ b. AreBytesOf b.contents b.stock };
}

impl StoredBlobs {
    /// No blobs.
    pub fn new(alloc: Global) -> StoredBlobs
        ensures { result.stock ≡ [] }
    {
        StoredBlobs {
            stock: Stock::new(alloc),
            contents: Contents::new(alloc),
        }
    }

    /// Stores a blob of at most `BYTES_LIMIT` bytes last, unless one with its root is stored, and gives its
    /// root. Where memory is wanting, the stock is as before.
    pub fn put(&mut self, bytes: Bytes) -> Result<Root, AllocError>
        requires { length bytes ≤ BYTES_LIMIT }
        ensures root { IfOk result (λ root. root ≡ merkle_root bytes) }
        ensures stock { IfOk result (λ root. self.new.stock ≡ stock_with self.old.stock root bytes) }
        ensures err { OnErr result (self.new.stock ≡ self.old.stock) }
    {
        let root = root_of(bytes.as_slice());
        if !self.stock.is_stored(&root) {
            put_new(&mut self.stock, &mut self.contents, root, bytes)?;
        }
        Ok(root)
    }

    /// The stock, and the bytes of its blobs.
    pub fn into_parts(self) -> (Stock, Contents)
        ensures stock { result.0 ≡ self.stock }
        ensures bytes { AreBytesOf result.1 result.0 }
    {
        (self.stock, self.contents)
    }
}

// The blob isn't stored yet.
fn put_new(
    stock: &mut Stock,
    contents: &mut Contents,
    root: Root,
    bytes: Bytes,
) -> Result<(), AllocError>
    requires missing { is_stored stock.old root ≡ false }
    requires is { merkle_root bytes ≡ root }
    requires bytes { AreBytesOf contents.old stock.old }
    ensures stock { OnOk result (stock.new ≡ stock.old ++ record { root = root; len = length bytes } ∷ []) }
    ensures err { OnErr result (stock.new ≡ stock.old) }
    ensures bytes { AreBytesOf contents.new stock.new }
{
    let len = bytes.as_slice().len() as u64;
    contents.put(root, bytes)?;
    match stock.push(root, len) {
        Ok(()) => Ok(()),
        Err(fault) => {
            contents.remove(&root);
            Err(fault)
        }
    }
}
