//! The shelf: what is known of packages, with the book of each.

ghost use Rattle.std.specs.Prelude.{◌≡◌, ◌<◌, [], Some, None, IfOk, OnOk, OnErr};
ghost use Rattle.std.specs.Option.{option_map, option_copied};
ghost use Rattle.package_book.specs.Books.{book_at, Sets};
ghost use Rattle.package_book.specs.Books.Meta.{Read, Long};
ghost use Rattle.package_book.specs.Shelf.{shelved_of};

use crate::book::{Book, META_LIMIT};
use crate::fault::PackageFault;
use crate::reading::book_of;
use pkg_names::{Bytes, Root};
use std::alloc::{AllocError, Global};
use std::collections::BTreeMap;
use std::marker::Model;

/// What a shelf has of a package: its book, or its first fault and the bytes. A blob that was added by
/// its length has no bytes.
#[derive(Drop)]
pub enum Shelved {
    Good(Book),
    Bad(PackageFault, Bytes),
}

/// What is known of packages. Contracts see a list of roots with their meta blobs, which is read as a map.
#[derive(Drop)]
pub struct Shelf {
    entries: BTreeMap<Root, Shelved>,
    alloc: Global,
}

impl Model for Shelf {
    ghost use Rattle.package_book.specs.Books.{Books};
    ghost use Rattle.package_book.specs.Invariant.{books_in, IsShelf};

    ghost Value = { Books };

    ghost view = { λ s. books_in s.entries };

    ghost invariant = { λ s. IsShelf s.entries };
}

// What a shelf has of this meta blob.
fn shelved_of(alloc: Global, meta: Vec<u8>) -> Result<Shelved, AllocError>
    ensures { IfOk result (λ shelved. shelved ≡ shelved_of (Read meta.items)) }
{
    match book_of(alloc, meta) {
        Ok(found) => Ok(Shelved::Good(found)),
        Err(refusal) => match refusal.fault {
            PackageFault::NoMemory => Err(AllocError),
            fault => Ok(Shelved::Bad(fault, Bytes::make(refusal.bytes))),
        },
    }
}

impl Shelf {
    /// A shelf that knows nothing.
    pub fn new(alloc: Global) -> Shelf
        ensures { result ≡ [] }
    {
        Shelf {
            entries: BTreeMap::new(alloc),
            alloc,
        }
    }

    /// Adds the meta blob of a package. Where memory is wanting, nothing changes.
    pub fn add(&mut self, root: Root, meta: Vec<u8>) -> Result<(), AllocError>
        requires { book_at self.old root ≡ None }
        ensures ok { OnOk result (Sets root (Some (Read meta.items)) self.old self.new) }
        ensures err { OnErr result (self.new ≡ self.old) }
    {
        let shelved = shelved_of(self.alloc, meta)?;
        self.entries.insert(root, shelved)?;
        Ok(())
    }

    /// Adds a package whose meta blob is longer than any may be, by its length.
    pub fn add_long(&mut self, root: Root, len: u64) -> Result<(), AllocError>
        requires fresh { book_at self.old root ≡ None }
        requires long { META_LIMIT < len }
        ensures ok { OnOk result (Sets root (Some (Long len)) self.old self.new) }
        ensures err { OnErr result (self.new ≡ self.old) }
    {
        let bytes = Bytes::make(Vec::new(self.alloc));
        let shelved = Shelved::Bad(PackageFault::Long { len }, bytes);
        self.entries.insert(root, shelved)?;
        Ok(())
    }

    /// Takes a package away, if it is there.
    pub fn remove(&mut self, root: &Root)
        ensures { Sets root.now None self.old self.new }
    {
        let _ = self.entries.remove(root);
    }

    /// What is known of a package.
    pub fn get(&self, root: &Root) -> Option<&Shelved>
        ensures { option_copied result ≡ option_map shelved_of (book_at self.now root.now) }
    {
        self.entries.get(root)
    }
}
