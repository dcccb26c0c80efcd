//! The stored blobs: their roots and lengths.

ghost use Rattle.std.specs.Prelude.{◌≡◌, ◌-◌, ◌^◌, [], ◌∷◌, ◌++◌, length, min, map, filter, Some, None, is_some, IfOk, OnOk, OnErr, if◌then◌else◌};
ghost use Rattle.std.specs.BTreeMap.{get};
ghost use Rattle.pkg_names.specs.declared.root.Root.{Root as RootOf};
ghost use Rattle.pkg_names.specs.Root.{root_eq};
ghost use Rattle.store_model.specs.State.{Stored, stored_len, is_stored, stock_roots, without_blobs, has_root};
ghost use Rattle.store_model.specs.Packages.{pages_of, stock_pages};
ghost use Rattle.plain_stock.specs.Stocks.{root_cmp, first_len};

use pkg_names::Root;
use std::alloc::{AllocError, Global};
use std::collections::BTreeMap;
use std::marker::Model;

/// A blob that is stored.
#[derive(Drop)]
pub struct Blob {
    root: Root,
    len: u64,
}

impl Model for Blob {
    ghost use Rattle.store_model.specs.State.{Stored};

    ghost Value = { Stored };

    ghost view = { λ b. record { root = b.root; len = b.len } };
}

impl Blob {
    fn make(root: Root, len: u64) -> Blob
        ensures { result ≡ record { root = root; len = len } }
    {
        Blob { root, len }
    }

    pub fn root(&self) -> Root
        ensures { result ≡ self.now.root }
    {
        self.root
    }

    pub fn len(&self) -> u64
        ensures { result ≡ self.now.len }
    {
        self.len
    }
}

/// The stored blobs. Contracts see the model's list, in the order in which they came.
#[derive(Drop)]
pub struct Stock {
    blobs: Vec<Blob>,
    // The first length of each root.
    lens: BTreeMap<Root, u64>,
    // How many pages they have together. It stands still at its last value.
    pages: u64,
}

impl Model for Stock {
    ghost use Rattle.std.specs.Prelude.{List};
    ghost use Rattle.store_model.specs.State.{Stored};
    ghost use Rattle.plain_stock.specs.Stocks.{IsStock};

    ghost Value = { List Stored };

    ghost view = { λ s. s.blobs.items };

    ghost invariant = { λ s. IsStock s.blobs.items s.lens s.pages };
}

impl Stock {
    /// Nothing is stored.
    pub fn new(alloc: Global) -> Stock
        ensures { result ≡ [] }
    {
        Stock {
            blobs: Vec::new(alloc),
            lens: BTreeMap::new(alloc),
            pages: 0,
        }
    }

    /// The blobs, in the order in which they came.
    pub fn blobs(&self) -> &[Blob]
        ensures { result.now ≡ self.now }
    {
        &self.blobs
    }

    /// How many pages the blobs have together.
    pub fn pages(&self) -> u64
        ensures { result ≡ min (stock_pages self.now) (2 ^ 64 - 1) }
    {
        self.pages
    }

    /// The length of a stored blob.
    pub fn len_of(&self, root: &Root) -> Option<u64>
        ensures { result ≡ stored_len self.now root.now }
    {
        self.lens.get(root).copied()
    }

    pub fn is_stored(&self, root: &Root) -> bool
        ensures { result ≡ is_stored self.now root.now }
    {
        self.len_of(root).is_some()
    }

    /// The roots of the blobs, in the order in which they came.
    pub fn roots(&self, alloc: Global) -> Result<Vec<Root>, AllocError>
        ensures { IfOk result (λ roots. roots.items ≡ stock_roots self.now) }
    {
        self.blobs.iter().map(|blob| blob.root()).collect(alloc)
    }

    /// A blob is stored. Where memory is wanting, nothing changes.
    pub fn push(&mut self, root: Root, len: u64) -> Result<(), AllocError>
        ensures ok { OnOk result (self.new ≡ self.old ++ record { root = root; len = len } ∷ []) }
        ensures err { OnErr result (self.new ≡ self.old) }
    {
        self.blobs.push(Blob::make(root, len))?;
        if let Err(fault) = note(&mut self.lens, root, len) {
            let _ = self.blobs.pop();
            return Err(fault);
        }
        self.pages = self.pages.saturating_add(pages_of(len));
        Ok(())
    }

    /// The blobs with these roots are removed.
    pub fn remove(&mut self, roots: &[Root])
        ensures { self.new ≡ without_blobs self.old roots.now }
    {
        forget(&mut self.lens, roots);
        keep_noted(&mut self.blobs, &self.lens);
        self.pages = pages_in(&self.blobs);
    }
}

/// How many pages a blob of this length has.
pub fn pages_of(len: u64) -> u64
    ensures { result ≡ pages_of len }
{
    len.div_ceil(4096).max(1)
}

fn pages_in(blobs: &[Blob]) -> u64
    ensures { result ≡ min (stock_pages blobs.now) (2 ^ 64 - 1) }
{
    let mut pages: u64 = 0;
    for blob in blobs {
        pages = pages.saturating_add(pages_of(blob.len()));
    }
    pages
}

// The length of a root is noted, unless it has one.
fn note(lens: &mut BTreeMap<Root, u64>, root: Root, len: u64) -> Result<(), AllocError>
    ensures ok { OnOk result ((other : RootOf) → get root_cmp lens.new other
        ≡ first_len (get root_cmp lens.old other) (if root_eq root other then Some len else None)) }
    ensures err { OnErr result (lens.new.entries ≡ lens.old.entries) }
{
    if lens.contains_key(&root) {
        return Ok(());
    }
    lens.insert(root, len)?;
    Ok(())
}

// These roots have no lengths from now on.
fn forget(lens: &mut BTreeMap<Root, u64>, roots: &[Root])
    ensures { (other : RootOf) → get root_cmp lens.new other
        ≡ (if has_root roots.now other then None else get root_cmp lens.old other) }
{
    for root in roots {
        let _ = lens.remove(root);
    }
}

// The blobs whose roots have no lengths are removed.
fn keep_noted(blobs: &mut Vec<Blob>, lens: &BTreeMap<Root, u64>)
    ensures { blobs.new.items ≡ filter (λ (blob : Stored). is_some (get root_cmp lens.now blob.root)) blobs.old.items }
{
    blobs.retain(|blob| lens.contains_key(&blob.root));
}
