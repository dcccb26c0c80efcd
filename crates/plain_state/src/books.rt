//! What the books learn and forget.

ghost use Rattle.std.specs.Prelude.{◌≡◌, ◌<◌, [], ◌∷◌, OnOk, OnErr, Some, is_some};
ghost use Rattle.std.specs.List.{list_any};
ghost use Rattle.pkg_names.specs.Root.{root_eq};
ghost use Rattle.pkg_names.specs.declared.pinned.Pinned.{Pinned as PinnedOf};
ghost use Rattle.open_tracker.specs.declared.dirs.DirEntry.{DirEntry as DirEntryOf};
ghost use Rattle.package_book.specs.Books.{book_at};
ghost use Rattle.package_book.specs.Books.Meta.{Read, Long};
ghost use Rattle.package_indexes.specs.declared.Arriving.{Arriving as ArrivingOf};
ghost use Rattle.store_model.specs.State.{has_root, protected_in};
ghost use Rattle.plain_state.specs.Learning.{Learns, Unlearns, Forgets};

use crate::state::State;
use open_tracker::DirEntry;
use package_book::META_LIMIT;
use package_indexes::{Arriving, PathSet};
use pkg_names::{Pinned, Root};
use plain_stock::is_known;
use std::alloc::AllocError;

impl State {
    /// The books know the package.
    pub fn is_known(&self, root: &Root) -> bool
        ensures { result ≡ is_some (book_at self.now.books root.now) }
    {
        is_known(&self.books, root)
    }

    /// The package is in one of the three sets, or is retained, arrives, or is open.
    pub fn is_protected(&self, root: &Root) -> bool
        ensures { result ≡ has_root (protected_in self.now) root.now }
    {
        if is_pinned(self.indexes.pairs(PathSet::Base), root) {
            return true;
        }
        if is_pinned(self.indexes.pairs(PathSet::Cached), root) {
            return true;
        }
        if is_pinned(self.indexes.pairs(PathSet::Active), root) {
            return true;
        }
        if self.indexes.is_retained(root) {
            return true;
        }
        if is_arriving(self.indexes.arriving(), root) {
            return true;
        }
        is_open(self.dirs.entries(), root)
    }

    /// The books learn a package's meta blob, unless they know the package.
    pub fn learn(&mut self, root: Root, meta: Vec<u8>) -> Result<(), AllocError>
        ensures ok { OnOk result (Learns root (Some (Read meta.items)) self.old self.new) }
        ensures err { OnErr result (self.new ≡ self.old) }
    {
        if is_known(&self.books, &root) {
            return Ok(());
        }
        self.books.add(root, meta)
    }

    /// The books learn that a package's meta blob is longer than any may be, unless they know the package.
    pub fn learn_long(&mut self, root: Root, len: u64) -> Result<(), AllocError>
        requires { META_LIMIT < len }
        ensures ok { OnOk result (Learns root (Some (Long len)) self.old self.new) }
        ensures err { OnErr result (self.new ≡ self.old) }
    {
        if is_known(&self.books, &root) {
            return Ok(());
        }
        self.books.add_long(root, len)
    }

    /// The books forget a package.
    pub fn unlearn(&mut self, root: &Root)
        ensures { Unlearns root.now self.old self.new }
    {
        self.books.remove(root);
    }

    /// The books forget a package, unless it is protected.
    pub fn forget(&mut self, root: &Root)
        ensures { Forgets (root.now ∷ []) self.old self.new }
    {
        if !self.is_protected(root) {
            self.books.remove(root);
        }
    }
}

fn is_pinned(pairs: &[Pinned], root: &Root) -> bool
    ensures { result ≡ list_any (λ (pair : PinnedOf). root_eq pair.root root.now) pairs.now }
{
    pairs.iter().any(|pair| pair.root == *root)
}

fn is_arriving(arriving: &[Arriving], root: &Root) -> bool
    ensures { result ≡ list_any (λ (arrival : ArrivingOf). root_eq arrival.root root.now) arriving.now }
{
    arriving.iter().any(|arrival| arrival.root == *root)
}

fn is_open(dirs: &[DirEntry], root: &Root) -> bool
    ensures { result ≡ list_any (λ (dir : DirEntryOf). root_eq dir.root root.now) dirs.now }
{
    dirs.iter().any(|dir| dir.root == *root)
}
