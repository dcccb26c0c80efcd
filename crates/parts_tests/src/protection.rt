ghost use Rattle.std.specs.Prelude.{◌≡◌, ◌<◌, [], ◌∷◌, ◌++◌, length, IfOk, OnOk, OnErr};
ghost use Rattle.std.specs.List.{remove};
ghost use Rattle.package_book.specs.Unprotected.{unprotected};

use collector::{Counts, counts_follow_packages, names_of, slow, zeros_are_unprotected};
use package_book::Shelf;
use pkg_names::{Root, Roots};
use std::alloc::{AllocError, Global};
use std::marker::Model;

/// Entries of protected packages, as a store has them, with counts that each entry has gained its
/// package's names. Contracts see the entries and the books.
#[derive(Drop)]
pub struct Protection {
    alloc: Global,
    shelf: Shelf,
    entries: Vec<Root>,
    counts: Counts,
}

impl Model for Protection {
    ghost use Rattle.collector.specs.Counts.{CountsNames};
    ghost use Rattle.parts_tests.specs.Protected.{Protected};

    ghost Value = { Protected };

    ghost view = { λ p. record { entries = p.entries.items; books = p.shelf } };

    ghost invariant = { λ p. CountsNames p.entries.items p.shelf p.counts };
}

impl Protection {
    /// Nothing is protected.
    pub fn make(alloc: Global, shelf: Shelf) -> Protection
        ensures { result ≡ record { entries = []; books = shelf } }
    {
        counts_follow_packages();
        Protection {
            alloc,
            shelf,
            entries: Vec::new(alloc),
            counts: Counts::new(alloc),
        }
    }

    /// One more entry for a package.
    pub fn add(&mut self, top: Root) -> Result<(), AllocError>
        ensures ok { OnOk result (self.new ≡ record self.old { entries = self.old.entries ++ top ∷ [] }) }
        ensures err { OnErr result (self.new ≡ self.old) }
    {
        counts_follow_packages();
        let names = names_of(self.alloc, &top, &self.shelf)?;
        self.entries.reserve(1)?;
        self.counts.gain(names.as_slice())?;
        self.entries.push_reserved(top);
        Ok(())
    }

    /// The entry at this place goes.
    pub fn remove(&mut self, place: usize) -> Result<(), AllocError>
        requires { place < length self.old.entries }
        ensures ok { OnOk result (self.new ≡ record self.old { entries = remove self.old.entries place }) }
        ensures err { OnErr result (self.new ≡ self.old) }
    {
        counts_follow_packages();
        let names = names_of(self.alloc, &self.entries[place], &self.shelf)?;
        self.counts.lose(names.as_slice());
        self.entries.remove(place);
        Ok(())
    }

    /// How many entries there are.
    pub fn len(&self) -> usize
        ensures { result ≡ length self.now.entries }
    {
        self.entries.len()
    }

    /// How many entries name the blob.
    pub fn count(&self, root: &Root) -> u128 {
        self.counts.count(root)
    }

    /// The unprotected blobs of the stock, by the counts.
    pub fn unprotected(&self, stock: &[Root]) -> Result<Roots, AllocError>
        ensures { IfOk result (λ roots. roots ≡ unprotected stock.now self.now.entries self.now.books) }
    {
        zeros_are_unprotected();
        self.counts.zeros(stock)
    }

    /// The same, by the books.
    pub fn slowly(&self, stock: &[Root]) -> Result<Roots, AllocError>
        ensures { IfOk result (λ roots. roots ≡ unprotected stock.now self.now.entries self.now.books) }
    {
        slow::unprotected(self.alloc, stock, &self.entries, &self.shelf)
    }
}
