ghost use Rattle.std.specs.Prelude.{◌≡◌, ◌≢◌, [], ◌∷◌, ◌++◌, IfOk, OnOk, OnErr};
ghost use Rattle.std.specs.List.{All};
ghost use Rattle.package_indexes.specs.Indexes.{chosen, root_at as root_in};
ghost use Rattle.package_indexes.specs.Sets.{AreDistinct, pairs_of, answer_for, arriving_with, without_ticket, with_active, has_root, each_once, protected_by};

use crate::lists::{
    add_arriving, add_open, add_roots, either, is_among, keep_first, make_active, root_of_path,
    take_ticket,
};
use crate::{Arriving, Choice, Chosen, PathSet};
use open_tracker::Dirs;
use pkg_names::{PackagePath, Pinned, Root, Roots};
use std::alloc::{AllocError, Global};
use std::marker::Model;

/// The sets of packages. Contracts see five lists: the base, the cached and the active packages with
/// their paths, the retained roots, and the packages that arrive.
#[derive(Debug, Drop)]
pub struct Indexes {
    alloc: Global,
    base: Vec<Pinned>,
    cached: Vec<Pinned>,
    active: Vec<Pinned>,
    retained: Vec<Root>,
    arriving: Vec<Arriving>,
}

impl Model for Indexes {
    ghost use Rattle.package_indexes.specs.Sets.{Sets};
    ghost use Rattle.package_indexes.specs.Reserved.{IsReserved};

    ghost Value = { Sets };

    ghost view = { λ i. record {
      base = i.base.items;
      cached = i.cached.items;
      active = i.active.items;
      retained = i.retained.items;
      arriving = i.arriving.items;
    } };

    ghost invariant = { λ i. IsReserved i.active i.arriving.items };
}

impl Indexes {
    /// The packages of a system. Nothing is active, retained or arriving.
    pub fn make(alloc: Global, base: Vec<Pinned>, cached: Vec<Pinned>) -> Indexes
        ensures { result ≡ record {
          base = base.items;
          cached = cached.items;
          active = [];
          retained = [];
          arriving = [];
        } }
    {
        Indexes {
            alloc,
            base,
            cached,
            active: Vec::new(alloc),
            retained: Vec::new(alloc),
            arriving: Vec::new(alloc),
        }
    }

    /// The root that a request for the path is for.
    pub fn choose(&self, path: &PackagePath, choice: Choice) -> Chosen
        ensures { result ≡ answer_for choice (chosen self.now.base self.now.cached path.now choice) }
    {
        let root = match choice {
            Choice::Pinned(root) => Some(root),
            Choice::Listed(root) => either(root_of_path(&self.base, path), Some(root)),
            _ => either(
                root_of_path(&self.base, path),
                root_of_path(&self.cached, path),
            ),
        };
        answer(choice, root)
    }

    /// A package arrives under a new ticket. Takes the place that its activation needs.
    pub fn arrive(
        &mut self,
        ticket: u64,
        lane: u32,
        path: &PackagePath,
        root: Root,
    ) -> Result<(), AllocError>
        requires { All (λ arrival. arrival.ticket ≢ ticket) self.old.arriving }
        ensures ok { OnOk result (self.new ≡ record self.old {
          arriving = self.old.arriving
              ++ record { ticket = ticket; lane = lane; path = path.now; root = root } ∷ [];
        }) }
        ensures err { OnErr result (self.new ≡ self.old) }
    {
        let path = path.try_copy(self.alloc)?;
        self.active.reserve(self.arriving.len() + 1)?;
        self.arriving.push(Arriving {
            ticket,
            lane,
            path,
            root,
        })?;
        Ok(())
    }

    /// The package of a ticket arrives no longer. It is active under its path now, unless the base has
    /// that path.
    pub fn activate(&mut self, ticket: u64)
        ensures { self.new ≡ record self.old {
          active = with_active self.old.base self.old.active (arriving_with self.old.arriving ticket);
          arriving = without_ticket self.old.arriving ticket;
        } }
    {
        if let Some(arrival) = take_ticket(&mut self.arriving, ticket) {
            make_active(&mut self.active, &self.base, arrival);
        }
    }

    /// The package of a ticket arrives no longer.
    pub fn depart(&mut self, ticket: u64)
        ensures { self.new ≡ record self.old { arriving = without_ticket self.old.arriving ticket } }
    {
        self.arriving.retain(|arrival| arrival.ticket != ticket);
    }

    /// These roots are retained in place of the former ones, each once.
    pub fn replace_retained(&mut self, roots: Roots)
        ensures { self.new ≡ record self.old { retained = each_once roots } }
    {
        let mut roots = roots.into_vec();
        keep_first(&mut roots);
        self.retained = roots;
    }

    /// The roots of the packages that are protected while these directories are open.
    pub fn protected(&self, dirs: &Dirs) -> Result<Roots, AllocError>
        ensures { IfOk result (λ roots. roots ≡ protected_by self.now dirs.now) }
    {
        let mut roots = Vec::new(self.alloc);
        add_roots(&mut roots, &self.base)?;
        add_roots(&mut roots, &self.cached)?;
        add_roots(&mut roots, &self.active)?;
        roots.extend_from_slice(&self.retained)?;
        add_arriving(&mut roots, &self.arriving)?;
        add_open(&mut roots, dirs.entries())?;
        Ok(Roots::make(roots))
    }

    /// The root of the set's first pair with this path.
    pub fn root_at(&self, set: PathSet, path: &PackagePath) -> Option<Root>
        ensures { result ≡ root_in (pairs_of set self.now) path.now }
    {
        root_of_path(self.pairs(set), path)
    }

    pub fn is_retained(&self, root: &Root) -> bool
        ensures { result ≡ has_root self.now.retained root.now }
    {
        is_among(&self.retained, root)
    }

    /// The pairs of a set.
    pub fn pairs(&self, set: PathSet) -> &[Pinned]
        ensures { result.now ≡ pairs_of set self.now }
    {
        match set {
            PathSet::Base => &self.base,
            PathSet::Cached => &self.cached,
            PathSet::Active => &self.active,
        }
    }

    pub fn retained(&self) -> &[Root]
        ensures { result.now ≡ self.now.retained }
    {
        &self.retained
    }

    /// The packages that arrive. No ticket stands twice.
    pub fn arriving(&self) -> &[Arriving]
        ensures list { result.now ≡ self.now.arriving }
        ensures distinct { AreDistinct self.now.arriving }
    {
        &self.arriving
    }
}

// A root, or why there is none.
fn answer(choice: Choice, root: Option<Root>) -> Chosen
    ensures { result ≡ answer_for choice root }
{
    match (root, choice) {
        (Some(root), _) => Chosen::Is(root),
        (None, Choice::Failed) => Chosen::ListingFault,
        (None, _) => Chosen::NotFound,
    }
}
