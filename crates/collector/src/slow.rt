//! What the counts tell, from the books of all protected packages. Tests compare the two.

ghost use Rattle.std.specs.Prelude.{◌≡◌, ◌||◌, IfOk, OnOk};
ghost use Rattle.pkg_names.specs.declared.root.Root.{Root as RootOf};
ghost use Rattle.package_book.specs.Unprotected.{has_root, is_named, unprotected};
ghost use Rattle.collector.specs.Sets.{is_in, outside};

use crate::names::names_of;
use package_book::Shelf;
use pkg_names::{Root, Roots};
use std::alloc::{AllocError, Global};
use std::collections::BTreeSet;

/// The roots of the stock that no protected package names, in the order of the stock.
pub fn unprotected(
    alloc: Global,
    stock: &[Root],
    protected: &[Root],
    shelf: &Shelf,
) -> Result<Roots, AllocError>
    ensures { IfOk result (λ roots. roots ≡ unprotected stock.now protected.now shelf.now) }
{
    let named = all_names(alloc, protected, shelf)?;
    let mut roots = Vec::from_slice(alloc, stock)?;
    keep_outside(&mut roots, &named);
    Ok(Roots::make(roots))
}

// The names of all these packages.
fn all_names(alloc: Global, tops: &[Root], shelf: &Shelf) -> Result<BTreeSet<Root>, AllocError>
    ensures { IfOk result (λ named. (root : RootOf) → is_in named root ≡ is_named tops.now shelf.now root) }
{
    let mut named = BTreeSet::new(alloc);
    for top in tops {
        let names = names_of(alloc, top, shelf)?;
        add_roots(&mut named, names.as_slice())?;
    }
    Ok(named)
}

fn add_roots(set: &mut BTreeSet<Root>, roots: &[Root]) -> Result<(), AllocError>
    ensures { OnOk result ((root : RootOf) → is_in set.new root
        ≡ (is_in set.old root || has_root roots.now root)) }
{
    for root in roots {
        set.insert(*root)?;
    }
    Ok(())
}

fn keep_outside(roots: &mut Vec<Root>, set: &BTreeSet<Root>)
    ensures { roots.new.items ≡ outside set.now roots.old.items }
{
    roots.retain(|root| !set.contains(root));
}
