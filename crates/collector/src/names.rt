//! The names of packages, from a shelf.

ghost use Rattle.std.specs.Prelude.{◌≡◌, IfOk};
ghost use Rattle.package_book.specs.Books.{book_at};
ghost use Rattle.package_book.specs.Names.{names, roots_known};

use package_book::{Shelf, Shelved};
use pkg_names::{Root, Roots};
use std::alloc::{AllocError, Global};

// The roots that the book of this package lists, by what a shelf knows of it.
fn listed<'a>(shelf: &'a Shelf, top: &Root) -> &'a [Root]
    ensures { result.now ≡ roots_known (book_at shelf.now top.now) }
{
    match shelf.get(top) {
        Some(Shelved::Good(book)) => book.outer_roots(),
        Some(Shelved::Bad(_, _)) => &[],
        None => &[],
    }
}

/// The names of a package: itself, and then the outer roots of its book, each once.
pub fn names_of(alloc: Global, top: &Root, shelf: &Shelf) -> Result<Roots, AllocError>
    ensures { IfOk result (λ roots. roots ≡ names top.now shelf.now) }
{
    let mut roots = vec![in alloc; *top]?;
    for root in listed(shelf, top) {
        if top != root {
            roots.push(*root)?;
        }
    }
    Ok(Roots::make(roots))
}
