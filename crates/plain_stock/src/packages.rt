//! What the books say of a package.

ghost use Rattle.std.specs.Prelude.{◌≡◌, ◌||◌, not, find, is_some};
ghost use Rattle.fetch_queue.specs.Fetches.{is_claimed};
ghost use Rattle.package_book.specs.Books.{book_at};
ghost use Rattle.package_book.specs.Names.{names, roots_known};
ghost use Rattle.store_model.specs.State.{is_stored, has_root};
ghost use Rattle.store_model.specs.Packages.{known_book, known_fault};

use crate::blobs::Stock;
use fetch_queue::Queue;
use package_book::{PackageFault, Shelf, Shelved};
use pkg_names::Root;

/// The books know the package.
pub fn is_known(books: &Shelf, root: &Root) -> bool
    ensures { result ≡ is_some (book_at books.now root.now) }
{
    books.get(root).is_some()
}

/// Why a known package is no package.
pub fn fault_of(books: &Shelf, root: &Root) -> Option<PackageFault>
    ensures { result ≡ known_fault books.now root.now }
{
    match books.get(root) {
        Some(Shelved::Bad(fault, _)) => Some(*fault),
        _ => None,
    }
}

/// The package is known, and is one.
pub fn is_book(books: &Shelf, root: &Root) -> bool
    ensures { result ≡ is_some (known_book books.now root.now) }
{
    matches!(books.get(root), Some(Shelved::Good(_)))
}

// The roots that the package's book lists.
fn listed<'a>(books: &'a Shelf, root: &Root) -> &'a [Root]
    ensures { result.now ≡ roots_known (book_at books.now root.now) }
{
    match books.get(root) {
        Some(Shelved::Good(book)) => book.outer_roots(),
        Some(Shelved::Bad(_, _)) => &[],
        None => &[],
    }
}

/// The first blob of the package that isn't stored.
pub fn first_missing(books: &Shelf, stock: &Stock, root: &Root) -> Option<Root>
    ensures { result ≡ find (λ name. not (is_stored stock.now name)) (names root.now books.now) }
{
    if !stock.is_stored(root) {
        return Some(*root);
    }
    missing_in(listed(books, root), stock)
}

fn missing_in(roots: &[Root], stock: &Stock) -> Option<Root>
    ensures { result ≡ find (λ name. not (is_stored stock.now name)) roots.now }
{
    roots.iter().find(|name| !stock.is_stored(name)).copied()
}

fn is_claimed(queue: &Queue, root: &Root) -> bool
    ensures { result ≡ is_claimed queue.now.claims root.now }
{
    queue.first_unclaimed(&[*root]).is_none()
}

// Nobody has the blob or fetches it.
fn is_free(stock: &Stock, queue: &Queue, root: &Root) -> bool
    ensures { result ≡ not (is_stored stock.now root.now || is_claimed queue.now.claims root.now) }
{
    !(stock.is_stored(root) || is_claimed(queue, root))
}

/// The first blob of the package that nobody has or fetches.
pub fn first_free(books: &Shelf, stock: &Stock, queue: &Queue, root: &Root) -> Option<Root>
    ensures { result ≡ find (λ name. not (is_stored stock.now name || is_claimed queue.now.claims name))
        (names root.now books.now) }
{
    if is_free(stock, queue, root) {
        return Some(*root);
    }
    free_in(listed(books, root), stock, queue)
}

fn free_in(roots: &[Root], stock: &Stock, queue: &Queue) -> Option<Root>
    ensures { result ≡ find (λ name. not (is_stored stock.now name || is_claimed queue.now.claims name)) roots.now }
{
    roots
        .iter()
        .find(|name| is_free(stock, queue, name))
        .copied()
}

/// The package names the blob.
pub fn is_naming(books: &Shelf, top: &Root, root: &Root) -> bool
    ensures { result ≡ has_root (names top.now books.now) root.now }
{
    top == root || is_among(listed(books, top), root)
}

fn is_among(roots: &[Root], root: &Root) -> bool
    ensures { result ≡ has_root roots.now root.now }
{
    roots.iter().any(|name| name == root)
}
