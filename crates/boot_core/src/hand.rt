//! What is at hand of a system by what was looked at.

ghost use Rattle.std.specs.Prelude.{◌≡◌, not, find, is_some, IfOk};
ghost use Rattle.package_book.specs.Books.{book_at};
ghost use Rattle.package_book.specs.Names.{names, roots_known};
ghost use Rattle.system_lists.specs.Judging.{judged};
ghost use Rattle.system_judge.specs.Judgement.{verdict_of};
ghost use Rattle.boot_core.specs.Look.{len_in};
ghost use Rattle.boot_core.specs.Seen.{book_known, outer_of, hand};

use crate::looking::Look;
use crate::seen::{Seen, bytes_in};
use package_book::{Shelf, Shelved};
use pkg_names::{FilePath, Root};
use std::alloc::{AllocError, Global};
use system_judge::{Evidence, Judgement, judge};

// Which blobs a store has, and those that were looked at.
#[derive(Drop)]
struct Hand<'a, L> {
    look: &'a L,
    seen: &'a Seen,
}

impl<'a, L: Look> Evidence for Hand<'a, L> {
    ghost use Rattle.boot_core.specs.Seen.{hand};

    ghost at_hand = { λ h. hand (L.stock h.look.now) h.seen.now.books h.seen.now.blobs.items };

    fn len(&self, root: &Root) -> Option<u64> {
        self.look.len(root)
    }

    fn is_kept(&self, _root: &Root) -> bool {
        true
    }

    fn is_book(&self, root: &Root) -> bool {
        is_book(&self.seen.books, root)
    }

    fn first_missing(&self, root: &Root) -> Option<Root> {
        first_missing(&self.seen.books, self.look, root)
    }

    fn outer(&self, root: &Root, file: &FilePath) -> Option<Root> {
        outer(&self.seen.books, root, file)
    }

    fn bytes(&self, root: &Root) -> Option<&[u8]> {
        bytes_in(&self.seen.blobs, root)
    }
}

/// Judges a system by what was looked at.
pub(crate) fn judge_seen<L: Look>(
    alloc: Global,
    look: &L,
    seen: &Seen,
    system: &Root,
) -> Result<Judgement, AllocError>
    ensures { IfOk result (λ found. verdict_of found
        ≡ judged (hand (L.stock look.now) seen.now.books seen.now.blobs.items) system.now) }
{
    judge(alloc, &Hand { look, seen }, system)
}

fn is_book(books: &Shelf, root: &Root) -> bool
    ensures { result ≡ is_some (book_known (book_at books.now root.now)) }
{
    matches!(books.get(root), Some(Shelved::Good(_)))
}

/// The root of the file of this path that the package's book lists.
pub(crate) fn outer(books: &Shelf, root: &Root, file: &FilePath) -> Option<Root>
    ensures { result ≡ outer_of (book_known (book_at books.now root.now)) file.now }
{
    match books.get(root) {
        Some(Shelved::Good(book)) => book.outer(file),
        _ => None,
    }
}

// The roots that the package's book lists.
fn listed<'a>(books: &'a Shelf, root: &Root) -> &'a [Root]
    ensures { result.now ≡ roots_known (book_at books.now root.now) }
{
    match books.get(root) {
        Some(Shelved::Good(book)) => book.outer_roots(),
        Some(Shelved::Bad(_, _)) => &[],
        None => &[],
    }
}

// The first blob of the package that isn't stored.
fn first_missing<L: Look>(books: &Shelf, look: &L, root: &Root) -> Option<Root>
    ensures { result ≡ find (λ name. not (is_some (len_in (L.stock look.now) name))) (names root.now books.now) }
{
    if !is_stored(look, root) {
        return Some(*root);
    }
    missing_in(listed(books, root), look)
}

fn missing_in<L: Look>(roots: &[Root], look: &L) -> Option<Root>
    ensures { result ≡ find (λ name. not (is_some (len_in (L.stock look.now) name))) roots.now }
{
    roots.iter().find(|name| !is_stored(look, name)).copied()
}

fn is_stored<L: Look>(look: &L, root: &Root) -> bool
    ensures { result ≡ is_some (len_in (L.stock look.now) root.now) }
{
    look.len(root).is_some()
}
