ghost use Rattle.std.specs.Prelude.{◌≡◌, ◌↔◌, ℕ, List, Ok, Contains};
ghost use Rattle.pkg_names.specs.declared.root.Root.{Root as RootOf};
ghost use Rattle.far_archive.specs.Fields.{AreBytes};
ghost use Rattle.package_book.specs.Books.{Books};
ghost use Rattle.package_book.specs.Book.{MetaAndFiles, book, IsBook};
ghost use Rattle.package_book.specs.Names.{names};
ghost use Rattle.package_book.specs.Unprotected.{unprotected};

use crate::book::META_LIMIT;
use far_archive::texts_stand_or_have_a_fault;
use meta_contents::texts_stand_for_what_is_read;

/// The number that definitions cite by name.
pub fn limits()
    ensures meta { META_LIMIT ≡ 1_048_576 }
{}

/// Bytes have a book exactly where they are one: an archive whose `meta/contents` stands for the outer
/// list, and whose `meta/package` names a package.
pub fn books_are_read()
    ensures stands { (bytes : List ℕ) (found : MetaAndFiles) → AreBytes bytes → book bytes ≡ Ok found
        → IsBook bytes found }
    ensures only { (bytes : List ℕ) (found : MetaAndFiles) → IsBook bytes found → book bytes ≡ Ok found }
{
    texts_stand_or_have_a_fault();
    texts_stand_for_what_is_read();
}

/// A blob is unprotected exactly where it is stored and no protected package names it.
pub fn unprotected_are_unnamed()
    ensures { (stock protected : List RootOf) (books : Books) (root : RootOf) →
        Contains (unprotected stock protected books) root ↔ (Contains stock root
        × ((top : RootOf) → Contains protected top → ¬ Contains (names top books) root)) }
{}
