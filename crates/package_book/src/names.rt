//! The blobs that a package names.

ghost use Rattle.std.specs.Prelude.{◌≡◌, ◌⊎◌, IfOk, Contains};
ghost use Rattle.std.specs.List.{IsDistinct};
ghost use Rattle.pkg_names.specs.declared.root.Root.{Root as RootOf};
ghost use Rattle.pkg_names.specs.Root.{root_eq};
ghost use Rattle.package_book.specs.Books.{Books};
ghost use Rattle.package_book.specs.Alone.{names_alone};
ghost use Rattle.package_book.specs.Names.{levels, names, AgreeOn, DependsOn, HasItself, IsListed};

use pkg_names::{Root, Roots};
use std::alloc::{AllocError, Global};

/// The names of a package whose book isn't looked at: itself.
pub fn names_alone(alloc: Global, root: &Root) -> Result<Roots, AllocError>
    ensures { IfOk result (λ roots. (books : Books) → roots ≡ names_alone root.now books) }
{
    Ok(Roots::make(vec![in alloc; *root]?))
}

/// The three laws of names and levels. Whatever stands above knows the two by these alone.
pub fn names_come_from_books()
    ensures itself { (top : RootOf) (books : Books) → HasItself top books }
    ensures depends { (top : RootOf) (books others : Books) →
        AgreeOn (levels top books) books others → DependsOn top books others }
    ensures listed { (top root : RootOf) (books : Books) → Contains (names top books) root →
        Contains (levels top books) root ⊎ IsListed top root books }
{}

/// No root stands twice among the names of a package.
pub fn names_stand_once()
    ensures { (top : RootOf) (books : Books) → IsDistinct root_eq (names top books) }
{}
