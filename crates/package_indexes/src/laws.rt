//! Laws of the sets. Each function has an empty body: its contract is the law.

ghost use Rattle.std.specs.Prelude.{◌≡◌, ◌≢◌, ℕ, List, [], ◌∷◌, ◌++◌, true, false, Some, None};
ghost use Rattle.pkg_names.specs.declared.root.Root.{Root};
ghost use Rattle.package_indexes.specs.Sets.{has_root, each_once};

/// A list with each root once has the same roots, none of them twice, and a root that comes again
/// is left out.
pub fn roots_stand_once()
    ensures same { (roots : List Root) (root : Root) → has_root (each_once roots) root ≡ has_root roots root }
    ensures next { (roots : List Root) (root : Root) → has_root roots root ≡ false
        → each_once (roots ++ root ∷ []) ≡ each_once roots ++ root ∷ [] }
    ensures again { (roots : List Root) (root : Root) → has_root roots root ≡ true
        → each_once (roots ++ root ∷ []) ≡ each_once roots }
{}
