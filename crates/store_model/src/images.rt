//! What an image is that one file has filled.

ghost use Rattle.std.specs.Prelude.{◌≡◌, ◌<◌, ℕ, List, length};
ghost use Rattle.pkg_names.specs.declared.root.Root.{Root as RootOf};
ghost use Rattle.pkg_merkle.specs.Merkle.{merkle_root};
ghost use Rattle.store_model.specs.Calls.{IsMadeOf};

/// An image that is made of files with one root is this file, unless different files have the root.
pub fn images_are_files()
    ensures { (root : RootOf) (bytes : List ℕ) (made : IsMadeOf root bytes)
        → ((place : ℕ) (within : place < length bytes) → (made.each place within).file ≡ made.file)
        → (bytes ≡ made.file) × (merkle_root bytes ≡ root) }
{}
