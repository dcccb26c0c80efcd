//! What the start is, as the contracts of functions that do nothing.

ghost use Rattle.std.specs.Prelude.{◌≡◌, ◌≢◌, ◌∷◌, [], Ok, Some};
ghost use Rattle.pkg_merkle.specs.Merkle.{merkle_root};
ghost use Rattle.image_layout.specs.declared.geometry.Geometry.{Geometry as GeometryOf};
ghost use Rattle.package_book.specs.Book.{book};
ghost use Rattle.store_model.specs.State.{Standing as StandingOf, opened};
ghost use Rattle.store_model.specs.Systems.{booted_verdict};
ghost use Rattle.first_store.specs.Start.{IsStart, system_meta, system_book, start_system};
ghost use Rattle.first_store.specs.Whole.{start_blobs, whole_start};

/// The meta blob is a book, whose root isn't that of no bytes, and the system of it is whole: its base is the
/// system package alone.
pub fn the_start_is_whole()
    ensures book { book system_meta ≡ Ok system_book }
    ensures apart { merkle_root system_meta ≢ merkle_root [] }
    ensures whole { (g : GeometryOf) (d : StandingOf) → IsStart d
        → booted_verdict (opened g d) start_blobs start_system ≡ whole_start }
{}
