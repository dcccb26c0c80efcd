//! Laws of the Merkle root. Their functions do nothing.

ghost use Rattle.std.specs.Prelude.{◌≡◌, ◌^◌, ◌<◌, ◌++◌, List, ℕ, length};
ghost use Rattle.pkg_names.specs.Root.{IsRoot};
ghost use Rattle.pkg_merkle.specs.Merkle.{merkle_root, inputs, HashesLast};
ghost use Rattle.pkg_merkle.specs.Binding.{IsFreeOfCollisions};

use crate::hasher::BYTES_LIMIT;

/// The number that definitions cite by name: 4096 data blocks.
pub fn limits()
    ensures bytes { BYTES_LIMIT ≡ 33_554_432 }
{}

/// The Merkle root of any bytes is a list of 32 bytes, and the SHA-256 of the last input.
pub fn blobs_have_roots()
    ensures root { (bytes : List ℕ) → IsRoot (merkle_root bytes) }
    ensures inputs { (bytes : List ℕ) → HashesLast (inputs bytes) (merkle_root bytes).0 }
{}

/// Two blobs of fewer than 2^64 bytes that have one root are equal, where no collision is met among
/// their inputs of SHA-256.
pub fn roots_bind_blobs()
    ensures { (a b : List ℕ) → length a < 2 ^ 64 → length b < 2 ^ 64 → IsFreeOfCollisions (inputs a ++ inputs b)
        → merkle_root a ≡ merkle_root b → a ≡ b }
{}
