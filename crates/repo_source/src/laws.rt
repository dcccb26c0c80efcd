//! Laws of fetches. The function has an empty body: its contract is the law.

ghost use Rattle.std.specs.Prelude.{◌≡◌, ℕ, ◌+◌, ◌≤◌, List, ◌++◌, length, take, IfSome};
ghost use Rattle.pkg_names.specs.declared.root.Root.{Root};
ghost use Rattle.pkg_merkle.specs.Merkle.{merkle_root};
ghost use Rattle.repo_source.specs.declared.file.RepoFile.{RepoFile};
ghost use Rattle.repo_source.specs.Repo.{file_under, HasHonest, IsPiece, Fetches};

use crate::repo::FetchReply;

/// What the pieces of a fetch come to. What was given and a piece are what is given then, and at the end
/// that is the whole file. Where the file under a root is honest, the length that is declared is that of
/// its bytes, and these have the root that was asked for.
pub fn pieces_make_the_file()
    ensures piece { (bytes out : List ℕ) (given count : ℕ) → IsPiece bytes given count out
        → take (given + count) bytes ≡ take given bytes ++ take count out }
    ensures end { (bytes : List ℕ) (given : ℕ) → length bytes ≤ given → take given bytes ≡ bytes }
    ensures honest { (files : List RepoFile) (root : Root) (len : ℕ) → HasHonest files root
        → Fetches files root (FetchReply.Found len)
        → IfSome (file_under files root) (λ file. (length file.bytes ≡ len) × (merkle_root file.bytes ≡ root)) }
{}
