//! What a repository promises.

ghost use Rattle.std.specs.Prelude.{◌≡◌, ℕ, ◌<◌, Bool, true, List, length, Option, IfSome};
ghost use Rattle.pkg_names.specs.Streams.{one_more};
ghost use Rattle.pkg_names.specs.declared.pinned.Pinned.{Pinned};
ghost use Rattle.repo_source.specs.declared.file.RepoFile.{RepoFile};
ghost use Rattle.repo_source.specs.Repo.{Reading, Fails, Finds, Fetches, Continues, Fits, find_failed, fetch_failed, next_failed, opens, begun, advanced};

use pkg_names::{PackagePath, Root};
use std::alloc::Global;

/// What a repository answers for a path.
#[derive(Clone, Copy, Debug, PartialEq, Eq)]
pub enum FindReply {
    Found(Root),
    Absent,
    Failed,
}

/// What a repository answers for a root.
#[derive(Clone, Copy, Debug, PartialEq, Eq)]
pub enum FetchReply {
    /// The length that the file is declared to have, in bytes.
    Found { len: u64 },
    Absent,
    Failed,
    NoMemory,
}

/// What a repository answers when it is asked for the next bytes.
#[derive(Clone, Copy, Debug, PartialEq, Eq)]
pub enum NextReply {
    /// So many bytes were put.
    Given { count: usize },
    End,
    Failed,
}

/// A repository: a listing that names the root of each package, and files by root. It serves one lane.
/// One that can't tell what it holds, as a folder, has `None` for its listing and its files.
pub trait Repo {
    /// The root of each path, where the repository tells it. The first entry of a path counts.
    ghost listing: { Self → Option (List Pinned) };

    /// The files, where the repository tells them. The first one of a root counts.
    ghost files: { Self → Option (List RepoFile) };

    /// How often it was asked to fetch. It stands still at the end of its type.
    ghost fetches: { Self → ℕ };

    /// How often it has failed: each answer that says so counts once, and nothing else does. It stands still at
    /// the end of its type.
    ghost faults: { Self → ℕ };

    /// Whether a fetch is open.
    ghost is_open: { Self → Bool };

    /// What the open fetch reads. It says nothing where no fetch is open, or the files aren't told.
    ghost reading: { Self → Reading };

    /// The root of a path.
    fn find(&mut self, path: &PackagePath) -> FindReply
        ensures found { IfSome (listing self.old) (λ all. Finds all path.now result) }
        ensures faults { Fails (find_failed result) (faults self.old) (faults self.new) }

        ensures listing { listing self.new ≡ listing self.old }
        ensures files { files self.new ≡ files self.old }
        ensures fetches { fetches self.new ≡ fetches self.old }
        ensures is_open { is_open self.new ≡ is_open self.old }
        ensures reading { IfSome (files self.old) (λ _. reading self.new ≡ reading self.old) };

    /// Opens a fetch of the file under a root.
    fn fetch(&mut self, alloc: Global, root: &Root) -> FetchReply
        ensures found { IfSome (files self.old) (λ all. Fetches all root.now result) }
        ensures faults { Fails (fetch_failed result) (faults self.old) (faults self.new) }

        ensures counted { fetches self.new ≡ one_more (fetches self.old) }
        ensures opened { is_open self.new ≡ opens result }
        ensures begun { IfSome (files self.old)
            (λ _. reading self.new ≡ begun (reading self.old) root.now result) }

        ensures listing { listing self.new ≡ listing self.old }
        ensures files { files self.new ≡ files self.old };

    /// Puts the next bytes of the open fetch at the front of `out`.
    fn next(&mut self, out: &mut [u8]) -> NextReply
        requires open { is_open self.old ≡ true }
        requires room { 0 < length out.old }
        ensures fits { Fits result (length out.old) }
        ensures given { IfSome (files self.old) (λ all. Continues all (reading self.old) out.new result) }
        ensures faults { Fails (next_failed result) (faults self.old) (faults self.new) }

        ensures advanced { IfSome (files self.old)
            (λ _. reading self.new ≡ advanced (reading self.old) result) }

        ensures listing { listing self.new ≡ listing self.old }
        ensures files { files self.new ≡ files self.old }
        ensures fetches { fetches self.new ≡ fetches self.old }
        ensures is_open { is_open self.new ≡ is_open self.old };
}
