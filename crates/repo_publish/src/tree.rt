//! The files that are to be published.

ghost use Rattle.std.specs.Prelude.{◌≡◌, ℕ, List, Option, is_some};
ghost use Rattle.far_archive.specs.declared.write.FarEntry.{FarEntry as EntryOf};
ghost use Rattle.repo_source.specs.Repo.{Fails};
ghost use Rattle.repo_publish.specs.Tree.{Takes, tree_failed};

use far_archive::FarEntry;
use std::alloc::Global;

/// What a tree answers when it is asked for its next file.
#[derive(Debug, Drop)]
pub enum TreeReply {
    File(FarEntry),
    End,
    Failed,
    NoMemory,
}

/// Files that come one after another. One that can't tell them, as a folder, has `None` for what is left.
pub trait Tree {
    /// The files that are left, where the tree tells them.
    ghost left: { Self → Option (List EntryOf) };

    /// How often it has failed. It stands still at the end of its type.
    ghost faults: { Self → ℕ };

    /// The next file. An answer without one that isn't the end says nothing of the files left.
    fn next(&mut self, alloc: Global) -> TreeReply
        ensures took { Takes (left self.old) result (left self.new) }
        ensures told { is_some (left self.new) ≡ is_some (left self.old) }
        ensures faults { Fails (tree_failed result) (faults self.old) (faults self.new) };
}
