//! Where packages are published.

ghost use Rattle.std.specs.Prelude.{◌≡◌, ℕ, ◌≤◌, true, List, Option, Ok, IfSome, is_some};
ghost use Rattle.pkg_names.specs.Streams.{Rose};
ghost use Rattle.pkg_names.specs.declared.pinned.Pinned.{Pinned as PinnedOf};
ghost use Rattle.system_lists.specs.Static.{static_of};
ghost use Rattle.repo_source.specs.declared.file.RepoFile.{RepoFile};
ghost use Rattle.repo_source.specs.Repo.{Fails};
ghost use Rattle.repo_publish.specs.Post.{Puts, IsListing, Has, had, listing_failed, post_failed};

use pkg_names::Root;
use std::alloc::Global;
use system_lists::PinnedList;

/// What a post answers when it is asked for its listing.
#[derive(Debug, Drop)]
pub enum PostListing {
    /// No two of its pairs have one path.
    Have(PinnedList),
    Failed,
    NoMemory,
}

/// What a post answers when something is posted.
#[derive(Clone, Copy, Debug, PartialEq, Eq)]
pub enum PostReply {
    Posted,
    Failed,
    NoMemory,
}

/// A repository that takes blobs and a listing. One that can't tell what it holds, as a folder, has `None` for its
/// listing and its files.
///
/// A call that isn't answered well leaves the listing as it was, but for a list that failed, after which
/// the listing may be any.
pub trait Post {
    /// The root of each path, where the post tells it. No two pairs have one path.
    ghost listing: { Self → Option (List PinnedOf) };

    /// The files, where the post tells them. The first one of a root counts.
    ghost files: { Self → Option (List RepoFile) };

    /// How often it has failed. It stands still at the end of its type.
    ghost faults: { Self → ℕ };

    /// How often a list has failed, each of which is a fault too.
    ghost list_faults: { Self → ℕ };

    /// The listing.
    fn listing(&mut self, alloc: Global) -> PostListing
        ensures have { Has (listing self.old) result }
        ensures faults { Fails (listing_failed result) (faults self.old) (faults self.new) }

        ensures listing { listing self.new ≡ listing self.old }
        ensures files { had result ≡ true → files self.new ≡ files self.old }
        ensures files_told { is_some (files self.new) ≡ is_some (files self.old) }
        ensures list_faults { list_faults self.new ≡ list_faults self.old };

    /// Puts a blob under its root.
    fn blob(&mut self, alloc: Global, root: &Root, bytes: &[u8]) -> PostReply
        ensures posted { result ≡ PostReply.Posted → IfSome (files self.old) (λ before.
            IfSome (files self.new) (Puts root.now bytes.now before)) }
        ensures faults { Fails (post_failed result) (faults self.old) (faults self.new) }

        ensures listing { listing self.new ≡ listing self.old }
        ensures files_told { is_some (files self.new) ≡ is_some (files self.old) }
        ensures list_faults { list_faults self.new ≡ list_faults self.old };

    /// Puts a listing in the place of the one before, by its bytes.
    fn list(&mut self, alloc: Global, bytes: &[u8]) -> PostReply
        requires listing { IsListing bytes.now }
        ensures posted { result ≡ PostReply.Posted
            → IfSome (listing self.new) (λ list. static_of bytes.now ≡ Ok list) }
        ensures kept { result ≡ PostReply.NoMemory → listing self.new ≡ listing self.old }
        ensures faults { Fails (post_failed result) (faults self.old) (faults self.new) }
        ensures list_cause { result ≡ PostReply.Failed → Rose (list_faults self.old) (list_faults self.new) }

        ensures files { result ≡ PostReply.Posted → files self.new ≡ files self.old }
        ensures listing_told { is_some (listing self.new) ≡ is_some (listing self.old) }
        ensures files_told { is_some (files self.new) ≡ is_some (files self.old) }
        ensures list_faults { list_faults self.old ≤ list_faults self.new };
}
