//! A post in memory that tells what it holds, and fails where it is told to.

ghost use Rattle.std.specs.Prelude.{◌≡◌, ◌↔◌, ◌≤◌, List, Some, Ok, IfOk, OnOk, OnErr, vec_items};
ghost use Rattle.std.specs.List.{position};
ghost use Rattle.pkg_names.specs.Root.{root_eq};
ghost use Rattle.pkg_names.specs.Streams.{Rose};
ghost use Rattle.pkg_names.specs.MemoryStreams.{IsListed};
ghost use Rattle.pkg_names.specs.declared.pinned.Pinned.{Pinned as PinnedOf};
ghost use Rattle.system_lists.specs.Static.{static_of};
ghost use Rattle.repo_source.specs.declared.file.RepoFile.{RepoFile as FileOf};
ghost use Rattle.repo_source.specs.MemoryRepo.{new_repo};
ghost use Rattle.repo_source.specs.Repo.{Fails};
ghost use Rattle.repo_publish.specs.Post.{Puts, NamesOnce, IsListing, Has, listing_failed, post_failed};
ghost use Rattle.repo_publish.specs.Memory.{put_blob, after_listing, after_blob, after_list};

use crate::memory_tree::count_call;
use crate::post::{Post, PostListing, PostReply};
use pkg_names::{Bytes, Items, Pinned, Root};
use repo_source::{MemRepo, RepoFile};
use std::alloc::{AllocError, Global};
use std::marker::Model;
use system_lists::{StaticFault, read_static, texts_stand_for_what_is_read};

/// A post in memory. Its calls are counted from 1, and those whose number is listed fail, and change nothing.
#[derive(Debug, Drop)]
pub struct MemPost {
    listing: Vec<Pinned>,
    files: Vec<RepoFile>,
    failing: Vec<u64>,
    calls: u64,
    faults: u64,
    list_faults: u64,
}

impl Model for MemPost {
    ghost use Rattle.repo_publish.specs.Post.{NamesOnce};
    ghost use Rattle.repo_publish.specs.Memory.{PostInMemory};

    ghost Value = { PostInMemory };

    ghost view = { λ p. record {
      listing = p.listing.items;
      files = p.files.items;
      failing = p.failing.items;
      calls = p.calls;
      faults = p.faults;
      list_faults = p.list_faults;
    } };

    ghost invariant = { λ p. NamesOnce p.listing.items };
}

impl MemPost {
    /// A post with this listing and these files, whose listed calls fail.
    pub fn make(listing: Vec<Pinned>, files: Vec<RepoFile>, failing: Vec<u64>) -> MemPost
        requires once { NamesOnce listing.items }
        ensures made { result ≡ record {
          listing = listing.items;
          files = files.items;
          failing = failing.items;
          calls = 0;
          faults = 0;
          list_faults = 0;
        } }
    {
        MemPost {
            listing,
            files,
            failing,
            calls: 0,
            faults: 0,
            list_faults: 0,
        }
    }

    /// A repository with the listing and the files, whose listed calls fail.
    pub fn into_repo(self, failing: Vec<u64>) -> MemRepo
        ensures made { result ≡ new_repo self.listing self.files failing.items }
    {
        MemRepo::make(self.listing, self.files, failing)
    }

    /// How often it has failed.
    pub fn faults(&self) -> u64
        ensures faults { result ≡ self.now.faults }
    {
        self.faults
    }
}

impl Post for MemPost {
    ghost use Rattle.std.specs.Prelude.{Some};

    ghost listing = { λ p. Some p.listing };

    ghost files = { λ p. Some p.files };

    ghost faults = { λ p. p.faults };

    ghost list_faults = { λ p. p.list_faults };

    fn listing(&mut self, alloc: Global) -> PostListing
        ensures have { Has (Some self.old.listing) result }
        ensures faults { Fails (listing_failed result) self.old.faults self.new.faults }
        ensures listing { self.new.listing ≡ self.old.listing }
        ensures files { self.new.files ≡ self.old.files }
        ensures list_faults { self.new.list_faults ≡ self.old.list_faults }

        // A listed call fails, and no other. The whole post after the call.
        ensures listed { (result ≡ PostListing.Failed) ↔ IsListed self.old.failing self.old.calls }
        ensures post { self.new ≡ after_listing result self.old }
    {
        if count_call(&self.failing, &mut self.calls, &mut self.faults) {
            return PostListing::Failed;
        }
        match copy_listing(alloc, &self.listing) {
            Ok(listing) => PostListing::Have(Items::make(listing)),
            Err(_) => PostListing::NoMemory,
        }
    }

    fn blob(&mut self, alloc: Global, root: &Root, bytes: &[u8]) -> PostReply
        ensures posted { result ≡ PostReply.Posted → Puts root.now bytes.now self.old.files self.new.files }
        ensures faults { Fails (post_failed result) self.old.faults self.new.faults }
        ensures listing { self.new.listing ≡ self.old.listing }
        ensures list_faults { self.new.list_faults ≡ self.old.list_faults }

        // A listed call fails, and no other. The whole post after the call.
        ensures listed { (result ≡ PostReply.Failed) ↔ IsListed self.old.failing self.old.calls }
        ensures post { self.new ≡ after_blob result root.now bytes.now self.old }
    {
        if count_call(&self.failing, &mut self.calls, &mut self.faults) {
            return PostReply::Failed;
        }
        match put_blob(alloc, &mut self.files, root, bytes) {
            Ok(()) => PostReply::Posted,
            Err(_) => PostReply::NoMemory,
        }
    }

    fn list(&mut self, alloc: Global, bytes: &[u8]) -> PostReply
        requires listing { IsListing bytes.now }
        ensures posted { result ≡ PostReply.Posted → static_of bytes.now ≡ Ok self.new.listing }
        ensures kept { result ≡ PostReply.NoMemory → self.new.listing ≡ self.old.listing }
        ensures faults { Fails (post_failed result) self.old.faults self.new.faults }
        ensures list_cause { result ≡ PostReply.Failed → Rose self.old.list_faults self.new.list_faults }
        ensures list_faults { self.old.list_faults ≤ self.new.list_faults }
        ensures files { self.new.files ≡ self.old.files }

        // A listed call fails, and no other. The whole post after the call.
        ensures listed { (result ≡ PostReply.Failed) ↔ IsListed self.old.failing self.old.calls }
        ensures post { (list : List PinnedOf) → static_of bytes.now ≡ Ok list
            → self.new ≡ after_list result list self.old }
    {
        texts_stand_for_what_is_read();
        if count_call(&self.failing, &mut self.calls, &mut self.faults) {
            self.list_faults = self.list_faults.saturating_add(1);
            return PostReply::Failed;
        }
        match read_static(alloc, bytes) {
            Ok(list) => {
                self.listing = list.into_vec();
                PostReply::Posted
            }
            Err(StaticFault::NoMemory) => PostReply::NoMemory,
            Err(StaticFault::Line { n: _ }) => unreachable!(),
            Err(StaticFault::Repeat { n: _ }) => unreachable!(),
        }
    }
}

// An equal listing.
fn copy_listing(alloc: Global, listing: &[Pinned]) -> Result<Vec<Pinned>, AllocError>
    ensures same { IfOk result (λ copy. copy.items ≡ listing.now) }
{
    let mut copy = Vec::with_capacity(alloc, listing.len())?;
    for entry in listing {
        copy.push(Pinned {
            path: entry.path.try_copy(alloc)?,
            root: entry.root,
        })?;
    }
    Ok(copy)
}

// Puts a blob in the place of the first one under its root, or last. Where memory is short nothing changes.
fn put_blob(
    alloc: Global,
    files: &mut Vec<RepoFile>,
    root: &Root,
    bytes: &[u8],
) -> Result<(), AllocError>
    ensures ok { OnOk result (files.new.items ≡ put_blob root.now bytes.now files.old.items) }
    ensures err { OnErr result (files.new.items ≡ files.old.items) }
{
    let file = RepoFile {
        root: *root,
        len: bytes.len() as u64,
        bytes: Bytes::make(Vec::from_slice(alloc, bytes)?),
    };
    match place_of(files, root) {
        Some(place) => {
            files[place] = file;
            Ok(())
        }
        None => {
            files.push(file)?;
            Ok(())
        }
    }
}

// The place of the first file under this root.
fn place_of(files: &[RepoFile], root: &Root) -> Option<usize>
    ensures { result ≡ position (λ (file : FileOf). root_eq file.root root.now) files.now }
{
    files.iter().position(|file| file.root == *root)
}
