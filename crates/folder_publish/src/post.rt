//! A repository in a folder, into which is published.

ghost use Rattle.std.specs.Prelude.{◌≡◌, ◌↔◌, ◌≤◌, ◌++◌, true, None, Some, IfOk, is_ok, is_some};
ghost use Rattle.std.specs.String.{string_bytes};
ghost use Rattle.pkg_names.specs.Streams.{Rose};
ghost use Rattle.folder_repo.specs.Folder.{blob_name as name_of_blob, listing_name as name_of_listing};
ghost use Rattle.repo_source.specs.Repo.{Fails};
ghost use Rattle.repo_publish.specs.Post.{Has, IsListing, listing_failed, post_failed};
ghost use Rattle.folder_publish.specs.Post.{blob_beside, listing_beside, AnswersListing, PutsIf, is_posted};
ghost use Rattle.folder_publish.specs.declared.post.PutFault.TheVariants as faults;

use crate::files::PutFiles;
use folder_repo::{DirFault, read_listing};
use pkg_names::Root;
use repo_publish::{Post, PostListing, PostReply};
use std::alloc::{AllocError, Global};
use std::io::ErrorKind;

/// What failed last in a repository's folder.
#[derive(Clone, Copy, Debug, PartialEq, Eq)]
pub enum PostTrouble {
    /// Its listing isn't there, is no regular file, or could not be read.
    NoListing,
    /// The line of the listing, counted from 1, is bad; or the listing is too long, which is told as line 0.
    BadListing { line: u32 },
    /// The blob of this root could not be put.
    Blob { root: Root },
    /// The listing could not be put.
    List,
}

/// A folder as [repositories are](folder_repo::DirRepo), into which is published.
///
/// As a post it doesn't tell what it holds, since a host's file may change. Each file is made whole beside its
/// place, as `blobs/new` or `listing.new`, and then put there in one step, the listing synced before. So two
/// publications into one folder may not go on at once.
#[derive(Drop)]
pub struct FolderPost<'a, F: PutFiles + Drop> {
    files: F,
    folder: &'a str,
    trouble: Option<PostTrouble>,
    faults: u64,
    list_faults: u64,
}

impl<'a, F: PutFiles + Drop> FolderPost<'a, F> {
    /// The repository in this folder.
    pub fn attach(files: F, folder: &'a str) -> FolderPost<'a, F>
        ensures files { result.files ≡ files }
        ensures folder { result.folder.now ≡ folder.now }
        ensures trouble { result.trouble ≡ None }
        ensures faults { result.faults ≡ 0 }
        ensures list_faults { result.list_faults ≡ 0 }
    {
        FolderPost {
            files,
            folder,
            trouble: None,
            faults: 0,
            list_faults: 0,
        }
    }

    /// What failed last, if anything has.
    pub fn trouble(&self) -> Option<PostTrouble>
        ensures { result ≡ self.now.trouble }
    {
        self.trouble
    }

    /// How often it has failed.
    pub fn faults(&self) -> u64
        ensures { result ≡ self.now.faults }
    {
        self.faults
    }
}

impl<F: PutFiles + Drop> Post for FolderPost<'_, F> {
    ghost use Rattle.std.specs.Prelude.{None};

    ghost listing = { λ _. None };

    ghost files = { λ _. None };

    ghost faults = { λ p. p.faults };

    ghost list_faults = { λ p. p.list_faults };

    fn listing(&mut self, alloc: Global) -> PostListing
        ensures have { Has None result }
        ensures faults { Fails (listing_failed result) self.old.faults self.new.faults }
        ensures list_faults { self.new.list_faults ≡ self.old.list_faults }

        // The answer is what the listing's file says, and no file changes.
        ensures answer { AnswersListing (F.files self.old.files) self.old.folder.now result self.old.trouble
            self.new.trouble }
        ensures files_stay { self.new.files ≡ self.old.files }
        ensures folder_stays { self.new.folder.now ≡ self.old.folder.now }
    {
        match read_listing(&self.files, alloc, self.folder) {
            Ok(listing) => PostListing::Have(listing),
            Err(DirFault::Unreadable) => {
                self.fail(PostTrouble::NoListing);
                PostListing::Failed
            }
            Err(DirFault::BadListing { line }) => {
                self.fail(PostTrouble::BadListing { line });
                PostListing::Failed
            }
            Err(DirFault::NoMemory) => PostListing::NoMemory,
        }
    }

    fn blob(&mut self, alloc: Global, root: &Root, bytes: &[u8]) -> PostReply
        ensures faults { Fails (post_failed result) self.old.faults self.new.faults }
        ensures list_faults { self.new.list_faults ≡ self.old.list_faults }

        // The blob is put under its root, whole or not at all. All other files stay.
        ensures puts { PutsIf (is_posted result) (F.files self.old.files) (blob_beside self.old.folder.now)
            (name_of_blob self.old.folder.now root.now) bytes.now (F.files self.new.files) }
        ensures files_told { is_some (F.files self.new.files) ≡ is_some (F.files self.old.files) }
        ensures failed { result ≡ PostReply.Failed → self.new.trouble ≡ Some (PostTrouble.Blob root.now) }
        ensures folder_stays { self.new.folder.now ≡ self.old.folder.now }
    {
        match put_blob(&mut self.files, alloc, self.folder, root, bytes) {
            Ok(()) => PostReply::Posted,
            Err(PutFault::Failed) => {
                self.fail(PostTrouble::Blob { root: *root });
                PostReply::Failed
            }
            Err(PutFault::NoMemory) => PostReply::NoMemory,
        }
    }

    fn list(&mut self, alloc: Global, bytes: &[u8]) -> PostReply
        requires listing { IsListing bytes.now }
        ensures faults { Fails (post_failed result) self.old.faults self.new.faults }
        ensures list_cause { result ≡ PostReply.Failed → Rose self.old.list_faults self.new.list_faults }
        ensures list_faults { self.old.list_faults ≤ self.new.list_faults }

        // The listing is put, whole or not at all. All other files stay.
        ensures puts { PutsIf (is_posted result) (F.files self.old.files) (listing_beside self.old.folder.now)
            (name_of_listing self.old.folder.now) bytes.now (F.files self.new.files) }
        ensures files_told { is_some (F.files self.new.files) ≡ is_some (F.files self.old.files) }
        ensures failed { result ≡ PostReply.Failed → self.new.trouble ≡ Some PostTrouble.List }
        ensures folder_stays { self.new.folder.now ≡ self.old.folder.now }
    {
        match put_listing(&mut self.files, alloc, self.folder, bytes) {
            Ok(()) => PostReply::Posted,
            Err(PutFault::Failed) => {
                self.fail(PostTrouble::List);
                self.list_faults = self.list_faults.saturating_add(1);
                PostReply::Failed
            }
            Err(PutFault::NoMemory) => PostReply::NoMemory,
        }
    }
}

impl<F: PutFiles + Drop> FolderPost<'_, F> {
    // It failed so.
    fn fail(&mut self, trouble: PostTrouble)
        ensures trouble { self.new.trouble ≡ Some trouble }
        ensures faults { Fails true self.old.faults self.new.faults }
        ensures list_faults { self.new.list_faults ≡ self.old.list_faults }
        ensures files_stay { self.new.files ≡ self.old.files }
        ensures folder_stays { self.new.folder.now ≡ self.old.folder.now }
    {
        self.trouble = Some(trouble);
        self.faults = self.faults.saturating_add(1);
    }
}

// Why a file could not be put.
#[derive(Clone, Copy, Debug, PartialEq, Eq)]
pub(crate) enum PutFault {
    Failed,
    NoMemory,
}

impl From<AllocError> for PutFault {
    ghost from_gives = { λ _ e. e ≡ faults.NoMemory };

    fn from(_e: AllocError) -> PutFault {
        PutFault::NoMemory
    }
}

// Puts a blob under its root.
fn put_blob<F: PutFiles>(
    files: &mut F,
    alloc: Global,
    folder: &str,
    root: &Root,
    bytes: &[u8],
) -> Result<(), PutFault>
    ensures puts { PutsIf (is_ok result) (F.files files.old) (blob_beside folder.now)
        (name_of_blob folder.now root.now) bytes.now (F.files files.new) }
    ensures told { is_some (F.files files.new) ≡ is_some (F.files files.old) }
{
    let name = blob_name(alloc, folder, root)?;
    let beside = below(alloc, folder, "/blobs/new")?;
    match files.put(beside.as_str(), name.as_str(), bytes, false) {
        Ok(()) => Ok(()),
        Err(e) => Err(fault_of(e.kind())),
    }
}

// Puts a listing.
fn put_listing<F: PutFiles>(
    files: &mut F,
    alloc: Global,
    folder: &str,
    bytes: &[u8],
) -> Result<(), PutFault>
    ensures puts { PutsIf (is_ok result) (F.files files.old) (listing_beside folder.now)
        (name_of_listing folder.now) bytes.now (F.files files.new) }
    ensures told { is_some (F.files files.new) ≡ is_some (F.files files.old) }
{
    let name = below(alloc, folder, "/listing")?;
    let beside = below(alloc, folder, "/listing.new")?;
    match files.put(beside.as_str(), name.as_str(), bytes, true) {
        Ok(()) => Ok(()),
        Err(e) => Err(fault_of(e.kind())),
    }
}

// A folder's name with this behind it.
fn below(alloc: Global, folder: &str, rest: &str) -> Result<String, AllocError>
    ensures { IfOk result (λ name. string_bytes name ≡ folder.now ++ rest.now) }
{
    let mut name = String::from_str(alloc, folder)?;
    name.push_str(rest)?;
    Ok(name)
}

// `<folder>/blobs/<root>`.
fn blob_name(alloc: Global, folder: &str, root: &Root) -> Result<String, AllocError>
    ensures { IfOk result (λ name. string_bytes name ≡ name_of_blob folder.now root.now) }
{
    let digits = hex::encode(alloc, root.0)?;
    let mut name = below(alloc, folder, "/blobs/")?;
    name.push_str(digits.as_str())?;
    Ok(name)
}

fn fault_of(kind: ErrorKind) -> PutFault
    ensures { (result ≡ faults.NoMemory) ↔ (kind ≡ ErrorKind.OutOfMemory) }
{
    match kind {
        ErrorKind::OutOfMemory => PutFault::NoMemory,
        _ => PutFault::Failed,
    }
}
