//! A repository in a folder.

ghost use Rattle.std.specs.Prelude.{◌≡◌, ◌↔◌, ◌<◌, ◌≤◌, length, true, false, is_some, None, Ok, Err, IfOk, IfErr, option_and_then};
ghost use Rattle.std.specs.String.{string_bytes};
ghost use Rattle.pkg_names.specs.Streams.{one_more};
ghost use Rattle.repo_source.specs.Repo.{Fails, Fits, fetch_failed, find_failed, listed_root, next_failed, opens};
ghost use Rattle.folder_repo.specs.Folder.{blob_name as name_of_blob, ReadsListing, FetchesFile, Gives, IsLeft, find_reply};

use crate::files::BlobFiles;
use crate::listing::{DirFault, read_listing};
use pkg_names::{PackagePath, Root};
use repo_source::{FetchReply, FindReply, NextReply, Repo};
use std::alloc::{AllocError, Global};
use std::io::{ErrorKind, Read};
use system_lists::PinnedList;

/// A folder whose file `listing` names the root of each package, and whose file `blobs/<root>` is the blob of that
/// root.
///
/// As a repository it doesn't tell what it holds, since a host's file may change. The listing is what was
/// read when it was made. It fails where a blob is no regular file, or can't be opened though it is there,
/// or can't be read.
#[derive(Drop)]
pub struct DirRepo<F: BlobFiles + Drop> {
    files: F,
    folder: String,
    listing: PinnedList,
    opened: Option<F::File>,
    fetches: u64,
    faults: u64,
}

impl<F: BlobFiles + Drop> DirRepo<F> {
    /// The repository in this folder.
    pub fn make(files: F, alloc: Global, folder: &str) -> Result<DirRepo<F>, DirFault>
        ensures listing { IfOk result (λ repo. ReadsListing (F.files files) folder.now (Ok repo.listing)) }
        ensures fault { IfErr result (λ fault. ReadsListing (F.files files) folder.now (Err fault)) }
        ensures files { IfOk result (λ repo. repo.files ≡ files) }
        ensures folder { IfOk result (λ repo. string_bytes repo.folder ≡ folder.now) }
        ensures closed { IfOk result (λ repo. is_some repo.opened ≡ false) }
        ensures fetches { IfOk result (λ repo. repo.fetches ≡ 0) }
        ensures faults { IfOk result (λ repo. repo.faults ≡ 0) }
    {
        let listing = match read_listing(&files, alloc, folder) {
            Ok(listing) => listing,
            Err(fault) => return Err(fault),
        };
        match String::from_str(alloc, folder) {
            Ok(folder) => Ok(DirRepo {
                files,
                folder,
                listing,
                opened: None,
                fetches: 0,
                faults: 0,
            }),
            Err(_) => Err(DirFault::NoMemory),
        }
    }
}

impl<F: BlobFiles + Drop> Repo for DirRepo<F> {
    ghost use Rattle.std.specs.Prelude.{[], is_some, None};

    ghost listing = { λ _. None };

    ghost files = { λ _. None };

    ghost fetches = { λ r. r.fetches };

    ghost faults = { λ r. r.faults };

    ghost is_open = { λ r. is_some r.opened };

    ghost reading = { λ r. record { root = record { 0 = [] }; given = 0 } };

    fn find(&mut self, path: &PackagePath) -> FindReply
        ensures faults { Fails (find_failed result) self.old.faults self.new.faults }

        // The answer is exactly what the listing says that was read, and nothing changes.
        ensures exact { result ≡ find_reply (listed_root self.old.listing path.now) }
        ensures repo { self.new ≡ self.old }
    {
        match root_of(&self.listing, path) {
            Some(root) => FindReply::Found(root),
            None => FindReply::Absent,
        }
    }

    fn fetch(&mut self, alloc: Global, root: &Root) -> FetchReply
        ensures faults { Fails (fetch_failed result) self.old.faults self.new.faults }
        ensures counted { self.new.fetches ≡ one_more self.old.fetches }
        ensures opened { is_some self.new.opened ≡ opens result }

        // A blob is found with the length of its file, and is absent only where there is no such file. What
        // the folder is made of stays.
        ensures file { FetchesFile (F.files self.old.files) (string_bytes self.old.folder) root.now result }
        ensures left { IsLeft (F.files self.old.files) (string_bytes self.old.folder) root.now result
            (option_and_then F.File.Read.remaining self.new.opened) }
        ensures listing_stays { self.new.listing ≡ self.old.listing }
        ensures folder_stays { self.new.folder ≡ self.old.folder }
        ensures files_stay { self.new.files ≡ self.old.files }
    {
        self.fetches = self.fetches.saturating_add(1);
        match open_blob(&self.files, alloc, self.folder.as_str(), root) {
            Ok((file, len)) => {
                self.opened = Some(file);
                FetchReply::Found { len }
            }
            Err(reply) => {
                self.opened = None;
                if reply == FetchReply::Failed {
                    self.faults = self.faults.saturating_add(1);
                }
                reply
            }
        }
    }

    fn next(&mut self, out: &mut [u8]) -> NextReply
        requires open { is_some self.old.opened ≡ true }
        requires room { 0 < length out.old }
        ensures fits { Fits result (length out.old) }
        ensures faults { Fails (next_failed result) self.old.faults self.new.faults }
        ensures fetches { self.new.fetches ≡ self.old.fetches }
        ensures is_open { is_some self.new.opened ≡ is_some self.old.opened }

        // The open file's bytes are given, in order.
        ensures gives { Gives (option_and_then F.File.Read.remaining self.old.opened)
            (option_and_then F.File.Read.remaining self.new.opened) out.new result }
    {
        let Some(file) = &mut self.opened else {
            return NextReply::End;
        };
        match file.read(out) {
            Ok(0) => NextReply::End,
            Ok(count) => NextReply::Given { count },
            Err(_) => {
                self.faults = self.faults.saturating_add(1);
                NextReply::Failed
            }
        }
    }
}

// The root that the listing has for a path.
fn root_of(listing: &PinnedList, path: &PackagePath) -> Option<Root>
    ensures { result ≡ listed_root listing.now path.now }
{
    listing
        .as_slice()
        .iter()
        .find(|entry| entry.path == *path)
        .map(|entry| entry.root)
}

// A blob's file, with its length. Where it isn't opened, what is answered.
fn open_blob<F: BlobFiles>(
    files: &F,
    alloc: Global,
    folder: &str,
    root: &Root,
) -> Result<(F::File, u64), FetchReply>
    ensures opened { IfOk result (λ opened.
        FetchesFile (F.files files.now) folder.now root.now (FetchReply.Found opened.1)) }
    ensures left { IfOk result (λ opened. IsLeft (F.files files.now) folder.now root.now (FetchReply.Found opened.1)
        (F.File.Read.remaining opened.0)) }
    ensures refused { IfErr result (λ reply. FetchesFile (F.files files.now) folder.now root.now reply) }
    ensures closed { IfErr result (λ reply. opens reply ≡ false) }
{
    let Ok(name) = blob_name(alloc, folder, root) else {
        return Err(FetchReply::NoMemory);
    };
    match files.open(name.as_str()) {
        Ok((file, len)) => Ok((file, len)),
        Err(e) => Err(reply_of(e.kind())),
    }
}

// `<folder>/blobs/<root>`.
fn blob_name(alloc: Global, folder: &str, root: &Root) -> Result<String, AllocError>
    ensures { IfOk result (λ name. string_bytes name ≡ name_of_blob folder.now root.now) }
{
    let digits = hex::encode(alloc, root.0)?;
    let mut name = String::from_str(alloc, folder)?;
    name.push_str("/blobs/")?;
    name.push_str(digits.as_str())?;
    Ok(name)
}

// What is answered of a file that could not be opened.
fn reply_of(kind: ErrorKind) -> FetchReply
    ensures closed { opens result ≡ false }
    ensures absent { (result ≡ FetchReply.Absent) ↔ (kind ≡ ErrorKind.NotFound) }
    ensures memory { (result ≡ FetchReply.NoMemory) ↔ (kind ≡ ErrorKind.OutOfMemory) }
{
    match kind {
        ErrorKind::NotFound => FetchReply::Absent,
        ErrorKind::OutOfMemory => FetchReply::NoMemory,
        _ => FetchReply::Failed,
    }
}
