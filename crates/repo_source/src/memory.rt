//! A repository in memory that tells what it holds, and fails where it is told to.

ghost use Rattle.std.specs.Prelude.{◌≡◌, ◌≢◌, ◌↔◌, ◌<◌, ◌≤◌, ◌+◌, ◌-◌, ◌^◌, ◌++◌, min, true, if◌then◌else◌, length, take, drop, Some, IfOk, IfSome, IsTrue, option_copied};
ghost use Rattle.std.specs.List.{Contains};
ghost use Rattle.pkg_names.specs.Streams.{one_more};
ghost use Rattle.pkg_names.specs.MemoryStreams.{IsListed};
ghost use Rattle.repo_source.specs.Repo.{Fails, Finds, Fetches, Continues, Fits, find_failed, fetch_failed, next_failed, opens, begun, advanced, count_of, listed_root, file_under};
ghost use Rattle.repo_source.specs.MemoryRepo.{new_repo, IsLongest, after_find, after_fetch, after_next, bytes_left};

use crate::file::RepoFile;
use crate::repo::{FetchReply, FindReply, NextReply, Repo};
use pkg_names::{PackagePath, Pinned, Root};
use std::alloc::{AllocError, Global};
use std::marker::Model;

/// A repository in memory. Its calls are counted from 1, and those whose number is listed fail.
#[derive(Debug, Drop)]
pub struct MemRepo {
    listing: Vec<Pinned>,
    files: Vec<RepoFile>,
    failing: Vec<u64>,
    calls: u64,
    fetches: u64,
    faults: u64,
    is_open: bool,
    root: Root,
    given: usize,
}

impl Model for MemRepo {
    ghost use Rattle.repo_source.specs.MemoryRepo.{RepoInMemory};

    ghost Value = { RepoInMemory };

    ghost view = { λ r. record {
      listing = r.listing.items;
      files = r.files.items;
      failing = r.failing.items;
      calls = r.calls;
      fetches = r.fetches;
      faults = r.faults;
      is_open = r.is_open;
      reading = record { root = r.root; given = r.given };
    } };
}

impl MemRepo {
    /// A repository with this listing and these files, whose listed calls fail.
    pub fn make(listing: Vec<Pinned>, files: Vec<RepoFile>, failing: Vec<u64>) -> MemRepo
        ensures made { result ≡ new_repo listing.items files.items failing.items }
    {
        MemRepo {
            listing,
            files,
            failing,
            calls: 0,
            fetches: 0,
            faults: 0,
            is_open: false,
            root: Root([0; 32]),
            given: 0,
        }
    }

    /// An equal repository, with its counts and its open fetch.
    pub fn try_copy(&self, alloc: Global) -> Result<MemRepo, AllocError>
        ensures same { IfOk result (λ repo. repo ≡ self.now) }
    {
        Ok(MemRepo {
            listing: copy_listing(alloc, &self.listing)?,
            files: copy_files(alloc, &self.files)?,
            failing: Vec::from_slice(alloc, &self.failing)?,
            ..*self
        })
    }

    /// How often it was asked to fetch.
    pub fn fetches(&self) -> u64
        ensures fetches { result ≡ self.now.fetches }
    {
        self.fetches
    }

    /// How often it has failed.
    pub fn faults(&self) -> u64
        ensures faults { result ≡ self.now.faults }
    {
        self.faults
    }
}

// Counts a call. Whether it is to fail.
fn count_call(failing: &[u64], calls: &mut u64, faults: &mut u64) -> bool
    ensures listed { IsTrue result ↔ IsListed failing.now calls.old }
    ensures calls { calls.new ≡ one_more calls.old }
    ensures faults { faults.new ≡ if result then one_more faults.old else faults.old }
    ensures failed { Fails result faults.old faults.new }
{
    *calls = calls.saturating_add(1);
    let fails = failing.contains(calls);
    if fails {
        *faults = faults.saturating_add(1);
    }
    fails
}

fn copy_listing(alloc: Global, listing: &[Pinned]) -> Result<Vec<Pinned>, AllocError>
    ensures same { IfOk result (λ copy. copy.items ≡ listing.now) }
{
    let mut copy = Vec::with_capacity(alloc, listing.len())?;
    for entry in listing {
        copy.push(Pinned {
            path: entry.path.try_copy(alloc)?,
            root: entry.root,
        })?;
    }
    Ok(copy)
}

fn copy_files(alloc: Global, files: &[RepoFile]) -> Result<Vec<RepoFile>, AllocError>
    ensures same { IfOk result (λ copy. copy.items ≡ files.now) }
{
    let mut copy = Vec::with_capacity(alloc, files.len())?;
    for file in files {
        copy.push(file.try_copy(alloc)?)?;
    }
    Ok(copy)
}

// The root of the first entry of this path.
fn listed_root(listing: &[Pinned], path: &PackagePath) -> Option<Root>
    ensures { result ≡ listed_root listing.now path.now }
{
    listing
        .iter()
        .find(|entry| entry.path == *path)
        .map(|entry| entry.root)
}

// The first file under this root.
fn file_under<'a>(files: &'a [RepoFile], root: &Root) -> Option<&'a RepoFile>
    ensures { option_copied result ≡ file_under files.now root.now }
{
    files.iter().find(|file| file.root == *root)
}

// What is left of these bytes, once so many were given.
fn rest(bytes: &[u8], given: usize) -> &[u8]
    ensures left { result.now ≡ drop given bytes.now }
    ensures small { given + length result.now < 2 ^ 64 }
{
    if given < bytes.len() {
        &bytes[given..]
    } else {
        &[]
    }
}

// What is left of the file under this root.
fn bytes_left<'a>(files: &'a [RepoFile], root: &Root, given: usize) -> &'a [u8]
    ensures left { result.now ≡ bytes_left files.now (record { root = root.now; given = given }) }
    ensures small { given + length result.now < 2 ^ 64 }
{
    match file_under(files, root) {
        Some(file) => rest(file.bytes.as_slice(), given),
        None => &[],
    }
}

// Copies the front of what is left into out, as much as there is and fits.
fn copy_front(left: &[u8], out: &mut [u8]) -> usize
    ensures count { result ≡ min (length left.now) (length out.old) }
    ensures copied { out.new ≡ take result left.now ++ drop result out.old }
{
    let count = left.len().min(out.len());
    out[..count].copy_from_slice(&left[..count]);
    count
}

impl Repo for MemRepo {
    ghost use Rattle.std.specs.Prelude.{Some};

    ghost listing = { λ r. Some r.listing };

    ghost files = { λ r. Some r.files };

    ghost fetches = { λ r. r.fetches };

    ghost faults = { λ r. r.faults };

    ghost is_open = { λ r. r.is_open };

    ghost reading = { λ r. r.reading };

    fn find(&mut self, path: &PackagePath) -> FindReply
        ensures found { Finds self.old.listing path.now result }
        ensures faults { Fails (find_failed result) self.old.faults self.new.faults }
        ensures listing { self.new.listing ≡ self.old.listing }
        ensures files { self.new.files ≡ self.old.files }
        ensures fetches { self.new.fetches ≡ self.old.fetches }
        ensures is_open { self.new.is_open ≡ self.old.is_open }
        ensures reading { self.new.reading ≡ self.old.reading }

        // A listed call fails, and no other. The whole repository after the call.
        ensures listed { (result ≡ FindReply.Failed) ↔ IsListed self.old.failing self.old.calls }
        ensures repo { self.new ≡ after_find result self.old }
    {
        if count_call(&self.failing, &mut self.calls, &mut self.faults) {
            return FindReply::Failed;
        }
        match listed_root(&self.listing, path) {
            Some(root) => FindReply::Found(root),
            None => FindReply::Absent,
        }
    }

    fn fetch(&mut self, alloc: Global, root: &Root) -> FetchReply
        ensures found { Fetches self.old.files root.now result }
        ensures faults { Fails (fetch_failed result) self.old.faults self.new.faults }
        ensures counted { self.new.fetches ≡ one_more self.old.fetches }
        ensures opened { self.new.is_open ≡ opens result }
        ensures begun { self.new.reading ≡ begun self.old.reading root.now result }
        ensures listing { self.new.listing ≡ self.old.listing }
        ensures files { self.new.files ≡ self.old.files }

        // A listed call fails, and no other; none wants memory. The whole repository after the call.
        ensures listed { (result ≡ FetchReply.Failed) ↔ IsListed self.old.failing self.old.calls }
        ensures memory { result ≢ FetchReply.NoMemory }
        ensures repo { self.new ≡ after_fetch root.now result self.old }
    {
        self.fetches = self.fetches.saturating_add(1);
        self.is_open = false;
        if count_call(&self.failing, &mut self.calls, &mut self.faults) {
            return FetchReply::Failed;
        }
        let len = match file_under(&self.files, root) {
            Some(file) => file.len,
            None => return FetchReply::Absent,
        };
        self.is_open = true;
        self.root = *root;
        self.given = 0;
        FetchReply::Found { len }
    }

    /// It gives as many bytes as are left and fit, and touches nothing behind them.
    fn next(&mut self, out: &mut [u8]) -> NextReply
        requires open { self.old.is_open ≡ true }
        requires room { 0 < length out.old }
        ensures fits { Fits result (length out.old) }
        ensures given { Continues self.old.files self.old.reading out.new result }
        ensures faults { Fails (next_failed result) self.old.faults self.new.faults }
        ensures advanced { self.new.reading ≡ advanced self.old.reading result }
        ensures listing { self.new.listing ≡ self.old.listing }
        ensures files { self.new.files ≡ self.old.files }
        ensures fetches { self.new.fetches ≡ self.old.fetches }
        ensures is_open { self.new.is_open ≡ self.old.is_open }

        // A listed call fails, and no other. The whole repository after the call.
        ensures listed { (result ≡ NextReply.Failed) ↔ IsListed self.old.failing self.old.calls }
        ensures repo { self.new ≡ after_next result self.old }

        // A piece is as long as can be, and nothing is written behind it.
        ensures longest { IsLongest result (bytes_left self.old.files self.old.reading) (length out.old) }
        ensures rest { drop (count_of result) out.new ≡ drop (count_of result) out.old }
    {
        if count_call(&self.failing, &mut self.calls, &mut self.faults) {
            return NextReply::Failed;
        }
        let count = copy_front(bytes_left(&self.files, &self.root, self.given), out);
        if count == 0 {
            return NextReply::End;
        }
        self.given += count;
        NextReply::Given { count }
    }
}
