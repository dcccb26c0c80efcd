//! What was read of the files so far, and which file can't come next.

ghost use Rattle.std.specs.Prelude.{◌≡◌, ◌+◌, ◌≤◌, [], None, List, if◌then◌else◌, nat_lt, length, vec_len};
ghost use Rattle.far_archive.specs.declared.write.FarEntry.{FarEntry as EntryOf};
ghost use Rattle.meta_contents.specs.Contents.{is_in_meta};
ghost use Rattle.repo_publish.specs.Refusals.{is_behind, file_refusal};
ghost use Rattle.repo_publish.specs.Steps.{IsTaken};

use crate::publishing::{FILE_LIMIT, PublishEnd};
use far_archive::FarEntry;
use meta_contents::{Contents, is_in_meta};
use pkg_merkle::BYTES_LIMIT;
use pkg_names::FilePath;
use std::alloc::Global;

/// The files under `meta/`, the list of the others, and the path of the last file.
#[derive(Drop)]
pub(crate) struct Draft {
    pub(crate) inner: Vec<FarEntry>,
    pub(crate) contents: Contents,
    pub(crate) last: Option<FilePath>,
}

impl Draft {
    pub(crate) fn new(alloc: Global) -> Draft
        ensures inner { result.inner.items ≡ [] }
        ensures contents { result.contents ≡ [] }
        ensures last { result.last ≡ None }
    {
        Draft {
            inner: Vec::new(alloc),
            contents: Contents::new(alloc),
            last: None,
        }
    }

    /// How many files there are.
    pub(crate) fn count(&self) -> usize
        requires few { vec_len self.now.inner ≤ FILE_LIMIT }
        ensures count { result ≡ vec_len self.now.inner + length self.now.contents }
        ensures small { result ≤ 8192 }
    {
        self.inner.len() + self.contents.lines().len()
    }

    /// Why a file can't come next.
    pub(crate) fn refusal(&self, file: &FarEntry) -> Option<PublishEnd>
        requires few { vec_len self.now.inner ≤ FILE_LIMIT }
        ensures { (done : List EntryOf)
            → IsTaken done self.now.inner.items self.now.contents self.now.last
            → result ≡ file_refusal done file.now }
    {
        let number = self.count() as u64 + 1;
        let name = file.name.as_slice();
        let len = file.bytes.as_slice().len();
        if !self.comes_behind(name) {
            Some(PublishEnd::Order { file: number })
        } else if name == b"meta/contents".as_slice() {
            Some(PublishEnd::Reserved { file: number })
        } else if len > BYTES_LIMIT {
            Some(PublishEnd::TooLarge {
                file: number,
                len: len as u64,
            })
        } else if !self.has_room(name) {
            Some(PublishEnd::TooMany)
        } else {
            None
        }
    }

    // The name is greater than the last one.
    fn comes_behind(&self, name: &[u8]) -> bool
        ensures { result ≡ is_behind self.now.last name.now }
    {
        match &self.last {
            Some(last) => last.as_slice().cmp(&name).is_lt(),
            None => true,
        }
    }

    // There are fewer files of this kind than there may be.
    fn has_room(&self, name: &[u8]) -> bool
        ensures { result ≡ if is_in_meta name.now then nat_lt (vec_len self.now.inner) FILE_LIMIT
            else nat_lt (length self.now.contents) FILE_LIMIT }
    {
        if is_in_meta(name) {
            self.inner.len() < FILE_LIMIT
        } else {
            self.contents.lines().len() < FILE_LIMIT
        }
    }
}
