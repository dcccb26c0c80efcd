//! The files of the host that are published, and those that are put.

ghost use Rattle.std.specs.Prelude.{◌≡◌, ◌≤◌, ℕ, List, Option, None, IfOk, is_ok, is_some, map};
ghost use Rattle.std.specs.BTreeSet.{btree_set_len};
ghost use Rattle.std.specs.String.{string_bytes};
ghost use Rattle.folder_publish.specs.Tree.{AreBelow};
ghost use Rattle.folder_publish.specs.Post.{PutsIf};

use crate::walk::{GATHER_LIMIT, walk};
use folder_repo::{BlobFiles, HostFiles};
use std::alloc::Global;
use std::collections::BTreeSet;
use std::fs;
use std::fs::OpenFile;
use std::io::{self, Write};
use std::rt::Files;

/// Why the files below a folder could not be gathered.
#[derive(Debug, Drop)]
pub enum GatherFault {
    /// What stands here could not be read, or is neither a regular file nor a folder. The place is a path from
    /// the folder, which itself has the empty one.
    Failed { place: String },
    NoMemory,
}

/// Regular files that stand below folders.
pub trait FolderFiles: BlobFiles {
    /// The paths of the files below each folder, from there on, where that is told.
    ghost below: { Self → Option (List ℕ → List (List ℕ)) };

    /// The paths of the files below a folder, from there on: all of them, or [`GATHER_LIMIT`] of them where there
    /// are more. Links are followed, and an empty folder is nothing.
    fn gather(&self, alloc: Global, folder: &str) -> Result<BTreeSet<String>, GatherFault>
        ensures below { IfOk result (λ names. AreBelow (below self.now) folder.now (map string_bytes names.keys)) }
        ensures few { IfOk result (λ names. btree_set_len names ≤ GATHER_LIMIT) };
}

/// Regular files that are put by their names.
pub trait PutFiles: BlobFiles {
    /// Puts a file, whole or not at all, in the place of the one of this name, if there is one. It is made under
    /// the name beside, which no other file may have, and is synced first where that is asked for.
    fn put(&mut self, beside: &str, name: &str, bytes: &[u8], synced: bool) -> io::Result<()>
        ensures puts { PutsIf (is_ok result) (Self.files self.old) beside.now name.now bytes.now (Self.files self.new) }
        ensures told { is_some (Self.files self.new) ≡ is_some (Self.files self.old) };
}

/// The host's folders. It doesn't tell what their files hold, since they may change.
#[derive(Clone, Copy)]
pub struct HostFolders<'a, R: Files> {
    files: &'a R,
}

impl<'a, R: Files> HostFolders<'a, R> {
    pub fn attach(files: &'a R) -> HostFolders<'a, R> {
        HostFolders { files }
    }
}

impl<R: Files> BlobFiles for HostFolders<'_, R> {
    type File = R::File;

    ghost files = { λ _. None };

    fn open(&self, name: &str) -> io::Result<(R::File, u64)> {
        HostFiles::attach(self.files).open(name)
    }
}

impl<R: Files> FolderFiles for HostFolders<'_, R> {
    ghost below = { λ _. None };

    fn gather(&self, alloc: Global, folder: &str) -> Result<BTreeSet<String>, GatherFault> {
        walk(self.files, alloc, folder)
    }
}

impl<R: Files> PutFiles for HostFolders<'_, R> {
    fn put(&mut self, beside: &str, name: &str, bytes: &[u8], synced: bool) -> io::Result<()> {
        let made = match make_file(self.files, beside, bytes, synced) {
            Ok(()) => fs::rename(self.files, beside, name),
            Err(e) => Err(e),
        };
        if made.is_err() {
            let _ = fs::remove_file(self.files, beside);
        }
        made
    }
}

// Makes a file of these bytes.
fn make_file<R: Files>(files: &R, name: &str, bytes: &[u8], synced: bool) -> io::Result<()> {
    let mut file = fs::create(files, name)?;
    file.write_all(bytes)?;
    if synced { file.sync_all() } else { Ok(()) }
}
