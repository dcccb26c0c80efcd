//! The walk through a folder of the host.

ghost use Rattle.std.specs.Prelude.{◌≡◌, ◌≢◌, ◌↔◌, ◌+◌, ◌*◌, ◌≤◌, ◌<◌, ◌++◌, ◌∷◌, [], IsTrue, IfOk, OnOk, vec_len};
ghost use Rattle.std.specs.BTreeSet.{btree_set_len};
ghost use Rattle.std.specs.String.{string_bytes};
ghost use Rattle.repo_publish.specs.declared.publishing.TheConstants.{FILE_LIMIT};
ghost use Rattle.folder_publish.specs.Tree.{joined_paths};

use crate::files::GatherFault;
use std::alloc::{AllocError, Global};
use std::collections::BTreeSet;
use std::fs;
use std::io::ErrorKind;
use std::path::Path;
use std::rt::Files;

/// How many files are gathered: one more than a package can have. So the publication of more is refused.
pub const GATHER_LIMIT: usize = 8193;

/// The most folders that are read for that.
pub const FOLDER_LIMIT: usize = 65_536;

/// The numbers that definitions cite by name.
pub fn limits()
    ensures names { GATHER_LIMIT ≡ 2 * FILE_LIMIT + 1 }
    ensures folders { FOLDER_LIMIT ≡ 65536 }
{}

// What a walk has found: files, and the folders that are still to be read. Both are paths from where it began.
#[derive(Drop)]
struct Found {
    names: BTreeSet<String>,
    folders: Vec<String>,
}

impl Found {
    fn is_full(&self) -> bool
        ensures { IsTrue result ↔ (GATHER_LIMIT ≤ btree_set_len self.now.names) }
    {
        self.names.len() >= GATHER_LIMIT
    }

    // Adds a folder that is to be read, if not too many are.
    fn add_folder(&mut self, place: String) -> Result<(), GatherFault>
        ensures added { OnOk result (self.new.folders.items ≡ self.old.folders.items ++ place ∷ []) }
        ensures few { OnOk result (vec_len self.new.folders ≤ FOLDER_LIMIT) }
        ensures names { self.new.names ≡ self.old.names }
    {
        if self.folders.len() >= FOLDER_LIMIT {
            return Err(GatherFault::Failed { place });
        }
        match self.folders.push(place) {
            Ok(()) => Ok(()),
            Err(_) => Err(GatherFault::NoMemory),
        }
    }

    fn add_file(&mut self, place: String) -> Result<(), GatherFault>
        requires room { btree_set_len self.old.names < GATHER_LIMIT }
        ensures few { OnOk result (btree_set_len self.new.names ≤ GATHER_LIMIT) }
        ensures folders { self.new.folders ≡ self.old.folders }
    {
        match self.names.insert(place) {
            Ok(_) => Ok(()),
            Err(_) => Err(GatherFault::NoMemory),
        }
    }
}

/// The paths of the files below a folder.
pub(crate) fn walk<R: Files>(
    files: &R,
    alloc: Global,
    folder: &str,
) -> Result<BTreeSet<String>, GatherFault>
    ensures few { IfOk result (λ names. btree_set_len names ≤ GATHER_LIMIT) }
{
    let mut found = Found {
        names: BTreeSet::new(alloc),
        folders: Vec::new(alloc),
    };
    found.add_folder(String::new(alloc))?;
    for _ in 0..FOLDER_LIMIT {
        let Some(place) = found.folders.pop() else {
            return Ok(found.names);
        };
        read_folder(files, alloc, folder, place, &mut found)?;
        if found.is_full() {
            return Ok(found.names);
        }
    }
    match found.folders.pop() {
        Some(place) => Err(GatherFault::Failed { place }),
        None => Ok(found.names),
    }
}

// Adds what stands in a folder, until there are enough files.
fn read_folder<R: Files>(
    files: &R,
    alloc: Global,
    folder: &str,
    place: String,
    found: &mut Found,
) -> Result<(), GatherFault>
    requires room { btree_set_len found.old.names < GATHER_LIMIT }
    ensures few { OnOk result (btree_set_len found.new.names ≤ GATHER_LIMIT) }
{
    let Ok(name) = joined(alloc, folder, place.as_str()) else {
        return Err(GatherFault::NoMemory);
    };
    let entries = match fs::read_dir(&(files, alloc), name.as_str()) {
        Ok(entries) => entries,
        Err(e) => return Err(fault_at(e.kind(), place)),
    };
    for entry in entries {
        match entry {
            Ok(entry) => {
                let Ok(below) = joined(alloc, place.as_str(), entry.file_name()) else {
                    return Err(GatherFault::NoMemory);
                };
                look_at(files, entry.path(), below, found)?;
            }
            Err(e) => return Err(fault_at(e.kind(), place)),
        }
        if found.is_full() {
            return Ok(());
        }
    }
    Ok(())
}

// Adds what stands at a path of the host, which is this place.
fn look_at<R: Files>(
    files: &R,
    path: Path<'_>,
    place: String,
    found: &mut Found,
) -> Result<(), GatherFault>
    requires room { btree_set_len found.old.names < GATHER_LIMIT }
    ensures few { OnOk result (btree_set_len found.new.names ≤ GATHER_LIMIT) }
{
    match fs::metadata(files, path) {
        Ok(about) if about.is_dir() => found.add_folder(place),
        Ok(about) if about.is_file() => found.add_file(place),
        Ok(_) => Err(GatherFault::Failed { place }),
        Err(e) => Err(fault_at(e.kind(), place)),
    }
}

// `<folder>/<path>`, or the other one where one is empty.
fn joined(alloc: Global, folder: &str, path: &str) -> Result<String, AllocError>
    ensures { IfOk result (λ name. string_bytes name ≡ joined_paths folder.now path.now) }
{
    let mut name = String::from_str(alloc, folder)?;
    if !folder.is_empty() && !path.is_empty() {
        name.push_str("/")?;
    }
    name.push_str(path)?;
    Ok(name)
}

fn fault_at(kind: ErrorKind, place: String) -> GatherFault
    ensures memory { kind ≡ ErrorKind.OutOfMemory → result ≡ GatherFault.NoMemory }
    ensures other { kind ≢ ErrorKind.OutOfMemory → result ≡ GatherFault.Failed place }
{
    match kind {
        ErrorKind::OutOfMemory => GatherFault::NoMemory,
        _ => GatherFault::Failed { place },
    }
}
