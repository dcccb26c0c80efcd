//! The files below a folder.

ghost use Rattle.std.specs.Prelude.{◌≡◌, ◌≢◌, true, None, Some, IfOk, IfErr, map};
ghost use Rattle.std.specs.Option.{option_map, option_copied};
ghost use Rattle.std.specs.String.{string_bytes};
ghost use Rattle.repo_source.specs.Repo.{Fails};
ghost use Rattle.repo_publish.specs.Tree.{Takes, tree_failed};
ghost use Rattle.folder_publish.specs.Tree.{TakesName, Gives, FailsAt, IfFile, HoldsFile, TellsPlace};

use crate::files::{FolderFiles, GatherFault};
use crate::read::{ReadFault, read_entry};
use repo_publish::{Tree, TreeReply};
use std::alloc::Global;
use std::collections::BTreeSet;

/// The files below a folder, in byte order of their paths from there. Links are followed, and an empty folder is
/// nothing.
///
/// As a tree it doesn't tell what is left, since a host's file may change. The names are gathered by the first
/// call, [`GATHER_LIMIT`] of them at most. It fails where a folder or a file can't be read, where something is
/// neither, where a name is no file path, and where there are more than [`FOLDER_LIMIT`] folders, as in a circle
/// of links. Of a file that has more bytes than a blob can have, one byte too many is given.
///
/// [`GATHER_LIMIT`]: crate::GATHER_LIMIT
/// [`FOLDER_LIMIT`]: crate::FOLDER_LIMIT
#[derive(Drop)]
pub struct FolderTree<'a, F: FolderFiles + Drop> {
    files: F,
    folder: &'a str,
    names: Option<BTreeSet<String>>,
    place: Option<String>,
    faults: u64,
}

impl<'a, F: FolderFiles + Drop> FolderTree<'a, F> {
    /// The tree of this folder.
    pub fn attach(files: F, folder: &'a str) -> FolderTree<'a, F>
        ensures files { result.files ≡ files }
        ensures folder { result.folder.now ≡ folder.now }
        ensures names { result.names ≡ None }
        ensures place { result.place ≡ None }
        ensures faults { result.faults ≡ 0 }
    {
        FolderTree {
            files,
            folder,
            names: None,
            place: None,
            faults: 0,
        }
    }

    /// The path of the file that was given last, or of what failed behind it: from the folder, which itself has the
    /// empty path. `None`, if there is neither.
    pub fn place(&self) -> Option<&str>
        ensures { option_copied result ≡ option_map string_bytes self.now.place }
    {
        match &self.place {
            Some(place) => Some(place.as_str()),
            None => None,
        }
    }

    /// How often it has failed.
    pub fn faults(&self) -> u64
        ensures { result ≡ self.now.faults }
    {
        self.faults
    }
}

impl<F: FolderFiles + Drop> Tree for FolderTree<'_, F> {
    ghost use Rattle.std.specs.Prelude.{None};

    ghost left = { λ _. None };

    ghost faults = { λ t. t.faults };

    #[tactic(auto, using(crate::proofs::Took::none_told, crate::proofs::Took::failed_at))]
    fn next(&mut self, alloc: Global) -> TreeReply
        ensures took { Takes None result None }
        ensures faults { Fails (tree_failed result) self.old.faults self.new.faults }

        // The least of the names that are left is given, and the others are left.
        ensures gives { Gives (F.below self.old.files) self.old.folder.now
            (option_map (λ set. map string_bytes set.keys) self.old.names) result
            (option_map (λ set. map string_bytes set.keys) self.new.names) }
        // What failed is the file of the least of them, or it failed before there were any.
        ensures fails { FailsAt (F.below self.old.files) self.old.folder.now
            (option_map (λ set. map string_bytes set.keys) self.old.names) result
            (option_map string_bytes self.new.place)
            (option_map (λ set. map string_bytes set.keys) self.new.names) }
        ensures bytes { IfFile result (HoldsFile (F.files self.old.files) self.old.folder.now) }
        ensures place { TellsPlace (option_map string_bytes self.old.place) result
            (option_map string_bytes self.new.place) }
        ensures files_stay { self.new.files ≡ self.old.files }
        ensures folder_stays { self.new.folder.now ≡ self.old.folder.now }
    {
        match self.take_name(alloc) {
            Ok(Some(name)) => self.give(alloc, name),
            Ok(None) => TreeReply::End,
            Err(GatherFault::Failed { place }) => self.fail(place),
            Err(GatherFault::NoMemory) => TreeReply::NoMemory,
        }
    }
}

impl<F: FolderFiles + Drop> FolderTree<'_, F> {
    // Takes the least of the names that are left, which are gathered before any was.
    fn take_name(&mut self, alloc: Global) -> Result<Option<String>, GatherFault>
        ensures takes { IfOk result (λ first. TakesName (F.below self.old.files) self.old.folder.now
            (option_map (λ set. map string_bytes set.keys) self.old.names) (option_map string_bytes first)
            (option_map (λ set. map string_bytes set.keys) self.new.names)) }
        ensures untaken { IfErr result (λ _. (self.old.names ≡ None) × (self.new.names ≡ None)) }
        ensures place { self.new.place ≡ self.old.place }
        ensures faults { self.new.faults ≡ self.old.faults }
        ensures files_stay { self.new.files ≡ self.old.files }
        ensures folder_stays { self.new.folder.now ≡ self.old.folder.now }
    {
        let mut names = match self.names.take() {
            Some(names) => names,
            None => self.files.gather(alloc, self.folder)?,
        };
        let first = names.pop_first();
        self.names = Some(names);
        Ok(first)
    }

    // The file of this name.
    fn give(&mut self, alloc: Global, name: String) -> TreeReply
        ensures file { IfFile result (λ file. file.name ≡ string_bytes name) }
        ensures not_end { result ≢ TreeReply.End }
        ensures faults { Fails (tree_failed result) self.old.faults self.new.faults }
        ensures bytes { IfFile result (HoldsFile (F.files self.old.files) self.old.folder.now) }
        ensures place { TellsPlace (option_map string_bytes self.old.place) result
            (option_map string_bytes self.new.place) }
        ensures failed { result ≡ TreeReply.Failed → self.new.place ≡ Some name }
        ensures names { self.new.names ≡ self.old.names }
        ensures files_stay { self.new.files ≡ self.old.files }
        ensures folder_stays { self.new.folder.now ≡ self.old.folder.now }
    {
        match read_entry(&self.files, alloc, self.folder, name.as_str()) {
            Ok(entry) => {
                self.place = Some(name);
                TreeReply::File(entry)
            }
            Err(ReadFault::Failed) => self.fail(name),
            Err(ReadFault::NoMemory) => TreeReply::NoMemory,
        }
    }

    // It failed at this place.
    fn fail(&mut self, place: String) -> TreeReply
        ensures failed { result ≡ TreeReply.Failed }
        ensures faults { Fails true self.old.faults self.new.faults }
        ensures place { self.new.place ≡ Some place }
        ensures names { self.new.names ≡ self.old.names }
        ensures files_stay { self.new.files ≡ self.old.files }
        ensures folder_stays { self.new.folder.now ≡ self.old.folder.now }
    {
        self.place = Some(place);
        self.faults = self.faults.saturating_add(1);
        TreeReply::Failed
    }
}
