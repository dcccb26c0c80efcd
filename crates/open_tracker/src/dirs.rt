ghost use Rattle.std.specs.Prelude.{◌≡◌, ◌≢◌, ◌↔◌, [], ◌∷◌, ◌++◌, IsTrue, IsSome, OnOk, OnErr};
ghost use Rattle.std.specs.List.{All};
ghost use Rattle.open_tracker.specs.Directories.{is_of, root_of as root_in, without, AreDistinct};

use pkg_names::Root;
use std::alloc::{AllocError, Global};
use std::marker::Model;

/// An open directory: its number, the lane that can use it, and the root of its package.
#[derive(Clone, Copy, Debug, PartialEq, Eq)]
pub struct DirEntry {
    pub number: u64,
    pub lane: u32,
    pub root: Root,
}

/// The open directories. Contracts see their list, in the order in which they were opened.
#[derive(Debug, Drop)]
pub struct Dirs {
    dirs: Vec<DirEntry>,
}

impl Model for Dirs {
    ghost use Rattle.std.specs.Prelude.{List};
    ghost use Rattle.open_tracker.specs.declared.dirs.DirEntry.{DirEntry as DirEntryOf};
    ghost use Rattle.open_tracker.specs.Directories.{AreDistinct};

    ghost Value = { List DirEntryOf };

    ghost view = { λ d. d.dirs.items };

    ghost invariant = { λ d. AreDistinct d.dirs.items };
}

impl Dirs {
    /// Nothing is open.
    pub fn new(alloc: Global) -> Dirs
        ensures { result ≡ [] }
    {
        Dirs {
            dirs: Vec::new(alloc),
        }
    }

    /// Opens a directory under a new number.
    pub fn add(&mut self, number: u64, lane: u32, root: Root) -> Result<(), AllocError>
        requires { All (λ dir. dir.number ≢ number) self.old }
        ensures ok { OnOk result (self.new
            ≡ self.old ++ record { number = number; lane = lane; root = root } ∷ []) }
        ensures err { OnErr result (self.new ≡ self.old) }
    {
        self.dirs.push(DirEntry { number, lane, root })?;
        Ok(())
    }

    /// The package of the lane's directory with this number, if that is open.
    pub fn root_of(&self, number: u64, lane: u32) -> Option<Root>
        ensures { result ≡ root_in self.now number lane }
    {
        match self.dirs.iter().find(|dir| is_of(dir, number, lane)) {
            Some(dir) => Some(dir.root),
            None => None,
        }
    }

    /// Closes the lane's directory with this number, and tells whether it was open.
    pub fn close(&mut self, number: u64, lane: u32) -> bool
        ensures was_open { IsTrue result ↔ IsSome (root_in self.old number lane) }
        ensures closed { self.new ≡ without self.old number lane }
    {
        let is_open = self.root_of(number, lane).is_some();
        self.dirs.retain(|dir| !is_of(dir, number, lane));
        is_open
    }

    /// The open directories. No number stands twice.
    pub fn entries(&self) -> &[DirEntry]
        ensures list { result.now ≡ self.now }
        ensures distinct { AreDistinct self.now }
    {
        &self.dirs
    }
}

// The directory has this number and is this lane's.
fn is_of(dir: &DirEntry, number: u64, lane: u32) -> bool
    ensures { result ≡ is_of dir.now number lane }
{
    dir.number == number && dir.lane == lane
}
