//! How the program ends.

ghost use Rattle.std.specs.Prelude.{◌≡◌};
ghost use Rattle.pkg_report.specs.Endings.{ending_of, ending_of_folder, ending_of_hashing, ending_of_path, number_of_ending};

use folder_repo::DirFault;
use pkg_names::PathFault;
use pkg_tool::{MerkleStatus, Status};

/// What the opening of a file came to.
#[derive(Clone, Copy, Debug, PartialEq, Eq)]
pub enum Opening {
    /// It was opened, or was not to be.
    Fine,
    Missing,
    NoMemory,
}

/// How the program ends.
#[derive(Clone, Copy, Debug, PartialEq, Eq)]
pub enum Ending {
    /// The run ended so.
    Ran(Status),
    /// The hashing of a file ended so.
    Hashed(MerkleStatus),
    /// The file that is named, a script or one to be hashed, could not be opened.
    CannotOpen,
    /// The listing of the repository could not be read.
    NoListing,
    /// This line of the listing is bad; 0, where it has too many bytes.
    BadListing { line: u32 },
}

impl Ending {
    /// The ending of a run, whose script was opened so.
    pub fn of(status: Status, opening: Opening) -> Ending
        ensures { result ≡ ending_of status opening }
    {
        match (status, opening) {
            (Status::ScriptFault, Opening::Missing) => Ending::CannotOpen,
            (Status::ScriptFault, Opening::NoMemory) => Ending::Ran(Status::NoMemory),
            _ => Ending::Ran(status),
        }
    }

    /// The ending of the hashing of a file, which was opened so.
    pub fn of_hashing(status: MerkleStatus, opening: Opening) -> Ending
        ensures { result ≡ ending_of_hashing status opening }
    {
        match (status, opening) {
            (MerkleStatus::ReadFault, Opening::Missing) => Ending::CannotOpen,
            (MerkleStatus::ReadFault, Opening::NoMemory) => Ending::Ran(Status::NoMemory),
            _ => Ending::Hashed(status),
        }
    }

    /// The ending where a folder is no repository.
    pub fn of_folder(fault: DirFault) -> Ending
        ensures { result ≡ ending_of_folder fault }
    {
        match fault {
            DirFault::Unreadable => Ending::NoListing,
            DirFault::BadListing { line } => Ending::BadListing { line },
            DirFault::NoMemory => Ending::Ran(Status::NoMemory),
        }
    }

    /// The ending where a word is no package path.
    pub fn of_path(fault: PathFault) -> Ending
        ensures { result ≡ ending_of_path fault }
    {
        match fault {
            PathFault::BadName => Ending::Ran(Status::BadWords),
            PathFault::NoMemory => Ending::Ran(Status::NoMemory),
        }
    }

    /// The exit status of the program.
    pub fn number(self) -> u8
        ensures { result ≡ number_of_ending self }
    {
        match self {
            Ending::Ran(status) => status.number(),
            Ending::Hashed(status) => status.number(),
            Ending::CannotOpen => 1,
            Ending::NoListing => 1,
            Ending::BadListing { .. } => 1,
        }
    }
}
