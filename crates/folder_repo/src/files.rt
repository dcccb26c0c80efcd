//! The files that a folder's repository reads.

ghost use Rattle.std.specs.Prelude.{◌≡◌, ℕ, List, Option, None, IfOk, IfErr};
ghost use Rattle.std.specs.IoError.{error_kind};
ghost use Rattle.folder_repo.specs.Folder.{HasAt, Opens};

use std::fs;
use std::io::{self, ErrorKind, Read};
use std::rt::Files;

/// Regular files that are opened by their names.
pub trait BlobFiles {
    type File: Read + Drop;

    /// What the file of each name holds, if there is one, where that is told.
    ghost files: { Self → Option (List ℕ → Option (List ℕ)) };

    /// Opens the file of a name, and tells how many bytes it has.
    fn open(&self, name: &str) -> io::Result<(Self::File, u64)>
        ensures opened { IfOk result (λ opened.
            Opens (files self.now) name.now (Self.File.Read.remaining opened.0) opened.1) }
        ensures missing { IfErr result (λ e. error_kind e ≡ ErrorKind.NotFound
            → HasAt (files self.now) name.now None) };
}

/// The host's regular files. It doesn't tell what they hold, since they may change.
#[derive(Clone, Copy)]
pub struct HostFiles<'a, R: Files> {
    files: &'a R,
}

impl<'a, R: Files> HostFiles<'a, R> {
    pub fn attach(files: &'a R) -> HostFiles<'a, R> {
        HostFiles { files }
    }
}

impl<R: Files> BlobFiles for HostFiles<'_, R> {
    type File = R::File;

    ghost files = { λ _. None };

    // A name that is no regular file, as a folder or a pipe, is not opened.
    fn open(&self, name: &str) -> io::Result<(R::File, u64)> {
        match fs::metadata(self.files, name) {
            Ok(about) if about.is_file() => match fs::open(self.files, name) {
                Ok(file) => Ok((file, about.len())),
                Err(e) => Err(e),
            },
            Ok(_) => Err(io::Error::from(ErrorKind::InvalidInput)),
            Err(e) => Err(e),
        }
    }
}
