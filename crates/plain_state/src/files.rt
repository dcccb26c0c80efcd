//! The files of open packages.

ghost use Rattle.std.specs.Prelude.{◌≡◌, Some};
ghost use Rattle.store_model.specs.Files.{found, found_of, found_len};
ghost use Rattle.store_model.specs.Packages.{known_book};
ghost use Rattle.store_model.specs.Acts.Copy.{area, too_large, copy_end_of, copy_end};
ghost use Rattle.plain_state.specs.FileViews.{found_as};

use crate::state::State;
use image_layout::{Geometry, ImageKind, VBMETA_PAGES};
use package_book::{Book, Shelf, Shelved};
use pkg_names::{FilePath, Root};
use store_model::CopyEnd;

/// Where a file is looked for, and what is found.
#[derive(Clone, Copy, Debug, Drop)]
pub enum FileAt<'a> {
    /// The lane has no such directory open.
    NotOpen,
    NoSuchFile,
    /// A file in the archive of the package, with its bytes.
    Inner(&'a [u8]),
    /// A blob of its own.
    Outer(Root),
}

impl State {
    /// The file of the lane's directory with this number.
    pub fn found(&self, lane: u32, dir: u64, file: &FilePath) -> FileAt<'_>
        ensures { found_as result ≡ found self.now lane dir file.now }
    {
        match self.dirs.root_of(dir, lane) {
            Some(root) => file_of(&self.books, &root, file),
            None => FileAt::NotOpen,
        }
    }

    /// The length of a file, where it is there.
    pub fn found_len(&self, file: FileAt) -> Option<u64>
        ensures { result ≡ found_len self.now (found_as file.entry) }
    {
        match file {
            FileAt::NotOpen => None,
            FileAt::NoSuchFile => None,
            FileAt::Inner(bytes) => Some(bytes.len() as u64),
            FileAt::Outer(root) => self.stored_len(&root),
        }
    }

    /// Why the lane's file can't be copied into an image, if nothing fails.
    pub fn copy_end(
        &self,
        lane: u32,
        image: ImageKind,
        dir: u64,
        file: &FilePath,
    ) -> Option<CopyEnd>
        ensures { result ≡ copy_end self.now lane image dir file.now }
    {
        self.copy_end_of(area(&self.geometry, image), self.found(lane, dir, file))
    }

    fn copy_end_of(&self, room: u64, file: FileAt) -> Option<CopyEnd>
        ensures { result ≡ copy_end_of self.now room (found_as file.entry) }
    {
        match file {
            FileAt::NotOpen => Some(CopyEnd::BadDir),
            FileAt::NoSuchFile => Some(CopyEnd::NoFile),
            FileAt::Inner(_) | FileAt::Outer(_) => too_large(room, self.found_len(file)),
        }
    }
}

// A file in the archive comes first.
fn file_in<'a>(book: &'a Book, file: &FilePath) -> FileAt<'a>
    ensures { found_as result ≡ found_of (Some book.now) file.now }
{
    if let Some(bytes) = book.inner(file) {
        return FileAt::Inner(bytes);
    }
    match book.outer(file) {
        Some(root) => FileAt::Outer(root),
        None => FileAt::NoSuchFile,
    }
}

fn file_of<'a>(books: &'a Shelf, root: &Root, file: &FilePath) -> FileAt<'a>
    ensures { found_as result ≡ found_of (known_book books.now root.now) file.now }
{
    match books.get(root) {
        Some(Shelved::Good(book)) => file_in(book, file),
        Some(Shelved::Bad(_, _)) => FileAt::NoSuchFile,
        None => FileAt::NoSuchFile,
    }
}

// How many bytes an image may have.
fn area(geometry: &Geometry, image: ImageKind) -> u64
    ensures { result ≡ area geometry.now image }
{
    match image {
        ImageKind::Zbi => u64::from(geometry.slot_pages) * 4096,
        ImageKind::Vbmeta => u64::from(VBMETA_PAGES) * 4096,
    }
}

fn too_large(room: u64, len: Option<u64>) -> Option<CopyEnd>
    ensures { result ≡ too_large room len }
{
    let len = len?;
    if len > room {
        Some(CopyEnd::TooLarge { len, room })
    } else {
        None
    }
}
