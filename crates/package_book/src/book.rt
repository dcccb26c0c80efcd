//! Books, and what they say.

ghost use Rattle.std.specs.Prelude.{◌≡◌, Ok};
ghost use Rattle.std.specs.Option.{option_copied};
ghost use Rattle.meta_contents.specs.Contents.{pairs};
ghost use Rattle.far_archive.specs.Named.{file_named};
ghost use Rattle.package_book.specs.Book.{book, outer_at, outer_roots};

use far_archive::Archive;
use meta_contents::{Contents, ContentsLine};
use pkg_names::{Bytes, FilePath, Root, Roots};
use std::marker::Model;
use std::snapshot::Snapshot;

/// The longest meta blob, in bytes.
pub const META_LIMIT: usize = 1_048_576;

/// The book of a package: its files. Contracts see the bytes of the meta blob, the files in its archive,
/// and the list of the files outside it, each with its root.
#[derive(Drop)]
pub struct Book {
    pub(crate) meta: Snapshot<Bytes>,
    pub(crate) archive: Archive,
    pub(crate) contents: Contents,
    pub(crate) roots: Roots,
}

impl Model for Book {
    ghost use Rattle.std.specs.Prelude.{◌≡◌, Ok};
    ghost use Rattle.package_book.specs.Book.{MetaAndFiles, book, outer_roots};

    ghost Value = { MetaAndFiles };

    ghost view = { λ b. record { meta = b.meta.value; inner = b.archive; outer = b.contents } };

    ghost invariant = { λ b.
        (book b.meta.value ≡ Ok (record { meta = b.meta.value; inner = b.archive; outer = b.contents }))
        × (b.roots ≡ outer_roots b.contents) };
}

impl Book {
    /// The bytes of the file of this path in the archive.
    pub fn inner(&self, file: &FilePath) -> Option<&[u8]>
        ensures { option_copied result ≡ file_named file.now self.now.inner }
    {
        self.archive.find(file.as_slice())
    }

    /// The root of the file of this path outside the archive.
    pub fn outer(&self, file: &FilePath) -> Option<Root>
        ensures { result ≡ outer_at file.now self.now.outer }
    {
        root_at(file.as_slice(), self.contents.lines())
    }

    /// The roots of the files outside the archive in the order of their lines, each at its first line.
    pub fn outer_roots(&self) -> &[Root]
        ensures list { result.now ≡ outer_roots self.now.outer }
        ensures valid { book self.now.meta ≡ Ok self.now }
    {
        self.roots.as_slice()
    }
}

// The root of the first line of this path.
fn root_at(path: &[u8], lines: &[ContentsLine]) -> Option<Root>
    ensures { result ≡ outer_at path.now (pairs lines.now) }
{
    for line in lines {
        if line.file.as_slice() == path {
            return Some(line.root);
        }
    }
    None
}
