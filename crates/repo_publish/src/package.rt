//! The meta blob of a package.

ghost use Rattle.std.specs.Prelude.{◌≡◌, ◌+◌, ◌≤◌, List, Ok, IfOk, IfErr, OnOk, length};
ghost use Rattle.pkg_names.specs.FileText.{IsFile};
ghost use Rattle.meta_contents.specs.Contents.{text_of, StandsFor};
ghost use Rattle.package_book.specs.Book.{MetaAndFiles, package_name, IsBook};
ghost use Rattle.std.specs.List.{position, list_any};
ghost use Rattle.std.specs.Str.{bytes_eq};
ghost use Rattle.std.specs.Ordering.{nat_cmp, is_lt};
ghost use Rattle.std.specs.Cmp.Lexicographic.{slice_cmp};
ghost use Rattle.far_archive.specs.Written.{listed};
ghost use Rattle.far_archive.specs.declared.write.FarEntry.{FarEntry as EntryOf};
ghost use Rattle.repo_publish.specs.Published.{put_file as with_file, package_text as text_of_package};
ghost use Rattle.repo_publish.specs.Published.{with_package, inner_with};
ghost use Rattle.repo_publish.specs.Steps.{IsTaken, AreTaken, IsPackage, EndsPackage, IsNoBook};

use crate::draft::Draft;
use crate::publishing::PublishEnd;
use far_archive::{FarEntry, WriteFault, texts_stand_or_have_a_fault, write_far};
use meta_contents::write_contents;
use package_book::{META_LIMIT, PackageFault, book_of, books_are_read};
use pkg_names::{Bytes, FileFault, FilePath, PackagePath, read_file};
use std::alloc::{AllocError, Global};

/// The meta blob of the files that were taken, if they make a package.
pub(crate) fn package_of(
    alloc: Global,
    path: &PackagePath,
    draft: Draft,
) -> Result<Vec<u8>, PublishEnd>
    requires { AreTaken draft.inner.items draft.contents draft.last }
    ensures package { IfOk result (λ meta. (done : List EntryOf)
        → IsTaken done draft.inner.items draft.contents draft.last → IsPackage path.now done meta.items) }
    ensures small { IfOk result (λ meta. length meta.items ≤ META_LIMIT) }
    ensures end { IfErr result (λ end. (done : List EntryOf)
        → IsTaken done draft.inner.items draft.contents draft.last → EndsPackage path.now done end) }
{
    books_are_read();
    texts_stand_or_have_a_fault();
    let Ok(inner) = inner_of(alloc, path, draft) else {
        return Err(PublishEnd::NoMemory);
    };
    match write_far(alloc, &inner) {
        Ok(meta) => match judge(alloc, &meta) {
            Ok(()) => Ok(meta),
            Err(end) => Err(end),
        },
        Err(WriteFault::NoMemory) => Err(PublishEnd::NoMemory),
        Err(WriteFault::Order { entry: _ }) => unreachable!(),
    }
}

// Nothing where the bytes are a package, or else what ends it.
fn judge(alloc: Global, meta: &[u8]) -> Result<(), PublishEnd>
    ensures book { OnOk result ((found : MetaAndFiles) × IsBook meta.now found) }
    ensures end { IfErr result (IsNoBook meta.now) }
{
    books_are_read();
    let Ok(copy) = Vec::from_slice(alloc, meta) else {
        return Err(PublishEnd::NoMemory);
    };
    match book_of(alloc, copy) {
        Ok(_) => Ok(()),
        Err(refusal) => match refusal.fault {
            PackageFault::NoMemory => Err(PublishEnd::NoMemory),
            why => Err(PublishEnd::NotAPackage { why }),
        },
    }
}

// The files of the archive, in the order of their names.
fn inner_of(alloc: Global, path: &PackagePath, draft: Draft) -> Result<Vec<FarEntry>, AllocError>
    ensures inner { IfOk result (λ inner. listed inner.items
        ≡ inner_with path.now (listed draft.inner.items) (text_of draft.contents)) }
    ensures stands { IfOk result (λ _. StandsFor (text_of draft.contents) draft.contents) }
{
    let text = write_contents(alloc, &draft.contents)?;
    let mut inner = draft.inner;
    put_package(alloc, &mut inner, path.name())?;
    put_made(alloc, &mut inner, b"meta/contents", text)?;
    Ok(inner)
}

// Puts `meta/package`, unless a file says it.
fn put_package(alloc: Global, inner: &mut Vec<FarEntry>, name: &[u8]) -> Result<(), AllocError>
    ensures { OnOk result (listed inner.new.items ≡ with_package name.now (listed inner.old.items)) }
{
    if has_package(inner) {
        return Ok(());
    }
    let text = package_text(alloc, name)?;
    put_made(alloc, inner, b"meta/package", Bytes::make(text))?;
    Ok(())
}

// Puts a file with these bytes.
fn put_made(
    alloc: Global,
    inner: &mut Vec<FarEntry>,
    name: &[u8],
    bytes: Bytes,
) -> Result<(), AllocError>
    requires { IsFile name.now }
    ensures { OnOk result (listed inner.new.items ≡ with_file (name.now, bytes) (listed inner.old.items)) }
{
    let name = name_of(alloc, name)?;
    put_file(inner, FarEntry { name, bytes })
}

fn has_package(inner: &[FarEntry]) -> bool
    ensures { result ≡ list_any (λ (file : EntryOf). bytes_eq file.name package_name) inner.now }
{
    inner
        .iter()
        .any(|file| file.name.as_slice() == b"meta/package".as_slice())
}

// What `meta/package` says where no file says it.
fn package_text(alloc: Global, name: &[u8]) -> Result<Vec<u8>, AllocError>
    ensures { IfOk result (λ text. text.items ≡ text_of_package name.now) }
{
    let mut text = Vec::new(alloc);
    text.extend_from_slice(b"{\"name\":\"")?;
    text.extend_from_slice(name)?;
    text.extend_from_slice(b"\",\"version\":\"0\"}")?;
    Ok(text)
}

// The path of a file whose name is known to be one.
fn name_of(alloc: Global, text: &[u8]) -> Result<FilePath, AllocError>
    requires { IsFile text.now }
    ensures { IfOk result (λ name. name ≡ text.now) }
{
    match read_file(alloc, text) {
        Ok(name) => Ok(name),
        Err(FileFault::NoMemory) => Err(AllocError),
        Err(FileFault::BadFile) => unreachable!(),
    }
}

// Puts a file before the first one whose name is greater.
fn put_file(inner: &mut Vec<FarEntry>, file: FarEntry) -> Result<(), AllocError>
    ensures { OnOk result (listed inner.new.items
        ≡ with_file (file.name, file.bytes) (listed inner.old.items)) }
{
    match place_behind(inner, file.name.as_slice()) {
        Some(place) => inner.insert(place, file)?,
        None => inner.push(file)?,
    }
    Ok(())
}

// The place of the first file whose name is greater.
fn place_behind(inner: &[FarEntry], name: &[u8]) -> Option<usize>
    ensures { result ≡ position (λ (other : EntryOf). is_lt (slice_cmp nat_cmp name.now other.name)) inner.now }
{
    inner
        .iter()
        .position(|other| name.cmp(&other.name.as_slice()).is_lt())
}
