//! Reading books.

ghost use Rattle.std.specs.Prelude.{◌≡◌, ◌⊎◌, ◌≤◌, length, map, Some, None, Ok, Err, IfOk, IfErr, OnOk};
ghost use Rattle.std.specs.Option.{option_map};
ghost use Rattle.far_archive.specs.Fields.{files};
ghost use Rattle.far_archive.specs.Faults.{first_fault};
ghost use Rattle.meta_contents.specs.Contents.{pairs};
ghost use Rattle.package_book.specs.declared.fault.PackageFault.TheVariants.{Far};
ghost use Rattle.package_book.specs.Book.{book, contents_in, package_fault, outer_roots};

use crate::book::{Book, META_LIMIT};
use crate::fault::{NotABook, PackageFault};
use far_archive::{Archive, read_far, texts_stand_or_have_a_fault};
use meta_contents::{
    Contents, ContentsFault, ContentsLine, PackageNameFault, read_contents, read_package,
};
use pkg_names::{Bytes, Root, Roots};
use std::alloc::{AllocError, Global};
use std::collections::BTreeSet;
use std::snapshot::Snapshot;

// The archive in these bytes.
fn archive_in(bytes: Bytes) -> Result<Archive, PackageFault>
    requires { length bytes ≤ META_LIMIT }
    ensures found { IfOk result (λ archive. (first_fault bytes ≡ None) × (archive ≡ files bytes)) }
    ensures fault { IfErr result (λ fault. option_map Far (first_fault bytes) ≡ Some fault) }
{
    texts_stand_or_have_a_fault();
    match read_far(bytes.into_vec()) {
        Ok(archive) => Ok(archive),
        Err(refusal) => Err(PackageFault::Far(refusal.fault)),
    }
}

// The list of the files outside an archive.
fn contents_in(alloc: Global, archive: &Archive) -> Result<Contents, PackageFault>
    ensures { (result ≡ contents_in archive.now) ⊎ (result ≡ Err PackageFault.NoMemory) }
{
    let Some(text) = archive.find(b"meta/contents") else {
        return Err(PackageFault::NoContents);
    };
    match read_contents(alloc, text) {
        Ok(contents) => Ok(contents),
        Err(ContentsFault::NoMemory) => Err(PackageFault::NoMemory),
        Err(fault) => Err(PackageFault::Contents(fault)),
    }
}

// Nothing where an archive names its package, or else what is wrong.
fn check_package(alloc: Global, archive: &Archive) -> Result<(), PackageFault>
    ensures found { OnOk result (package_fault archive.now ≡ None) }
    ensures fault { IfErr result (λ fault. (fault ≡ PackageFault.NoMemory)
        ⊎ (package_fault archive.now ≡ Some fault)) }
{
    let Some(text) = archive.find(b"meta/package") else {
        return Err(PackageFault::NoPackage);
    };
    match read_package(alloc, text) {
        Ok(_) => Ok(()),
        Err(PackageNameFault::NoMemory) => Err(PackageFault::NoMemory),
        Err(fault) => Err(PackageFault::Package(fault)),
    }
}

// The roots of these lines, each at its first line.
fn first_roots(alloc: Global, lines: &[ContentsLine]) -> Result<Roots, AllocError>
    ensures { IfOk result (λ roots. roots ≡ outer_roots (pairs lines.now)) }
{
    let mut seen = BTreeSet::new(alloc);
    let mut roots = Vec::new(alloc);
    for line in lines {
        if seen.insert(line.root)? {
            roots.push(line.root)?;
        }
    }
    Ok(Roots::make(roots))
}

// The book of these bytes.
#[tactic(auto, unfolding(crate::specs::Book::book))]
fn book_in(alloc: Global, meta: &[u8]) -> Result<Book, PackageFault>
    ensures found { IfOk result (λ found. book meta.now ≡ Ok found) }
    ensures fault { IfErr result (λ fault. (fault ≡ PackageFault.NoMemory) ⊎ (book meta.now ≡ Err fault)) }
{
    if meta.len() > META_LIMIT {
        let len = meta.len() as u64;
        return Err(PackageFault::Long { len });
    }
    let bytes = Bytes::make(Vec::from_slice(alloc, meta)?);
    let kept = Snapshot::of(&bytes);
    let archive = archive_in(bytes)?;
    let contents = contents_in(alloc, &archive)?;
    check_package(alloc, &archive)?;
    let roots = first_roots(alloc, contents.lines())?;
    Ok(Book {
        meta: kept,
        archive,
        contents,
        roots,
    })
}

/// The book of a meta blob: the first fault of `docs/books.md`, or none. A refusal hands the bytes back.
pub fn book_of(alloc: Global, meta: Vec<u8>) -> Result<Book, NotABook>
    ensures found { IfOk result (λ found. book meta.items ≡ Ok found) }
    ensures fault { IfErr result (λ refusal. (refusal.fault ≡ PackageFault.NoMemory)
        ⊎ (book meta.items ≡ Err refusal.fault)) }
    ensures back { IfErr result (λ refusal. refusal.bytes ≡ meta) }
{
    match book_in(alloc, &meta) {
        Ok(found) => Ok(found),
        Err(fault) => Err(NotABook { fault, bytes: meta }),
    }
}
