//! Books: of the packages of the format's examples, each refusal in its order, and a shelf.

use crate::common::{NO_FILES, ONES, TWOS, entries_of, joined, root_of_byte};
use far_archive::{FarFault, write_far};
use meta_contents::{ContentsFault, PackageNameFault};
use package_book::{Book, META_LIMIT, PackageFault, Shelf, Shelved, book_of};
use pkg_names::{FileFault, Root, read_file, read_root};
use std::alloc::{AllocError, Global};
use std::test::Fail;

const EXAMPLE: &[u8] = b"{\"name\":\"example\",\"version\":\"0\"}";

// The archive of these files.
fn meta_of(alloc: Global, files: &[(&[u8], &[u8])]) -> Result<Vec<u8>, Fail> {
    let entries = entries_of(alloc, files)?;
    if entries.len() > 100 {
        return Ok(Vec::new(alloc));
    }
    Ok(write_far(alloc, &entries)?)
}

// The archive of a package with these lines.
fn package_of(alloc: Global, lines: &[u8]) -> Result<Vec<u8>, Fail> {
    meta_of(
        alloc,
        &[(b"meta/contents", lines), (b"meta/package", EXAMPLE)],
    )
}

// Whether the book has these files: within the archive by their bytes, outside by their roots.
fn has_files(
    alloc: Global,
    book: &Book,
    files: &[(&[u8], Option<&[u8]>, Option<Root>)],
) -> Result<bool, FileFault> {
    for (name, inner, outer) in files {
        let file = read_file(alloc, name)?;
        if book.inner(&file) != *inner || book.outer(&file) != *outer {
            return Ok(false);
        }
    }
    Ok(true)
}

#[test]
fn reads(rt: HostRuntime) -> Result<(), Fail> {
    let alloc = rt.alloc();
    let (one, two) = (read_root(ONES)?, read_root(TWOS)?);
    let lines = joined(alloc, &[b"data/a=", ONES, b"\ndata/b=", TWOS, b"\n"])?;
    let meta = package_of(alloc, &lines)?;
    assert_eq!(rt; meta.len(), 12288);
    let book = book_of(alloc, meta)?;
    let files = [
        (b"meta/contents".as_slice(), Some(lines.as_slice()), None),
        (b"meta/package", Some(EXAMPLE), None),
        (b"data/a", None, Some(one)),
        (b"data/b", None, Some(two)),
        (b"data", None, None),
        (b"data/c", None, None),
    ];
    assert!(rt; has_files(alloc, &book, &files)?);
    assert!(rt; book.outer_roots() == [one, two].as_slice());
    Ok(())
}

// A root at two paths is listed once, at its first line.
#[test]
fn lists_roots_once(rt: HostRuntime) -> Result<(), Fail> {
    let alloc = rt.alloc();
    let (one, two) = (read_root(ONES)?, read_root(TWOS)?);
    for ([a, b, c, d], roots) in [
        ([ONES, TWOS, ONES, TWOS], [one, two].as_slice()),
        ([TWOS, TWOS, ONES, TWOS], &[two, one]),
        ([TWOS, TWOS, TWOS, TWOS], &[two]),
    ] {
        let lines = joined(alloc, &[b"a=", a, b"\nb=", b, b"\nc=", c, b"\nd=", d])?;
        let book = book_of(alloc, package_of(alloc, &lines)?)?;
        assert!(rt; book.outer_roots() == roots);
    }
    Ok(())
}

// What is wrong, if the bytes come back.
fn refusal_of(alloc: Global, meta: Vec<u8>) -> Result<Option<PackageFault>, AllocError> {
    let bytes = Vec::from_slice(alloc, &meta)?;
    let Err(refusal) = book_of(alloc, meta) else {
        return Ok(None);
    };
    if refusal.bytes == bytes {
        Ok(Some(refusal.fault))
    } else {
        Ok(None)
    }
}

#[test]
fn refuses(rt: HostRuntime) -> Result<(), Fail> {
    let alloc = rt.alloc();
    let contents = b"meta/contents".as_slice();
    let package = b"meta/package".as_slice();
    let long = META_LIMIT + 1;
    for (meta, fault) in vec![in alloc;
        (
            vec![in alloc; 0; long]?,
            PackageFault::Long { len: 1_048_577 }
        ),
        (
            vec![in alloc; 0; META_LIMIT]?,
            PackageFault::Far(FarFault::Magic)
        ),
        (
            vec![in alloc; b'h', b'i']?,
            PackageFault::Far(FarFault::Magic)
        ),
        (meta_of(alloc, &[])?, PackageFault::NoContents),
        (NO_FILES.to_vec(alloc)?, PackageFault::NoContents),
        (
            meta_of(alloc, &[(package, b"x")])?,
            PackageFault::NoContents
        ),
        (
            meta_of(alloc, &[(contents, b"a")])?,
            PackageFault::Contents(ContentsFault::Line { n: 1 })
        ),
        (
            meta_of(alloc, &[(contents, b"\xff"), (package, b"x")])?,
            PackageFault::Contents(ContentsFault::Utf8)
        ),
        (meta_of(alloc, &[(contents, b"")])?, PackageFault::NoPackage),
        (
            meta_of(alloc, &[(contents, b""), (package, b"x")])?,
            PackageFault::Package(PackageNameFault::Json)
        ),
        (
            meta_of(alloc, &[(contents, b""), (package, b"{}")])?,
            PackageFault::Package(PackageNameFault::Field)
        ),
    ]? {
        assert_eq!(rt; refusal_of(alloc, meta)?, Some(fault));
    }
    Ok(())
}

// What a shelf has of a package: how many roots its book lists, or its fault and how many bytes.
fn found(shelf: &Shelf, root: &Root) -> Option<Result<usize, (PackageFault, usize)>> {
    match shelf.get(root)? {
        Shelved::Good(book) => Some(Ok(book.outer_roots().len())),
        Shelved::Bad(fault, bytes) => Some(Err((*fault, bytes.as_slice().len()))),
    }
}

// Adds a meta blob, where the root isn't there.
fn put(shelf: &mut Shelf, root: Root, meta: Vec<u8>) -> Result<(), AllocError> {
    if shelf.get(&root).is_some() {
        return Ok(());
    }
    shelf.add(root, meta)
}

#[test]
fn shelves(rt: HostRuntime) -> Result<(), Fail> {
    let alloc = rt.alloc();
    let roots = [1, 2, 3, 4].map(root_of_byte);
    let lines = joined(alloc, &[b"a=", ONES, b"\nb=", ONES])?;
    let magic = PackageFault::Far(FarFault::Magic);
    let long = PackageFault::Long { len: 1_048_577 };
    let mut shelf = Shelf::new(alloc);
    shelf.add_long(roots[3], 1_048_577)?;
    put(&mut shelf, roots[1], package_of(alloc, &lines)?)?;
    put(&mut shelf, roots[0], b"hi".to_vec(alloc)?)?;
    put(&mut shelf, roots[0], package_of(alloc, &lines)?)?;
    let wanted = [
        Some(Err((magic, 2))),
        Some(Ok(1)),
        None,
        Some(Err((long, 0))),
    ];
    for (root, has) in roots.iter().zip(wanted) {
        assert_eq!(rt; found(&shelf, root), has);
    }
    shelf.remove(&roots[2]);
    shelf.remove(&roots[1]);
    let wanted = [Some(Err((magic, 2))), None, None, Some(Err((long, 0)))];
    for (root, has) in roots.iter().zip(wanted) {
        assert_eq!(rt; found(&shelf, root), has);
    }
    Ok(())
}
