//! Roots, and packages that list them. A root is 32 times one letter, so that a list is a text.

use far_archive::{FarEntry, write_far};
use package_book::Shelf;
use pkg_names::{Bytes, FileFault, Root, read_file, write_root};
use std::alloc::{AllocError, Global};
use std::test::Fail;

pub fn root(letter: u8) -> Root {
    Root([letter; 32])
}

pub fn letter(root: &Root) -> u8 {
    root.0[0]
}

pub fn roots(alloc: Global, letters: &[u8]) -> Result<Vec<Root>, AllocError> {
    let mut roots = Vec::new(alloc);
    for letter in letters {
        roots.push(root(*letter))?;
    }
    Ok(roots)
}

pub fn letters(alloc: Global, roots: &[Root]) -> Result<Vec<u8>, AllocError> {
    let mut text = Vec::new(alloc);
    for root in roots {
        text.push(letter(root))?;
    }
    Ok(text)
}

// The root with this number in its first bytes.
pub fn numbered(number: u32) -> Root {
    let mut bytes = [7u8; 32];
    for (place, byte) in bytes.iter_mut().zip(number.to_le_bytes()) {
        *place = byte;
    }
    Root(bytes)
}

// Lines of contents for these roots, each under its own text.
fn lines_of(alloc: Global, roots: &[Root]) -> Result<Vec<u8>, AllocError> {
    let mut out = Vec::new(alloc);
    for root in roots {
        let mut text = [0u8; 64];
        write_root(root, &mut text);
        out.extend_from_slice(&text)?;
        out.push(b'=')?;
        out.extend_from_slice(&text)?;
        out.push(b'\n')?;
    }
    Ok(out)
}

fn entry(alloc: Global, name: &[u8], bytes: Vec<u8>) -> Result<FarEntry, FileFault> {
    Ok(FarEntry {
        name: read_file(alloc, name)?,
        bytes: Bytes::make(bytes),
    })
}

// The meta blob of a package that lists these roots.
pub fn package_of(alloc: Global, roots: &[Root]) -> Result<Vec<u8>, Fail> {
    let lines = lines_of(alloc, roots)?;
    let about = b"{\"name\":\"example\",\"version\":\"0\"}".to_vec(alloc)?;
    let contents = entry(alloc, b"meta/contents", lines)?;
    let package = entry(alloc, b"meta/package", about)?;
    let entries = vec![in alloc; contents, package]?;
    Ok(write_far(alloc, &entries)?)
}

// Adds a meta blob, where the root isn't there.
pub fn put(shelf: &mut Shelf, root: Root, meta: Vec<u8>) -> Result<(), AllocError> {
    if shelf.get(&root).is_some() {
        return Ok(());
    }
    shelf.add(root, meta)
}
