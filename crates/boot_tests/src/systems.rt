//! Stores with one system, and what may be wrong with it.

use boot_core::MemLook;
use far_archive::{FarEntry, write_far};
use pkg_merkle::BYTES_LIMIT;
use pkg_names::{Bytes, Items, Root, read_file, write_root};
use std::alloc::{AllocError, Global};
use std::test::Fail;

/// What may be wrong with a system.
#[derive(Clone, Copy, Debug, PartialEq, Eq)]
pub enum Wrong {
    NoSystem,
    NoBook,
    NoStatic,
    NoFile,
    LongStatic,
    BadStatic,
    LongCached,
    BadCached,
    NoBase,
    NoBaseBook,
    NoBaseFile,
}

/// All of it, in the order in which it counts.
pub const ALL: [Wrong; 11] = [
    Wrong::NoSystem,
    Wrong::NoBook,
    Wrong::NoStatic,
    Wrong::NoFile,
    Wrong::LongStatic,
    Wrong::BadStatic,
    Wrong::LongCached,
    Wrong::BadCached,
    Wrong::NoBase,
    Wrong::NoBaseBook,
    Wrong::NoBaseFile,
];

/// A file of the system package, and one of a package of the base.
pub const FILE: Root = Root([1; 32]);

pub const BASE_FILE: Root = Root([2; 32]);

/// A store with one system.
#[derive(Drop)]
pub struct System {
    pub look: MemLook,
    pub root: Root,
    pub base: [Root; 3],
}

/// Adds a blob.
pub fn add(look: &mut MemLook, bytes: Vec<u8>) -> Result<Root, AllocError> {
    let bytes = Items::make(bytes);
    if bytes.as_slice().len() > BYTES_LIMIT {
        return Err(AllocError);
    }
    look.add(bytes)
}

/// The line of a list or of contents.
pub fn put_line(out: &mut Vec<u8>, name: &[u8], root: &Root) -> Result<(), AllocError> {
    let mut text = [0u8; 64];
    write_root(root, &mut text);
    out.extend_from_slice(name)?;
    out.push(b'=')?;
    out.extend_from_slice(&text)?;
    out.push(b'\n')?;
    Ok(())
}

fn entry(alloc: Global, name: &[u8], bytes: Vec<u8>) -> Result<FarEntry, Fail> {
    Ok(FarEntry {
        name: read_file(alloc, name)?,
        bytes: Bytes::make(bytes),
    })
}

/// The meta blob of a package with these lines.
pub fn package_of(alloc: Global, lines: Vec<u8>) -> Result<Vec<u8>, Fail> {
    let about = b"{\"name\":\"example\",\"version\":\"0\"}".to_vec(alloc)?;
    let contents = entry(alloc, b"meta/contents", lines)?;
    let package = entry(alloc, b"meta/package", about)?;
    let entries = vec![in alloc; contents, package]?;
    Ok(write_far(alloc, &entries)?)
}

// A list, or one that is too long, or one that can't be read.
fn text_of(alloc: Global, long: bool, bad: bool, good: Vec<u8>) -> Result<Vec<u8>, AllocError> {
    if long {
        return vec![in alloc; b'x'; 1_048_577];
    }
    if bad {
        return b"x".to_vec(alloc);
    }
    Ok(good)
}

// Three packages of the base: the first may be missing, the second no book, the third without its file.
fn base_of(alloc: Global, look: &mut MemLook, wrongs: &[Wrong]) -> Result<[Root; 3], Fail> {
    let first = if wrongs.contains(&Wrong::NoBase) {
        Root([7; 32])
    } else {
        add(look, package_of(alloc, Vec::new(alloc))?)?
    };
    let second = if wrongs.contains(&Wrong::NoBaseBook) {
        add(look, b"hi".to_vec(alloc)?)?
    } else {
        first
    };
    let file = if wrongs.contains(&Wrong::NoBaseFile) {
        BASE_FILE
    } else {
        add(look, b"b".to_vec(alloc)?)?
    };
    let mut lines = Vec::new(alloc);
    put_line(&mut lines, b"data/b", &file)?;
    let third = add(look, package_of(alloc, lines)?)?;
    Ok([first, second, third])
}

// The static list, which names these packages.
fn static_of(
    alloc: Global,
    look: &mut MemLook,
    wrongs: &[Wrong],
    base: &[Root; 3],
) -> Result<Root, Fail> {
    let mut lines = Vec::new(alloc);
    put_line(&mut lines, b"a/0", &base[0])?;
    put_line(&mut lines, b"b/0", &base[1])?;
    put_line(&mut lines, b"c/0", &base[2])?;
    let long = wrongs.contains(&Wrong::LongStatic);
    let bad = wrongs.contains(&Wrong::BadStatic);
    Ok(add(look, text_of(alloc, long, bad, lines)?)?)
}

// The cached list, which names one package.
fn cached_of(alloc: Global, look: &mut MemLook, wrongs: &[Wrong]) -> Result<Root, Fail> {
    let mut text = b"{\"version\":\"1\",\"content\":[\"fuchsia-pkg://fuchsia.com/d/0?hash".to_vec(
        alloc,
    )?;
    put_line(&mut text, b"", &Root([9; 32]))?;
    let _ = text.pop();
    text.extend_from_slice(b"\"]}")?;
    let long = wrongs.contains(&Wrong::LongCached);
    let bad = wrongs.contains(&Wrong::BadCached);
    Ok(add(look, text_of(alloc, long, bad, text)?)?)
}

// The lines of the system package.
fn lines_of(
    alloc: Global,
    look: &mut MemLook,
    wrongs: &[Wrong],
    cached: bool,
    base: &[Root; 3],
) -> Result<Vec<u8>, Fail> {
    let mut lines = Vec::new(alloc);
    if cached {
        let root = cached_of(alloc, look, wrongs)?;
        put_line(&mut lines, b"data/cache_packages.json", &root)?;
    }
    if !wrongs.contains(&Wrong::NoStatic) {
        let root = static_of(alloc, look, wrongs, base)?;
        put_line(&mut lines, b"data/static_packages", &root)?;
    }
    if wrongs.contains(&Wrong::NoFile) {
        put_line(&mut lines, b"data/z", &FILE)?;
    }
    Ok(lines)
}

/// A store with a system of which this is wrong, and whose listed reads fail.
pub fn system_of(
    alloc: Global,
    wrongs: &[Wrong],
    cached: bool,
    failing: Vec<u64>,
) -> Result<System, Fail> {
    let mut look = MemLook::make(alloc, failing);
    let base = base_of(alloc, &mut look, wrongs)?;
    let lines = lines_of(alloc, &mut look, wrongs, cached, &base)?;
    let root = if wrongs.contains(&Wrong::NoSystem) {
        Root([8; 32])
    } else if wrongs.contains(&Wrong::NoBook) {
        add(&mut look, b"system".to_vec(alloc)?)?
    } else {
        add(&mut look, package_of(alloc, lines)?)?
    };
    Ok(System { look, root, base })
}
