//! Packages that are made of their files, and the repository that has them.

use far_archive::{FarEntry, write_far};
use pkg_merkle::{BYTES_LIMIT, root_of};
use pkg_names::{Bytes, Pinned, Root, read_file, read_path, write_root};
use repo_source::{MemRepo, RepoFile};
use std::alloc::{AllocError, Global};
use std::test::Fail;

/// Files and a listing, of which a repository is made.
#[derive(Drop)]
pub struct Shop {
    alloc: Global,
    listing: Vec<Pinned>,
    files: Vec<RepoFile>,
}

impl Shop {
    pub fn new(alloc: Global) -> Shop {
        Shop {
            alloc,
            listing: Vec::new(alloc),
            files: Vec::new(alloc),
        }
    }

    /// A file with its root and its length.
    pub fn file(&mut self, bytes: &[u8]) -> Result<Root, AllocError> {
        let root = root_or_none(bytes);
        self.file_under(root, bytes.len() as u64, bytes)?;
        Ok(root)
    }

    /// A file that stands under this root, with this declared length.
    pub fn file_under(&mut self, root: Root, len: u64, bytes: &[u8]) -> Result<(), AllocError> {
        let bytes = Bytes::make(bytes.to_vec(self.alloc)?);
        self.files.push(RepoFile { root, len, bytes })?;
        Ok(())
    }

    /// A file of a package, and its line behind the others.
    pub fn line(
        &mut self,
        lines: &mut Vec<u8>,
        path: &[u8],
        bytes: &[u8],
    ) -> Result<(), AllocError> {
        let root = self.file(bytes)?;
        push_line(lines, path, &root)
    }

    /// A package with these lines, whose paths are in order. It is listed under its name.
    pub fn package(&mut self, name: &[u8], lines: Vec<u8>) -> Result<Root, Fail> {
        let meta = meta_of(self.alloc, name, lines)?;
        let root = self.file(&meta)?;
        self.listing.push(Pinned {
            path: read_path(self.alloc, name)?,
            root,
        })?;
        Ok(root)
    }

    /// A package of one file.
    pub fn package_of(&mut self, name: &[u8], path: &[u8], bytes: &[u8]) -> Result<Root, Fail> {
        let mut lines = Vec::new(self.alloc);
        self.line(&mut lines, path, bytes)?;
        self.package(name, lines)
    }

    /// The bytes of the files, in the order in which they came.
    pub fn files(&self) -> &[RepoFile] {
        &self.files
    }

    /// The packages that are listed, in the order in which they came.
    pub fn listing(&self) -> &[Pinned] {
        &self.listing
    }

    /// Without the files under this root.
    pub fn without(mut self, root: Root) -> Shop {
        self.files.retain(|file| file.root != root);
        self
    }

    /// The repository, whose calls with these numbers fail.
    pub fn into_repo(self, failing: Vec<u64>) -> MemRepo {
        MemRepo::make(self.listing, self.files, failing)
    }
}

// The root of a blob. Longer ones are no blobs.
fn root_or_none(bytes: &[u8]) -> Root {
    if bytes.len() <= BYTES_LIMIT {
        root_of(bytes)
    } else {
        Root([0; 32])
    }
}

/// The text with the digits of the first root in place of each `$0`, and so on.
pub fn with_roots(alloc: Global, text: &[u8], roots: &[Root]) -> Result<Vec<u8>, AllocError> {
    let mut out = Vec::new(alloc);
    let mut is_marked = false;
    for byte in text {
        if is_marked {
            push_root(&mut out, byte.wrapping_sub(b'0') as usize, roots)?;
            is_marked = false;
        } else if *byte == b'$' {
            is_marked = true;
        } else {
            out.push(*byte)?;
        }
    }
    Ok(out)
}

// Puts the digits of a root last.
fn push_root(out: &mut Vec<u8>, place: usize, roots: &[Root]) -> Result<(), AllocError> {
    let mut text = [0u8; 64];
    if let Some(root) = roots.get(place) {
        write_root(root, &mut text);
    }
    out.extend_from_slice(&text)
}

/// Puts a line of contents last.
pub fn push_line(lines: &mut Vec<u8>, path: &[u8], root: &Root) -> Result<(), AllocError> {
    let mut text = [0u8; 64];
    write_root(root, &mut text);
    lines.extend_from_slice(path)?;
    lines.push(b'=')?;
    lines.extend_from_slice(&text)?;
    lines.push(b'\n')?;
    Ok(())
}

// The meta blob of the package of this name, which lists these lines.
fn meta_of(alloc: Global, name: &[u8], lines: Vec<u8>) -> Result<Vec<u8>, Fail> {
    let mut about = b"{\"name\":\"".to_vec(alloc)?;
    about.extend_from_slice(name)?;
    about.extend_from_slice(b"\",\"version\":\"0\"}")?;
    let contents = entry(alloc, b"meta/contents", lines)?;
    let package = entry(alloc, b"meta/package", about)?;
    let entries = vec![in alloc; contents, package]?;
    Ok(write_far(alloc, &entries)?)
}

fn entry(alloc: Global, name: &[u8], bytes: Vec<u8>) -> Result<FarEntry, Fail> {
    Ok(FarEntry {
        name: read_file(alloc, name)?,
        bytes: Bytes::make(bytes),
    })
}
