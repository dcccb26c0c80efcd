//! Contents: the files of a package outside its archive, each with its root.

ghost use Rattle.std.specs.Prelude.{◌≡◌, ◌↔◌, ◌++◌, ◌∷◌, [], List, length, true, false, Err, OnOk, OnErr, IfOk, IsErrOf};
ghost use Rattle.pkg_names.specs.Text.{line_feed};
ghost use Rattle.meta_contents.specs.Contents.{Pair, pairs, paths, is_in_meta, is_among, IsContents, StandsFor, line_text, text_of};

use crate::fault::AddFault;
use crate::indexed::IndexedLines;
use pkg_names::{Bytes, FilePath, Root, write_root};
use std::alloc::{AllocError, Global};
use std::marker::Model;

/// A file and its root.
#[derive(Debug, Drop)]
pub struct ContentsLine {
    pub file: FilePath,
    pub root: Root,
}

/// The files of a package outside its archive. Contracts see the list of pairs, a file and its root.
#[derive(Debug, Drop)]
pub struct Contents {
    lines: IndexedLines,
}

impl Model for Contents {
    ghost use Rattle.std.specs.Prelude.{List};
    ghost use Rattle.meta_contents.specs.Contents.{Pair, pairs, IsContents};

    ghost Value = { List Pair };

    ghost view = { λ c. pairs c.lines };

    ghost invariant = { λ c. IsContents (pairs c.lines) };
}

/// The most files that contents have.
pub const LINE_LIMIT: usize = 4096;

impl Contents {
    /// No files.
    pub fn new(alloc: Global) -> Contents
        ensures { result ≡ [] }
    {
        Contents {
            lines: IndexedLines::new(alloc),
        }
    }

    pub fn lines(&self) -> &[ContentsLine]
        ensures list { pairs result.now ≡ self.now }
        ensures valid { IsContents self.now }
    {
        self.lines.as_slice()
    }

    /// Puts a file and its root last. A refusal changes nothing.
    pub fn add(&mut self, file: FilePath, root: Root) -> Result<(), AddFault>
        ensures ok { OnOk result (self.new ≡ self.old ++ (file, root) ∷ []) }
        ensures err { OnErr result (self.new ≡ self.old) }
        ensures in_meta { (result ≡ Err AddFault.InMeta) ↔ (is_in_meta file ≡ true) }
        ensures repeat { IsErrOf result AddFault.Repeat → is_among file (paths self.old) ≡ true }
        ensures repeated { is_in_meta file ≡ false → is_among file (paths self.old) ≡ true
            → result ≡ Err AddFault.Repeat }
        ensures too_many { IsErrOf result AddFault.TooMany → length self.old ≡ LINE_LIMIT }
        ensures full { is_in_meta file ≡ false → is_among file (paths self.old) ≡ false
            → length self.old ≡ LINE_LIMIT → result ≡ Err AddFault.TooMany }
    {
        if is_in_meta(file.as_slice()) {
            return Err(AddFault::InMeta);
        }
        if self.lines.has(file.as_slice()) {
            return Err(AddFault::Repeat);
        }
        if self.lines.as_slice().len() >= LINE_LIMIT {
            return Err(AddFault::TooMany);
        }
        self.lines.push(ContentsLine { file, root })?;
        Ok(())
    }
}

/// Whether a path begins with `meta/`.
pub fn is_in_meta(path: &[u8]) -> bool
    ensures { result ≡ is_in_meta path.now }
{
    path.starts_with(b"meta/")
}

/// Writes one line for each file, in order.
pub fn write_contents(alloc: Global, contents: &Contents) -> Result<Bytes, AllocError>
    ensures text { IfOk result (λ bytes. bytes ≡ text_of contents.now) }
    ensures stands { IfOk result (λ bytes. StandsFor bytes contents.now) }
{
    let mut out = Vec::new(alloc);
    for line in contents.lines() {
        put_line(&mut out, line)?;
    }
    Ok(Bytes::make(out))
}

fn put_line(out: &mut Vec<u8>, line: &ContentsLine) -> Result<(), AllocError>
    ensures { OnOk result (out.new.items
        ≡ out.old.items ++ (line_text (line.now.file, line.now.root) ++ line_feed ∷ [])) }
{
    let mut digits = [0u8; 64];
    write_root(&line.root, &mut digits);
    out.extend_from_slice(line.file.as_slice())?;
    out.push(b'=')?;
    out.extend_from_slice(&digits)?;
    out.push(b'\n')?;
    Ok(())
}
