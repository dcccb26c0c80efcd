//! Lines with an index of their paths.

ghost use Rattle.std.specs.Prelude.{◌≡◌, ◌++◌, ◌∷◌, [], length, OnOk, OnErr};
ghost use Rattle.meta_contents.specs.Contents.{pairs, paths, is_among};
ghost use Rattle.meta_contents.specs.Invariant.{HasPaths};

use crate::contents::ContentsLine;
use std::alloc::{AllocError, Global};
use std::collections::BTreeSet;
use std::marker::Model;

/// Lines in the order in which they came. Contracts see their list. A path is found by bisection.
#[derive(Debug, Drop)]
pub(crate) struct IndexedLines {
    lines: Vec<ContentsLine>,
    index: BTreeSet<Vec<u8>>,
    alloc: Global,
}

impl Model for IndexedLines {
    ghost use Rattle.std.specs.Prelude.{List};
    ghost use Rattle.meta_contents.specs.declared.contents.ContentsLine.{ContentsLine};
    ghost use Rattle.meta_contents.specs.Invariant.{HasPaths};

    ghost Value = { List ContentsLine };

    ghost view = { λ l. l.lines.items };

    ghost invariant = { λ l. HasPaths l.index l.lines.items };
}

impl IndexedLines {
    pub(crate) fn new(alloc: Global) -> IndexedLines
        ensures { result ≡ [] }
    {
        IndexedLines {
            lines: Vec::new(alloc),
            index: BTreeSet::new(alloc),
            alloc,
        }
    }

    pub(crate) fn as_slice(&self) -> &[ContentsLine]
        ensures { result.now ≡ self.now }
    {
        &self.lines
    }

    /// Whether a line has this path.
    pub(crate) fn has(&self, path: &[u8]) -> bool
        ensures { result ≡ is_among path.now (paths (pairs self.now)) }
    {
        self.index.contains(path)
    }

    /// Puts a line last. Where memory is wanting, nothing changes.
    pub(crate) fn push(&mut self, line: ContentsLine) -> Result<(), AllocError>
        ensures ok { OnOk result (self.new ≡ self.old ++ line ∷ []) }
        ensures err { OnErr result (self.new ≡ self.old) }
    {
        let path = Vec::from_slice(self.alloc, line.file.as_slice())?;
        self.lines.push(line)?;
        match self.index.insert(path) {
            Ok(_) => Ok(()),
            Err(_) => {
                let _ = self.lines.pop();
                Err(AllocError)
            }
        }
    }
}
