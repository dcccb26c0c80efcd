//! A file of a repository.

ghost use Rattle.std.specs.Prelude.{◌≡◌, IfOk};

use pkg_names::{Bytes, Root};
use std::alloc::{AllocError, Global};

/// A file of a repository: the root under which it stands, the length that is declared before its
/// bytes come, and the bytes. It is honest where both are those of the bytes.
#[derive(Debug, Drop)]
pub struct RepoFile {
    pub root: Root,
    pub len: u64,
    pub bytes: Bytes,
}

impl RepoFile {
    // An equal file.
    pub(crate) fn try_copy(&self, alloc: Global) -> Result<RepoFile, AllocError>
        ensures same { IfOk result (λ file. file ≡ self.now) }
    {
        Ok(RepoFile {
            root: self.root,
            len: self.len,
            bytes: self.bytes.try_copy(alloc)?,
        })
    }
}
