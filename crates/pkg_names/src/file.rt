ghost use Rattle.std.specs.Prelude.{◌≡◌, ◌↔◌, ◌⊎◌, IsTrue, IfOk, IsErrOf, IsOk, All, Err, IsUtf8, List, ℕ};
ghost use Rattle.pkg_names.specs.FileText.{IsFile, IsSegment, segments, is_file_text};
ghost use Rattle.pkg_names.specs.declared.file.FileFault.TheVariants.{NoMemory};

use crate::lists::Bytes;
use std::alloc::{AllocError, Global};
use std::marker::Model;

/// The path of a file within a package. Contracts see its bytes.
#[derive(Debug, PartialEq, Eq, Drop)]
pub struct FilePath {
    text: Bytes,
}

impl Model for FilePath {
    ghost use Rattle.std.specs.Prelude.{List, ℕ};
    ghost use Rattle.pkg_names.specs.FileText.{IsFile};

    ghost Value = { List ℕ };

    ghost view = { λ f. f.text };

    ghost invariant = { λ f. IsFile f.text };

    ghost inverse = { λ text. record { text = text } };
}

impl FilePath {
    pub fn as_slice(&self) -> &[u8]
        ensures text { result.now ≡ self.now }
        ensures valid { IsFile self.now }
    {
        self.text.as_slice()
    }

    /// An equal path.
    pub fn try_copy(&self, alloc: Global) -> Result<FilePath, AllocError>
        ensures same { IfOk result (λ file. file ≡ self.now) }
    {
        Ok(FilePath {
            text: self.text.try_copy(alloc)?,
        })
    }
}

/// Why a text is no file path.
#[derive(Clone, Copy, Debug, PartialEq, Eq)]
pub enum FileFault {
    /// The text is no file path: `docs/formats.md` has the rule.
    BadFile,
    NoMemory,
}

impl From<AllocError> for FileFault {
    ghost from_gives = { λ _ e. e ≡ NoMemory };

    fn from(_e: AllocError) -> FileFault {
        FileFault::NoMemory
    }
}

/// Reads a file path.
pub fn read_file(alloc: Global, text: &[u8]) -> Result<FilePath, FileFault>
    ensures found { IfOk result (λ file. file ≡ text.now) }
    ensures valid { IfOk result IsFile }
    ensures only { IsFile text.now → IsOk result ⊎ (result ≡ Err NoMemory) }
    ensures bad_file { IsErrOf result FileFault.BadFile → ¬ IsFile text.now }
{
    if !is_file(text) {
        return Err(FileFault::BadFile);
    }
    Ok(FilePath {
        text: Bytes::make(Vec::from_slice(alloc, text)?),
    })
}

/// The longest file path, in bytes.
pub const FILE_PATH_LIMIT: usize = 4095;

/// The longest part of a file path, in bytes.
pub const SEGMENT_LIMIT: usize = 255;

/// Whether the text is a file path.
pub fn is_file(text: &[u8]) -> bool
    ensures fact { IsTrue result ↔ IsFile text.now }
    ensures test { result ≡ is_file_text text.now }
{
    passes_all(text)
}

/// The test decides the fact, for every list of bytes.
pub fn files_are_tested()
    ensures { (text : List ℕ) → IsTrue (is_file_text text) ↔ IsFile text }
{}

fn passes_all(text: &[u8]) -> bool
    ensures { IsTrue result ↔ IsFile text.now }
{
    !text.is_empty()
        && text.len() <= FILE_PATH_LIMIT
        && text.iter().all(|c| *c != 0)
        && text.iter().all(|c| *c != b'\n')
        && has_segments(text)
        && is_utf8(text)
}

fn has_segments(text: &[u8]) -> bool
    ensures { IsTrue result ↔ All IsSegment (segments text.now) }
{
    text.split(|c| *c == b'/').all(|part| is_segment(part))
}

fn is_utf8(text: &[u8]) -> bool
    ensures { IsTrue result ↔ IsUtf8 text.now }
{
    str::from_utf8(text).is_ok()
}

fn is_segment(text: &[u8]) -> bool
    ensures { IsTrue result ↔ IsSegment text.now }
{
    !text.is_empty()
        && text.len() <= SEGMENT_LIMIT
        && text != b".".as_slice()
        && text != b"..".as_slice()
}
