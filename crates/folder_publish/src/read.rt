//! A file of a tree, read whole.

ghost use Rattle.std.specs.Prelude.{◌≡◌, ◌↔◌, ◌+◌, take, IfOk, IfSome, length};
ghost use Rattle.std.specs.Option.{option_map};
ghost use Rattle.std.specs.String.{string_bytes};
ghost use Rattle.pkg_merkle.specs.declared.hasher.TheConstants.{BYTES_LIMIT};
ghost use Rattle.folder_publish.specs.Tree.{path_below, HoldsFile};
ghost use Rattle.folder_publish.specs.declared.read.ReadFault.TheVariants as faults;

use far_archive::FarEntry;
use folder_repo::BlobFiles;
use pkg_merkle::BYTES_LIMIT;
use pkg_names::{Bytes, FileFault, read_file};
use std::alloc::{AllocError, Global};
use std::io::{self, ErrorKind, Read};

/// Why a file could not be read.
#[derive(Clone, Copy, Debug, PartialEq, Eq)]
pub(crate) enum ReadFault {
    /// It isn't there, is no regular file, could not be read, or has a name that is no file path.
    Failed,
    NoMemory,
}

impl From<AllocError> for ReadFault {
    ghost from_gives = { λ _ e. e ≡ faults.NoMemory };

    fn from(_e: AllocError) -> ReadFault {
        ReadFault::NoMemory
    }
}

/// The file of this name below a folder. Of one that is too long for a blob one byte too many is read.
pub(crate) fn read_entry<F: BlobFiles>(
    files: &F,
    alloc: Global,
    folder: &str,
    name: &str,
) -> Result<FarEntry, ReadFault>
    ensures name { IfOk result (λ entry. entry.name ≡ name.now) }
    ensures bytes { IfOk result (HoldsFile (F.files files.now) folder.now) }
{
    let path = path_of(alloc, folder, name)?;
    let name = match read_file(alloc, name.as_bytes()) {
        Ok(name) => name,
        Err(FileFault::BadFile) => return Err(ReadFault::Failed),
        Err(FileFault::NoMemory) => return Err(ReadFault::NoMemory),
    };
    match files.open(path.as_str()) {
        Ok((file, len)) => match read_front(alloc, file, len) {
            Ok(bytes) => Ok(FarEntry {
                name,
                bytes: Bytes::make(bytes),
            }),
            Err(e) => Err(fault_of(e.kind())),
        },
        Err(e) => Err(fault_of(e.kind())),
    }
}

// `<folder>/<name>`.
fn path_of(alloc: Global, folder: &str, name: &str) -> Result<String, AllocError>
    ensures { IfOk result (λ path. string_bytes path ≡ path_below folder.now name.now) }
{
    let mut path = String::from_str(alloc, folder)?;
    path.push_str("/")?;
    path.push_str(name)?;
    Ok(path)
}

// What a file holds, but for what comes behind one byte more than a blob can have. There is room for so many bytes
// at once.
fn read_front<F: Read + Drop>(alloc: Global, file: F, len: u64) -> io::Result<Vec<u8>>
    ensures { IfOk result (λ bytes. IfSome (F.remaining file) (λ all. bytes.items ≡ take (BYTES_LIMIT + 1) all)) }
{
    let most = BYTES_LIMIT as u64 + 1;
    let mut bytes = Vec::with_capacity(alloc, len.min(most) as usize + 1)?;
    file.take(most).read_to_end(&mut bytes)?;
    Ok(bytes)
}

fn fault_of(kind: ErrorKind) -> ReadFault
    ensures { (result ≡ faults.NoMemory) ↔ (kind ≡ ErrorKind.OutOfMemory) }
{
    match kind {
        ErrorKind::OutOfMemory => ReadFault::NoMemory,
        _ => ReadFault::Failed,
    }
}
