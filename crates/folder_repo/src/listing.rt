//! The listing of a folder.

ghost use Rattle.std.specs.Prelude.{◌≡◌, ◌↔◌, ◌⊎◌, Some, Err, IfOk, IfSome};
ghost use Rattle.std.specs.String.{string_bytes};
ghost use Rattle.folder_repo.specs.Folder.{listing_name as name_of_listing, SaysListing, ReadsListing};
ghost use Rattle.folder_repo.specs.Listing.{listing_in};
ghost use Rattle.system_lists.specs.Lists.{IsPinnedList};
ghost use Rattle.folder_repo.specs.declared.listing.DirFault.TheVariants as faults;

use crate::files::BlobFiles;
use std::alloc::{AllocError, Global};
use std::io::{ErrorKind, Read};
use system_lists::{
    LIST_LIMIT, PinnedList, StaticFault, read_static, texts_stand_for_what_is_read,
};

/// Why a folder is no repository.
#[derive(Clone, Copy, Debug, PartialEq, Eq)]
pub enum DirFault {
    /// Its listing isn't there, is no regular file, or could not be read.
    Unreadable,
    /// The line of the listing, counted from 1, is bad; or the listing has more than [`LIST_LIMIT`] bytes,
    /// which is told as line 0.
    BadListing { line: u32 },
    NoMemory,
}

impl From<AllocError> for DirFault {
    ghost from_gives = { λ _ e. e ≡ faults.NoMemory };

    fn from(_e: AllocError) -> DirFault {
        DirFault::NoMemory
    }
}

/// The listing of a folder: the packages that its file `listing` names. Of that file one byte more is read than a
/// listing may have.
pub fn read_listing<F: BlobFiles>(
    files: &F,
    alloc: Global,
    folder: &str,
) -> Result<PinnedList, DirFault>
    ensures reads { ReadsListing (F.files files.now) folder.now result }
    ensures valid { IfOk result IsPinnedList }
{
    let Ok(name) = listing_name(alloc, folder) else {
        return Err(DirFault::NoMemory);
    };
    match files.open(name.as_str()) {
        Ok((file, _)) => read_text(alloc, file),
        Err(e) => Err(fault_of(e.kind())),
    }
}

// `<folder>/listing`.
fn listing_name(alloc: Global, folder: &str) -> Result<String, AllocError>
    ensures { IfOk result (λ name. string_bytes name ≡ name_of_listing folder.now) }
{
    let mut name = String::from_str(alloc, folder)?;
    name.push_str("/listing")?;
    Ok(name)
}

// The listing in a file, of which one byte more is read than a listing may have.
fn read_text<F: Read + Drop>(alloc: Global, file: F) -> Result<PinnedList, DirFault>
    ensures says { IfSome (F.remaining file) (λ all. SaysListing (Some all) result) }
    ensures valid { IfOk result IsPinnedList }
{
    let mut text = Vec::new(alloc);
    match file.take(LIST_LIMIT as u64 + 1).read_to_end(&mut text) {
        Ok(_) => listing_of(alloc, &text),
        Err(e) => Err(fault_of(e.kind())),
    }
}

fn fault_of(kind: ErrorKind) -> DirFault
    ensures memory { (result ≡ faults.NoMemory) ↔ (kind ≡ ErrorKind.OutOfMemory) }
    ensures other { (result ≡ faults.Unreadable) ↔ ¬ (kind ≡ ErrorKind.OutOfMemory) }
{
    match kind {
        ErrorKind::OutOfMemory => DirFault::NoMemory,
        _ => DirFault::Unreadable,
    }
}

// The listing that a text stands for.
fn listing_of(alloc: Global, text: &[u8]) -> Result<PinnedList, DirFault>
    ensures listing { (result ≡ listing_in text.now) ⊎ (result ≡ Err faults.NoMemory) }
    ensures valid { IfOk result IsPinnedList }
{
    texts_stand_for_what_is_read();
    if text.len() > LIST_LIMIT {
        return Err(DirFault::BadListing { line: 0 });
    }
    match read_static(alloc, text) {
        Ok(list) => Ok(list),
        Err(StaticFault::Line { n }) => Err(DirFault::BadListing { line: n }),
        Err(StaticFault::Repeat { n }) => Err(DirFault::BadListing { line: n }),
        Err(StaticFault::NoMemory) => Err(DirFault::NoMemory),
    }
}
