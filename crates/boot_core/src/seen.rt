//! What was looked at of a store.

ghost use Rattle.std.specs.Prelude.{◌≡◌, ◌≤◌, ◌<◌, ◌∷◌, ◌++◌, [], ℕ, List, Option, Some, None, Err, IfErr, IfSome, OnOk, OnErr, is_some, length};
ghost use Rattle.std.specs.Option.{option_copied};
ghost use Rattle.pkg_names.specs.Streams.{Rose};
ghost use Rattle.package_book.specs.Books.{book_at, Sets};
ghost use Rattle.package_book.specs.Books.Meta.{Read, Long};
ghost use Rattle.boot_core.specs.Look.{bytes_in, IsBlob, Stocked};
ghost use Rattle.boot_core.specs.Seen.{AreSeen};
ghost use Rattle.boot_core.specs.Whole.{IsLookFault};

use crate::looking::{Look, LookReply, SeenBlob};
use crate::wholeness::WholeFault;
use package_book::{META_LIMIT, Shelf};
use pkg_names::{Bytes, Root};
use std::alloc::{AllocError, Global};

/// The blobs that were looked at, with the books of those that are meta blobs.
#[derive(Drop)]
pub(crate) struct Seen {
    pub(crate) blobs: Vec<SeenBlob>,
    pub(crate) books: Shelf,
}

impl Seen {
    /// Nothing was looked at yet.
    pub(crate) fn new(alloc: Global) -> Seen
        ensures books { result.books ≡ [] }
        ensures blobs { result.blobs.items ≡ [] }
    {
        Seen {
            blobs: Vec::new(alloc),
            books: Shelf::new(alloc),
        }
    }
}

/// The blob was looked at.
pub(crate) fn is_seen(seen: &Seen, root: &Root) -> bool
    ensures { result ≡ is_some (book_at seen.now.books root.now) }
{
    seen.books.get(root).is_some()
}

/// The bytes of the first blob of this root.
pub(crate) fn bytes_in<'a>(blobs: &'a [SeenBlob], root: &Root) -> Option<&'a [u8]>
    ensures { option_copied result ≡ bytes_in blobs.now root.now }
{
    for blob in blobs {
        if blob.root == *root {
            return Some(blob.bytes.as_slice());
        }
    }
    None
}

// Notes the bytes of a blob. Where memory is wanting, nothing changes.
fn keep(alloc: Global, seen: &mut Seen, root: Root, bytes: Bytes) -> Result<(), AllocError>
    requires { book_at seen.old.books root ≡ None }
    ensures books { OnOk result (Sets root (Some (Read bytes)) seen.old.books seen.new.books) }
    ensures blobs { OnOk result (seen.new.blobs.items
        ≡ seen.old.blobs.items ++ record { root = root; bytes = bytes } ∷ []) }
    ensures err { OnErr result ((seen.new.books ≡ seen.old.books)
        × (seen.new.blobs.items ≡ seen.old.blobs.items)) }
{
    let meta = bytes.try_copy(alloc)?;
    seen.blobs.push(SeenBlob { root, bytes })?;
    if let Err(fault) = seen.books.add(root, meta.into_vec()) {
        let _ = seen.blobs.pop();
        return Err(fault);
    }
    Ok(())
}

/// Looks at a blob, unless it was looked at. Where that fails, what was looked at stays.
pub(crate) fn look_at<L: Look>(
    alloc: Global,
    look: &mut L,
    seen: &mut Seen,
    root: &Root,
) -> Result<(), WholeFault>
    ensures seen { AreSeen (L.stock look.old) (L.blobs look.old) seen.old
        → AreSeen (L.stock look.old) (L.blobs look.old) seen.new }
    ensures fault { IfErr result (IsLookFault (L.stock look.old) (L.blobs look.old)) }
    ensures cause { result ≡ Err WholeFault.Read → Rose (L.faults look.old) (L.faults look.new) }
    ensures stock_stays { L.stock look.new ≡ L.stock look.old }
    ensures blobs_stay { L.blobs look.new ≡ L.blobs look.old }
    ensures faults_never_fall { L.faults look.old ≤ L.faults look.new }
{
    if is_seen(seen, root) {
        return Ok(());
    }
    match look.look(alloc, root, META_LIMIT as u32) {
        LookReply::Bytes(bytes) => {
            keep(alloc, seen, *root, bytes)?;
            Ok(())
        }
        LookReply::TooLong { len } => {
            seen.books.add_long(*root, len)?;
            Ok(())
        }
        LookReply::Missing => Ok(()),
        LookReply::Read => Err(WholeFault::Read),
        LookReply::Rotten { got } => Err(WholeFault::Rotten { root: *root, got }),
        LookReply::NoMemory => Err(WholeFault::NoMemory),
    }
}
