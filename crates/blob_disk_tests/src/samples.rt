//! Blobs and disks of the tests.

use crate::blobs::{attach, format, land, put, read_all, read_part, room};
use blob_disk::{Blobs, LandEnd, PutEnd, RoomFault};
use blob_pages::Draft;
use disk_model::{Disk, MemDisk};
use image_layout::Geometry;
use pkg_merkle::root_of;
use pkg_names::Root;
use std::alloc::{AllocError, Global};
use std::test::Fail;

/// The smallest geometry: the selector is page 2, the copies of the table are pages 3, 4 and 5, 6, and data
/// begins at page 61.
pub const SMALL: Geometry = Geometry {
    blobs: 64,
    data_pages: 1024,
    slot_pages: 1,
};

pub const DATA: u32 = 61;

/// A blob whose bytes repeat only after many pages.
pub fn sample(alloc: Global, count: u32) -> Result<Vec<u8>, AllocError> {
    let mut bytes = Vec::new(alloc);
    for i in 0..count {
        bytes.push(((7 * (i % 251) + 3) % 251) as u8)?;
    }
    Ok(bytes)
}

/// The root of a blob, which is short.
pub fn root_for(bytes: &[u8]) -> Root {
    if bytes.len() > 100_000 {
        return Root([0; 32]);
    }
    root_of(bytes)
}

/// A disk with an empty stock, which took six acts.
pub fn empty(alloc: Global) -> Result<MemDisk, Fail> {
    let mut disk = MemDisk::make(alloc, 1085, Vec::new(alloc))?;
    if format(&mut disk, &SMALL) {
        Ok(disk)
    } else {
        Err(Fail::new("no stock"))
    }
}

/// The blobs of a disk that has some.
pub fn attached<D: Disk>(alloc: Global, disk: &mut D) -> Result<Blobs, Fail> {
    match attach(alloc, disk, &SMALL) {
        Some(Ok(blobs)) => Ok(blobs),
        _ => Err(Fail::new("not attached")),
    }
}

/// The draft of a blob, for which there is room.
pub fn draft_of(alloc: Global, blobs: &mut Blobs, root: Root, len: u64) -> Result<Draft, Fail> {
    match room(alloc, blobs, root, len) {
        Some(Ok(draft)) => Ok(draft),
        _ => Err(Fail::new("no room")),
    }
}

/// Whether a piece is taken.
pub fn takes<D: Disk>(blobs: &mut Blobs, disk: &mut D, draft: &mut Draft, bytes: &[u8]) -> bool {
    put(blobs, disk, draft, bytes) == Some(PutEnd::Taken)
}

/// Whether a draft lands, and gives these bytes back.
pub fn lands<D: Disk>(blobs: &mut Blobs, disk: &mut D, draft: Draft, bytes: &[u8]) -> bool {
    match land(blobs, disk, draft) {
        Some(LandEnd::Landed(Some(kept))) => kept.as_slice() == bytes,
        _ => false,
    }
}

/// How it ended that a blob came in one piece.
#[derive(Clone, Copy, Debug, PartialEq, Eq)]
pub enum Came {
    Landed,
    PutBroke,
    LandBroke,
}

// How a landing ended that gave these bytes back, or broke.
fn how_it_landed(end: Option<LandEnd>, bytes: &[u8]) -> Result<Came, Fail> {
    match end {
        Some(LandEnd::Landed(Some(kept))) if kept.as_slice() == bytes => Ok(Came::Landed),
        Some(LandEnd::Broke) => Ok(Came::LandBroke),
        _ => Err(Fail::new("not landed")),
    }
}

/// Stores a blob of one piece.
pub fn store<D: Disk>(
    alloc: Global,
    blobs: &mut Blobs,
    disk: &mut D,
    bytes: &[u8],
) -> Result<Came, Fail> {
    let mut draft = draft_of(alloc, blobs, root_for(bytes), bytes.len() as u64)?;
    match put(blobs, disk, &mut draft, bytes) {
        Some(PutEnd::Taken) => how_it_landed(land(blobs, disk, draft), bytes),
        Some(PutEnd::Broke) => Ok(Came::PutBroke),
        _ => Err(Fail::new("not put")),
    }
}

/// Stores a blob of one piece on a disk that doesn't fail.
pub fn store_whole<D: Disk>(
    alloc: Global,
    blobs: &mut Blobs,
    disk: &mut D,
    bytes: &[u8],
) -> Result<(), Fail> {
    match store(alloc, blobs, disk, bytes)? {
        Came::Landed => Ok(()),
        _ => Err(Fail::new("not stored")),
    }
}

/// A disk with these blobs, and its stock.
pub fn stock_of(alloc: Global, list: &[&[u8]]) -> Result<(MemDisk, Blobs), Fail> {
    let mut disk = empty(alloc)?;
    let mut blobs = attached(alloc, &mut disk)?;
    for bytes in list {
        store_whole(alloc, &mut blobs, &mut disk, bytes)?;
    }
    Ok((disk, blobs))
}

/// The page of the disk with the first page of the blob at this place of the stock.
pub fn first_page(blobs: &Blobs, at: usize) -> Option<u32> {
    let entry = blobs.entries().get(at)?;
    DATA.checked_add(*entry.pages.as_slice().first()?)
}

// Whether the entry at this place is of the blob, and the blob is read.
fn is_read<D: Disk>(alloc: Global, blobs: &Blobs, disk: &mut D, at: usize, bytes: &[u8]) -> bool {
    let root = root_for(bytes);
    match blobs.entries().get(at) {
        Some(entry) if entry.root == root => {}
        _ => return false,
    }
    match read_all(alloc, blobs, disk, &root, 65_536) {
        Some(Ok(read)) => read.as_slice() == bytes,
        _ => false,
    }
}

/// Whether the stock is this blob, and then that one if there is one.
pub fn are_stored<D: Disk>(
    alloc: Global,
    blobs: &Blobs,
    disk: &mut D,
    first: &[u8],
    second: Option<&[u8]>,
) -> bool {
    if !is_read(alloc, blobs, disk, 0, first) {
        return false;
    }
    match second {
        Some(bytes) => blobs.entries().len() == 2 && is_read(alloc, blobs, disk, 1, bytes),
        None => blobs.entries().len() == 1,
    }
}

/// Whether a read of this many bytes from this place on gives that many of the blob, and leaves the others.
pub fn reads_part<D: Disk>(
    blobs: &Blobs,
    disk: &mut D,
    bytes: &[u8],
    from: usize,
    size: usize,
    count: usize,
) -> bool {
    let mut room = [9; 20];
    let (Some(out), Some(rest)) = (room.get_mut(..size), bytes.get(from..)) else {
        return false;
    };
    let read = read_part(blobs, disk, &root_for(bytes), from as u64, out);
    match (rest.get(..count), out.split_at_checked(count)) {
        (Some(wanted), Some((front, back))) => {
            read == Some(Ok(count)) && front == wanted && back.iter().all(|byte| *byte == 9)
        }
        _ => false,
    }
}

/// Why there is no room for a blob.
pub fn refusal(alloc: Global, blobs: &mut Blobs, root: Root, len: u64) -> Option<RoomFault> {
    match room(alloc, blobs, root, len) {
        Some(Err(fault)) => Some(fault),
        _ => None,
    }
}

/// How many data pages are free, as the refusal of a blob of all 8192 pages tells.
pub fn free(alloc: Global, blobs: &mut Blobs) -> Option<u32> {
    match refusal(alloc, blobs, Root([255; 32]), 33_554_432) {
        Some(RoomFault::NoSpace { need: 8192, free }) => Some(free),
        _ => None,
    }
}
