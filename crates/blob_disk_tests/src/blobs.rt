//! Calls of the blobs of a disk that look first whether they may be made. Where one may not, it answers nothing.

use crate::looks::{fits, has_draft, has_room, is_new, is_stored, may_write};
use blob_disk::{BlobFault, Blobs, CheckFault, LandEnd, PutEnd, RemoveEnd, RoomFault, WriteEnd};
use blob_pages::{Draft, PIECE_LIMIT};
use disk_model::{Disk, DiskFailed};
use image_layout::Geometry;
use node_table::LoadFault;
use pkg_names::{Bytes, Root};
use std::alloc::Global;

pub fn format<D: Disk>(disk: &mut D, geometry: &Geometry) -> bool {
    has_room(disk, geometry) && Blobs::format(disk, geometry).is_ok()
}

pub fn attach<D: Disk>(
    alloc: Global,
    disk: &mut D,
    geometry: &Geometry,
) -> Option<Result<Blobs, LoadFault>> {
    if !has_room(disk, geometry) {
        return None;
    }
    Some(Blobs::attach(alloc, disk, geometry))
}

pub fn room(
    alloc: Global,
    blobs: &mut Blobs,
    root: Root,
    len: u64,
) -> Option<Result<Draft, RoomFault>> {
    if !is_new(blobs, &root) {
        return None;
    }
    Some(blobs.room(alloc, root, len))
}

pub fn put<D: Disk>(
    blobs: &mut Blobs,
    disk: &mut D,
    draft: &mut Draft,
    bytes: &[u8],
) -> Option<PutEnd> {
    if bytes.len() > PIECE_LIMIT || draft.full_page().is_some() {
        return None;
    }
    if !may_write(blobs, disk) || !has_draft(blobs, draft) {
        return None;
    }
    Some(blobs.put(disk, draft, bytes))
}

/// The two halves of a put: the draft alone, and then the pages that are full.
pub fn add_and_write<D: Disk>(
    blobs: &mut Blobs,
    disk: &mut D,
    draft: &mut Draft,
    bytes: &[u8],
) -> Option<WriteEnd> {
    if bytes.len() > PIECE_LIMIT || draft.full_page().is_some() || draft.add(bytes).is_err() {
        return None;
    }
    if !may_write(blobs, disk) || !has_draft(blobs, draft) {
        return None;
    }
    Some(blobs.write(disk, draft))
}

pub fn land<D: Disk>(blobs: &mut Blobs, disk: &mut D, draft: Draft) -> Option<LandEnd> {
    if draft.full_page().is_some() || !may_write(blobs, disk) || !has_draft(blobs, &draft) {
        return None;
    }
    Some(blobs.land(disk, draft))
}

/// Whether the draft was dropped.
pub fn drop_draft(blobs: &mut Blobs, draft: Draft) -> bool {
    if !has_draft(blobs, &draft) {
        return false;
    }
    blobs.drop_draft(draft);
    true
}

pub fn remove<D: Disk>(blobs: &mut Blobs, disk: &mut D, roots: &[Root]) -> Option<RemoveEnd> {
    if !may_write(blobs, disk) {
        return None;
    }
    Some(blobs.remove(disk, roots))
}

pub fn read_all<D: Disk>(
    alloc: Global,
    blobs: &Blobs,
    disk: &mut D,
    root: &Root,
    limit: u32,
) -> Option<Result<Bytes, BlobFault>> {
    if !fits(blobs, disk) || !is_stored(blobs, root) {
        return None;
    }
    Some(blobs.read_all(alloc, disk, root, limit))
}

pub fn check<D: Disk>(blobs: &Blobs, disk: &mut D, root: &Root) -> Option<Result<u64, CheckFault>> {
    if !fits(blobs, disk) || !is_stored(blobs, root) {
        return None;
    }
    Some(blobs.check(disk, root))
}

pub fn read_part<D: Disk>(
    blobs: &Blobs,
    disk: &mut D,
    root: &Root,
    from: u64,
    out: &mut [u8],
) -> Option<Result<usize, DiskFailed>> {
    if !fits(blobs, disk) || !is_stored(blobs, root) {
        return None;
    }
    Some(blobs.read_part(disk, root, from, out))
}
