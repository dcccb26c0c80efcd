//! Copies of files into the images of the slot that an update fills.

ghost use Rattle.std.specs.Prelude.{◌≡◌, [], None, Some, List, ℕ, IfOk, OnErr};
ghost use Rattle.pkg_merkle.specs.Merkle.{merkle_root};
ghost use Rattle.store_model.specs.State.{IsStageOf};
ghost use Rattle.store_model.specs.State.Phase.{Filling};
ghost use Rattle.store_model.specs.Files.{found};
ghost use Rattle.store_model.specs.Acts.Copy.{copy_end};
ghost use Rattle.store_model.specs.Desk.{state_of};
ghost use Rattle.store_model.specs.Replies.{IsCopied};
ghost use Rattle.store_model.specs.Calls.{Copies, HoldsStage, IsWholeFile, KeepsAtCopy};
ghost use Rattle.plain_stock.specs.Contents.{AreBytesOf};
ghost use Rattle.plain_ledger.specs.Ledgers.{Agrees, Stays, Tells};
ghost use Rattle.plain_desk.specs.Stores.{IsOwnCall, InMemory, IsFileThere, kept_for, view_of};
ghost use Rattle.plain_desk.specs.Filling.{IsCopiedAs};
ghost use Rattle.plain_desk.specs.Copying.{CopiedBy, IsCopiedFile, IsCopiedFrom, next_part};

use crate::reading::{root_within, stored_bytes};
use crate::store::Store;
use image_layout::ImageKind;
use pkg_names::{FilePath, Root};
use plain_drafts::Images;
use plain_ledger::Ledger;
use plain_state::{FileAt, State};
use plain_stock::Contents;
use std::alloc::{AllocError, Global};
use store_model::{Act, CopyEnd, CopyReply, Dir, PIECE_LIMIT};

impl Store {
    /// Copies the next part of a file into an image, at most 65,536 bytes.
    pub fn copy_part(&mut self, lane: u32, image: ImageKind, dir: Dir, file: &FilePath) -> CopyReply
        requires { HoldsStage (view_of [] lane self.old) Filling }
        ensures event { (tie : List ℕ)
            → Copies image dir.number file.now result (view_of tie lane self.old) (view_of tie lane self.new) }
        ensures kept { KeepsAtCopy (state_of (view_of [] lane self.new)) lane image dir.number file.now
            result self.old.images.fillers self.new.images.fillers (kept_for lane self.old) (kept_for lane self.new) }
        ensures whole { IsWholeFile image result self.new.images.fillers (kept_for lane self.new) }
        ensures own { IsOwnCall lane self.old self.new }
    {
        let Store {
            alloc,
            ledger,
            contents,
            images,
            ..
        } = self;
        copy(
            *alloc, ledger, contents, images, lane, image, dir.number, file,
        )
    }
}

fn copy(
    alloc: Global,
    ledger: &mut Ledger,
    contents: &Contents,
    images: &mut Images,
    lane: u32,
    image: ImageKind,
    dir: u64,
    file: &FilePath,
) -> CopyReply
    requires agrees { Agrees ledger.old }
    requires stage { IsStageOf ledger.old.state lane Filling }
    requires bytes { AreBytesOf contents.now ledger.old.state.stock }
    requires there { IsFileThere ledger.old.state lane dir file.now }
    ensures { CopiedBy lane image dir file.now ledger.old ledger.new images.old images.new result }
{
    match try_copy(alloc, ledger, contents, images, lane, image, dir, file) {
        Ok(reply) => reply,
        Err(_) => CopyReply::NoMemory,
    }
}

fn try_copy(
    alloc: Global,
    ledger: &mut Ledger,
    contents: &Contents,
    images: &mut Images,
    lane: u32,
    image: ImageKind,
    dir: u64,
    file: &FilePath,
) -> Result<CopyReply, AllocError>
    requires agrees { Agrees ledger.old }
    requires stage { IsStageOf ledger.old.state lane Filling }
    requires bytes { AreBytesOf contents.now ledger.old.state.stock }
    requires there { IsFileThere ledger.old.state lane dir file.now }
    ensures ok { IfOk result (CopiedBy lane image dir file.now ledger.old ledger.new images.old images.new) }
    ensures same { OnErr result (images.new ≡ images.old) }
    ensures stays { OnErr result (Stays ledger.old ledger.new) }
{
    match ledger.state().copy_end(lane, image, dir, file) {
        Some(end) => no_copy(alloc, ledger, lane, image, dir, file, end),
        None => copy_file(ledger.state(), contents, images, lane, image, dir, file),
    }
}

// The file can't be copied.
fn no_copy(
    alloc: Global,
    ledger: &mut Ledger,
    lane: u32,
    image: ImageKind,
    dir: u64,
    file: &FilePath,
    end: CopyEnd,
) -> Result<CopyReply, AllocError>
    requires agrees { Agrees ledger.old }
    requires stage { IsStageOf ledger.old.state lane Filling }
    requires end { copy_end ledger.old.state lane image dir file.now ≡ Some end }
    ensures ok { IfOk result (λ reply.
        Tells lane (InMemory (IsCopied image dir file.now reply)) ledger.old ledger.new) }
    ensures err { OnErr result (Stays ledger.old ledger.new) }
{
    let file = file.try_copy(alloc)?;
    let reply = Some(end);
    ledger.note(
        lane,
        Act::Copy {
            image,
            dir,
            file,
            reply,
        },
    )?;
    Ok(not_copied(end))
}

fn not_copied(end: CopyEnd) -> CopyReply
    ensures { IsCopiedAs end result }
{
    match end {
        CopyEnd::BadDir => CopyReply::BadDir,
        CopyEnd::NoFile => CopyReply::NoFile,
        CopyEnd::TooLarge { len, room } => CopyReply::TooLarge { len, room },
        CopyEnd::DiskRead => CopyReply::DiskRead,
    }
}

fn copy_file(
    state: &State,
    contents: &Contents,
    images: &mut Images,
    lane: u32,
    image: ImageKind,
    dir: u64,
    file: &FilePath,
) -> Result<CopyReply, AllocError>
    requires fits { copy_end state.now lane image dir file.now ≡ None }
    requires bytes { AreBytesOf contents.now state.now.stock }
    requires there { IsFileThere state.now lane dir file.now }
    ensures ok { IfOk result
        (IsCopiedFile state.now (found state.now lane dir file.now) image images.old images.new) }
    ensures err { OnErr result (images.new ≡ images.old) }
{
    match state.found(lane, dir, file) {
        FileAt::Inner(bytes) => copy_from(images, image, root_within(bytes)?, bytes),
        FileAt::Outer(root) => copy_from(images, image, root, stored_bytes(state, contents, &root)),
        FileAt::NotOpen | FileAt::NoSuchFile => unreachable!(),
    }
}

// The next part of these bytes comes behind those of an image.
fn copy_from(
    images: &mut Images,
    image: ImageKind,
    root: Root,
    bytes: &[u8],
) -> Result<CopyReply, AllocError>
    ensures ok { IfOk result (IsCopiedFrom image root bytes.now images.old images.new) }
    ensures err { OnErr result (images.new ≡ images.old) }
{
    let part = part_from(bytes, images.len(image));
    let have = images.append(image, root, part)?;
    if have < bytes.len() {
        Ok(CopyReply::More { have: have as u64 })
    } else {
        Ok(CopyReply::Whole { len: have as u64 })
    }
}

// What comes of a file after this place, at most a piece.
fn part_from(bytes: &[u8], place: usize) -> &[u8]
    ensures { result.now ≡ next_part bytes.now place }
{
    if bytes.len() <= place {
        return &[];
    }
    let len = (bytes.len() - place).min(PIECE_LIMIT);
    &bytes[place..place + len]
}
