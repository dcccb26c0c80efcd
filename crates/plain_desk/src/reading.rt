//! Calls of a store on open packages.

ghost use Rattle.std.specs.Prelude.{◌≡◌, true, Some, List, ℕ, length, IfOk, OnErr};
ghost use Rattle.pkg_merkle.specs.Merkle.{merkle_root};
ghost use Rattle.store_model.specs.State.{is_stored, stored_len};
ghost use Rattle.store_model.specs.Desk.{Keeps};
ghost use Rattle.store_model.specs.Replies.{IsOpened, IsRead, IsChecked};
ghost use Rattle.store_model.specs.Calls.{Opens, Reads, Checks};
ghost use Rattle.store_model.specs.Acts.Read.{IsDueRead, IsReadOfInner};
ghost use Rattle.store_model.specs.Acts.Check.{IsDueCheck};
ghost use Rattle.plain_stock.specs.Contents.{AreBytesOf};
ghost use Rattle.plain_ledger.specs.Ledgers.{Agrees, Stays, Tells};
ghost use Rattle.plain_desk.specs.Stores.{IsOwnCall, InMemory, checks_in_memory, reads_in_memory, view_of, kept_for, IsFileThere, IsReadAs, IsCheckedAs};

use crate::store::Store;
use pkg_merkle::{BYTES_LIMIT, root_of};
use pkg_names::{Bytes, FilePath, PackagePath, Root};
use plain_ledger::Ledger;
use plain_state::{FileAt, State};
use plain_stock::Contents;
use std::alloc::{AllocError, Global};
use store_model::{Act, CheckEnd, CheckReply, Dir, OpenReply, READ_LIMIT, ReadEnd, ReadReply};

impl Store {
    /// Opens a package that is here.
    pub fn open_path(&mut self, lane: u32, path: &PackagePath) -> OpenReply
        ensures event { (tie : List ℕ) → Opens path.now result (view_of tie lane self.old) (view_of tie lane self.new) }
        ensures kept { Keeps (kept_for lane self.old) (kept_for lane self.new) }
        ensures images { self.new.images ≡ self.old.images }
        ensures own { IsOwnCall lane self.old self.new }
    {
        match open(self.alloc, &mut self.ledger, lane, path) {
            Ok(reply) => reply,
            Err(_) => OpenReply::NoMemory,
        }
    }

    /// Reads a file whole.
    pub fn read(&mut self, lane: u32, dir: Dir, file: &FilePath) -> ReadReply
        ensures event { (tie : List ℕ)
            → Reads dir.number file.now result (view_of tie lane self.old) (view_of tie lane self.new) }
        ensures kept { Keeps (kept_for lane self.old) (kept_for lane self.new) }
        ensures images { self.new.images ≡ self.old.images }
        ensures own { IsOwnCall lane self.old self.new }
    {
        match read(
            self.alloc,
            &mut self.ledger,
            &self.contents,
            lane,
            dir.number,
            file,
        ) {
            Ok(reply) => reply,
            Err(_) => ReadReply::NoMemory,
        }
    }

    /// Tells the root and the length of a file.
    pub fn check(&mut self, lane: u32, dir: Dir, file: &FilePath) -> CheckReply
        ensures event { (tie : List ℕ)
            → Checks dir.number file.now result (view_of tie lane self.old) (view_of tie lane self.new) }
        ensures kept { Keeps (kept_for lane self.old) (kept_for lane self.new) }
        ensures images { self.new.images ≡ self.old.images }
        ensures own { IsOwnCall lane self.old self.new }
    {
        match check(self.alloc, &mut self.ledger, lane, dir.number, file) {
            Ok(reply) => reply,
            Err(_) => CheckReply::NoMemory,
        }
    }
}

fn open(
    alloc: Global,
    ledger: &mut Ledger,
    lane: u32,
    path: &PackagePath,
) -> Result<OpenReply, AllocError>
    requires { Agrees ledger.old }
    ensures ok { IfOk result (λ reply. Tells lane (InMemory (IsOpened path.now reply)) ledger.old ledger.new) }
    ensures err { OnErr result (Stays ledger.old ledger.new) }
{
    let asked = path.try_copy(alloc)?;
    match ledger.state().root_to_open(path) {
        Some(root) => {
            let number = ledger.open_path(lane, asked, root)?;
            Ok(OpenReply::Opened(Dir { number }))
        }
        None => {
            ledger.note(
                lane,
                Act::OpenPath {
                    path: asked,
                    reply: None,
                },
            )?;
            Ok(OpenReply::NotHere)
        }
    }
}

fn read(
    alloc: Global,
    ledger: &mut Ledger,
    contents: &Contents,
    lane: u32,
    dir: u64,
    file: &FilePath,
) -> Result<ReadReply, AllocError>
    requires agrees { Agrees ledger.old }
    requires bytes { AreBytesOf contents.now ledger.old.state.stock }
    ensures ok { IfOk result (λ reply. Tells lane (InMemory (IsRead dir file.now reply)) ledger.old ledger.new) }
    ensures err { OnErr result (Stays ledger.old ledger.new) }
{
    let asked = file.try_copy(alloc)?;
    let end = read_end(alloc, ledger.state(), contents, lane, dir, file)?;
    let reply = read_reply(alloc, &end)?;
    ledger.note(
        lane,
        Act::Read {
            dir,
            file: asked,
            reply: end,
        },
    )?;
    Ok(reply)
}

// What the reader is answered, if nothing fails.
fn read_end(
    alloc: Global,
    state: &State,
    contents: &Contents,
    lane: u32,
    dir: u64,
    file: &FilePath,
) -> Result<ReadEnd, AllocError>
    requires bytes { AreBytesOf contents.now state.now.stock }
    requires there { IsFileThere state.now lane dir file.now }
    ensures due { IfOk result (λ end. IsDueRead state.now lane dir file.now end) }
    ensures steady { IfOk result (λ end. reads_in_memory end ≡ true) }
{
    match state.found(lane, dir, file) {
        FileAt::NotOpen => Ok(ReadEnd::BadDir),
        FileAt::NoSuchFile => Ok(ReadEnd::NoFile),
        FileAt::Inner(bytes) => whole(alloc, bytes),
        FileAt::Outer(root) => whole(alloc, stored_bytes(state, contents, &root)),
    }
}

// The bytes of a stored blob.
pub(crate) fn stored_bytes<'a>(state: &State, contents: &'a Contents, root: &Root) -> &'a [u8]
    requires bytes { AreBytesOf contents.now state.now.stock }
    requires there { is_stored state.now.stock root.now ≡ true }
    ensures len { stored_len state.now.stock root.now ≡ Some (length result.now) }
    ensures root { merkle_root result.now ≡ root.now }
{
    match contents.get(root) {
        Some(bytes) => bytes,
        None => unreachable!(),
    }
}

// The bytes, if they are few enough.
fn whole(alloc: Global, bytes: &[u8]) -> Result<ReadEnd, AllocError>
    ensures due { IfOk result (λ end. IsReadOfInner bytes.now end) }
    ensures steady { IfOk result (λ end. reads_in_memory end ≡ true) }
{
    if bytes.len() > READ_LIMIT {
        return Ok(ReadEnd::TooLong {
            len: bytes.len() as u64,
        });
    }
    Ok(ReadEnd::Got(Bytes::make(Vec::from_slice(alloc, bytes)?)))
}

fn read_reply(alloc: Global, end: &ReadEnd) -> Result<ReadReply, AllocError>
    ensures { IfOk result (λ reply. IsReadAs end.now reply) }
{
    match end {
        ReadEnd::Got(bytes) => Ok(ReadReply::Got(bytes.try_copy(alloc)?)),
        ReadEnd::BadDir => Ok(ReadReply::BadDir),
        ReadEnd::NoFile => Ok(ReadReply::NoFile),
        ReadEnd::TooLong { len } => Ok(ReadReply::TooLong { len: *len }),
        ReadEnd::DiskRead => Ok(ReadReply::DiskRead),
        ReadEnd::Rotten { root, got } => Ok(ReadReply::Rotten {
            root: *root,
            got: *got,
        }),
    }
}

fn check(
    alloc: Global,
    ledger: &mut Ledger,
    lane: u32,
    dir: u64,
    file: &FilePath,
) -> Result<CheckReply, AllocError>
    requires { Agrees ledger.old }
    ensures ok { IfOk result (λ reply. Tells lane (InMemory (IsChecked dir file.now reply)) ledger.old ledger.new) }
    ensures err { OnErr result (Stays ledger.old ledger.new) }
{
    let asked = file.try_copy(alloc)?;
    let reply = check_end(ledger.state(), lane, dir, file)?;
    ledger.note(
        lane,
        Act::Check {
            dir,
            file: asked,
            reply,
        },
    )?;
    Ok(check_reply(reply))
}

// A stored blob has its root and its length.
fn check_end(state: &State, lane: u32, dir: u64, file: &FilePath) -> Result<CheckEnd, AllocError>
    requires { IsFileThere state.now lane dir file.now }
    ensures due { IfOk result (λ end. IsDueCheck state.now lane dir file.now end) }
    ensures steady { IfOk result (λ end. checks_in_memory end ≡ true) }
{
    match state.found(lane, dir, file) {
        FileAt::NotOpen => Ok(CheckEnd::BadDir),
        FileAt::NoSuchFile => Ok(CheckEnd::NoFile),
        FileAt::Inner(bytes) => Ok(CheckEnd::Checked {
            root: root_within(bytes)?,
            len: bytes.len() as u64,
        }),
        FileAt::Outer(root) => match state.stored_len(&root) {
            Some(len) => Ok(CheckEnd::Checked { root, len }),
            None => unreachable!(),
        },
    }
}

// The root of a file in an archive. Such a file is shorter than a blob may be; the test spares its proof.
pub(crate) fn root_within(bytes: &[u8]) -> Result<Root, AllocError>
    ensures { IfOk result (λ root. root ≡ merkle_root bytes.now) }
{
    if bytes.len() > BYTES_LIMIT {
        return Err(AllocError);
    }
    Ok(root_of(bytes))
}

fn check_reply(end: CheckEnd) -> CheckReply
    ensures { IsCheckedAs end result }
{
    match end {
        CheckEnd::Checked { root, len } => CheckReply::Checked { root, len },
        CheckEnd::BadDir => CheckReply::BadDir,
        CheckEnd::NoFile => CheckReply::NoFile,
        CheckEnd::DiskRead => CheckReply::DiskRead,
        CheckEnd::Rotten { root, got } => CheckReply::Rotten { root, got },
    }
}
