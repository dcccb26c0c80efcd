//! A store in memory that can be looked into.

ghost use Rattle.std.specs.Prelude.{◌≡◌, ◌≢◌, ◌⊎◌, ◌≤◌, ◌++◌, ◌∷◌, [], length, IfOk, OnErr};
ghost use Rattle.pkg_names.specs.Streams.{Rose};
ghost use Rattle.pkg_merkle.specs.Merkle.{merkle_root};
ghost use Rattle.boot_core.specs.Look.{len_in, stock_of, Gives, Tells, AreHonest};
ghost use Rattle.boot_core.specs.MemoryLook.{new_store};

use crate::looking::{Look, LookReply, SeenBlob};
use crate::seen::bytes_in;
use pkg_merkle::{BYTES_LIMIT, root_of};
use pkg_names::{Bytes, Items, Root};
use std::alloc::{AllocError, Global};
use std::marker::Model;

/// Blobs in memory, each under its own root. Reads are counted from 1, and those whose number is listed
/// fail. A look that says `Missing` or `TooLong` reads nothing.
#[derive(Debug, Drop)]
pub struct MemLook {
    blobs: Vec<SeenBlob>,
    failing: Vec<u64>,
    reads: u64,
    faults: u64,
}

impl Model for MemLook {
    ghost use Rattle.boot_core.specs.Look.{AreHonest};
    ghost use Rattle.boot_core.specs.MemoryLook.{StoreInMemory};

    ghost Value = { StoreInMemory };

    ghost view = { λ m. record {
      blobs = m.blobs.items;
      failing = m.failing.items;
      reads = m.reads;
      faults = m.faults;
    } };

    ghost invariant = { λ m. AreHonest m.blobs.items };
}

impl MemLook {
    /// A store without blobs, of which the listed reads fail.
    pub fn make(alloc: Global, failing: Vec<u64>) -> MemLook
        ensures made { result ≡ new_store failing.items }
    {
        MemLook {
            blobs: Vec::new(alloc),
            failing,
            reads: 0,
            faults: 0,
        }
    }

    /// Stores a blob, and gives its root. Where memory is wanting, nothing changes.
    pub fn add(&mut self, bytes: Bytes) -> Result<Root, AllocError>
        requires { length bytes ≤ BYTES_LIMIT }
        ensures root { IfOk result (λ root. root ≡ merkle_root bytes) }
        ensures blobs { IfOk result (λ root. self.new ≡ record self.old {
          blobs = self.old.blobs ++ record { root = root; bytes = bytes } ∷ [];
        }) }
        ensures err { OnErr result (self.new ≡ self.old) }
    {
        let root = root_of(bytes.as_slice());
        self.blobs.push(SeenBlob { root, bytes })?;
        Ok(root)
    }
}

impl Look for MemLook {
    ghost use Rattle.std.specs.Prelude.{Some};
    ghost use Rattle.boot_core.specs.Look.{stock_of};

    ghost stock = { λ m. stock_of m.blobs };

    ghost blobs = { λ m. Some m.blobs };

    ghost faults = { λ m. m.faults };

    fn len(&self, root: &Root) -> Option<u64> {
        len_in(&self.blobs, root)
    }

    fn look(&mut self, alloc: Global, root: &Root, limit: u32) -> LookReply {
        let MemLook {
            blobs,
            failing,
            reads,
            faults,
        } = self;
        match found(alloc, blobs, root, limit) {
            LookReply::Bytes(bytes) => read(bytes, failing, reads, faults),
            reply => reply,
        }
    }
}

fn len_in(blobs: &[SeenBlob], root: &Root) -> Option<u64>
    ensures { result ≡ len_in (stock_of blobs.now) root.now }
{
    match bytes_in(blobs, root) {
        Some(bytes) => Some(bytes.len() as u64),
        None => None,
    }
}

// What a look finds that doesn't fail.
fn found(alloc: Global, blobs: &[SeenBlob], root: &Root, limit: u32) -> LookReply
    requires { AreHonest blobs.now }
    ensures gives { Gives (stock_of blobs.now) root.now limit result }
    ensures told { Tells blobs.now root.now result }
    ensures unfailing { result ≢ LookReply.Read }
{
    let Some(bytes) = bytes_in(blobs, root) else {
        return LookReply::Missing;
    };
    if bytes.len() as u64 > u64::from(limit) {
        let len = bytes.len() as u64;
        return LookReply::TooLong { len };
    }
    match Vec::from_slice(alloc, bytes) {
        Ok(copy) => LookReply::Bytes(Items::make(copy)),
        Err(_) => LookReply::NoMemory,
    }
}

// Reads these bytes. Counts a read, and a failure where its number is listed.
fn read(bytes: Bytes, failing: &[u64], reads: &mut u64, faults: &mut u64) -> LookReply
    ensures result { (result ≡ LookReply.Bytes bytes)
        ⊎ ((result ≡ LookReply.Read) × Rose faults.old faults.new) }
    ensures faults_never_fall { faults.old ≤ faults.new }
{
    *reads = reads.saturating_add(1);
    if failing.contains(reads) {
        *faults = faults.saturating_add(1);
        return LookReply::Read;
    }
    LookReply::Bytes(bytes)
}
