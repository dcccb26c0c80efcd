//! A store that can be looked into.

ghost use Rattle.std.specs.Prelude.{◌≡◌, ◌≤◌, ℕ, List, Option, IfSome};
ghost use Rattle.pkg_names.specs.Streams.{Rose};
ghost use Rattle.boot_core.specs.Look.{Stocked, len_in, stock_of, Gives, Tells};

use pkg_names::{Bytes, Root};
use std::alloc::Global;

/// A blob that was looked at.
#[derive(Debug, Drop)]
pub struct SeenBlob {
    pub root: Root,
    pub bytes: Bytes,
}

/// What a look comes to.
#[derive(Debug, Drop)]
pub enum LookReply {
    Bytes(Bytes),
    /// The blob isn't stored.
    Missing,
    /// The blob has more bytes than are read of it.
    TooLong { len: u64 },
    /// The store failed to read.
    Read,
    /// The bytes read have another root.
    Rotten { got: Root },
    NoMemory,
}

/// A store that can be looked into, blob by blob.
pub trait Look {
    ghost use Rattle.boot_core.specs.declared.looking.SeenBlob.{SeenBlob};

    /// The roots and the lengths of the stored blobs. The first one of a root counts.
    ghost stock: { Self → List Stocked };

    /// The stored blobs with their bytes, where it tells them.
    ghost blobs: { Self → Option (List SeenBlob) };

    /// How often it has failed. It never falls, and stands still at the end of its type.
    ghost faults: { Self → ℕ };

    /// The length of a stored blob, which needs no reading.
    fn len(&self, root: &Root) -> Option<u64>
        ensures len { result ≡ len_in (stock self.now) root.now }
        ensures agree { IfSome (blobs self.now) (λ all. stock self.now ≡ stock_of all) };

    /// Reads a blob that has at most so many bytes.
    fn look(&mut self, alloc: Global, root: &Root, limit: u32) -> LookReply
        ensures gives { Gives (stock self.old) root.now limit result }
        ensures told { IfSome (blobs self.old) (λ all. Tells all root.now result) }
        ensures cause { result ≡ LookReply.Read → Rose (faults self.old) (faults self.new) }
        ensures stock_stays { stock self.new ≡ stock self.old }
        ensures blobs_stay { blobs self.new ≡ blobs self.old }
        ensures faults_never_fall { faults self.old ≤ faults self.new };
}
