//! The root of a file.

ghost use Rattle.std.specs.Prelude.{◌≡◌, ◌<◌, ◌≤◌, length, IfOk, IfSome, IsErrOf};
ghost use Rattle.pkg_names.specs.Streams.{Rose};
ghost use Rattle.pkg_merkle.specs.Merkle.{merkle_root};
ghost use Rattle.pkg_tool.specs.Written.{Wrote, WroteFront};
ghost use Rattle.pkg_tool.specs.Hashing.{IsHashingRefusal, number_of_hashing, line_of_root};

use crate::output::write_all;
use pkg_merkle::{BYTES_LIMIT, Hasher};
use pkg_names::streams::{Sink, Source};
use pkg_names::{Root, write_root};

/// How the hashing of a file ended.
#[derive(Clone, Copy, Debug, PartialEq, Eq)]
pub enum MerkleStatus {
    /// The root is printed.
    Done,
    /// The file has more bytes than a blob may have.
    TooLong,
    /// The file could not be read to its end.
    ReadFault,
    /// The root could not be printed whole.
    SinkFault,
}

impl MerkleStatus {
    /// The exit status of the program.
    pub fn number(self) -> u8
        ensures { result ≡ number_of_hashing self }
    {
        match self {
            MerkleStatus::Done => 0,
            MerkleStatus::TooLong => 3,
            MerkleStatus::ReadFault => 6,
            MerkleStatus::SinkFault => 7,
        }
    }
}

/// Prints the root of a file's bytes (`docs/merkle.md`), and a line feed.
pub fn merkle<S: Source, W: Sink>(file: &mut S, out: &mut W) -> MerkleStatus
    ensures done { result ≡ MerkleStatus.Done → IfSome (S.left file.old) (λ bytes.
        Wrote (W.written out.old) (line_of_root (merkle_root bytes)) (W.written out.new)) }
    ensures front { result ≡ MerkleStatus.SinkFault → IfSome (S.left file.old) (λ bytes.
        WroteFront (W.written out.old) (line_of_root (merkle_root bytes)) (W.written out.new)) }
    ensures too_long { result ≡ MerkleStatus.TooLong → IfSome (S.left file.old) (λ bytes. BYTES_LIMIT < length bytes) }
    ensures within { result ≡ MerkleStatus.Done → IfSome (S.left file.old) (λ bytes. length bytes ≤ BYTES_LIMIT) }
    ensures read_fault { result ≡ MerkleStatus.ReadFault → Rose (S.faults file.old) (S.faults file.new) }
    ensures sink_fault { result ≡ MerkleStatus.SinkFault → Rose (W.faults out.old) (W.faults out.new) }
    ensures unwritten { IsHashingRefusal result → out.new ≡ out.old }
{
    let root = match root_of_file(file) {
        Ok(root) => root,
        Err(HashFault::TooLong) => return MerkleStatus::TooLong,
        Err(HashFault::Failed) => return MerkleStatus::ReadFault,
    };
    let mut line = [b'\n'; 65];
    let mut digits = [0u8; 64];
    write_root(&root, &mut digits);
    line[..64].copy_from_slice(&digits);
    match write_all(out, &line) {
        Ok(()) => MerkleStatus::Done,
        Err(_) => MerkleStatus::SinkFault,
    }
}

/// Why a file has no root.
#[derive(Clone, Copy, Debug, PartialEq, Eq)]
enum HashFault {
    TooLong,
    Failed,
}

const PIECE: usize = 8192;

// The root of a file's bytes.
fn root_of_file<S: Source>(file: &mut S) -> Result<Root, HashFault>
    ensures root { IfOk result (λ root. IfSome (S.left file.old) (λ bytes. root ≡ merkle_root bytes)) }
    ensures within { IfOk result (λ _. IfSome (S.left file.old) (λ bytes. length bytes ≤ BYTES_LIMIT)) }
    ensures too_long { IsErrOf result HashFault.TooLong →
        IfSome (S.left file.old) (λ bytes. BYTES_LIMIT < length bytes) }
    ensures failed { IsErrOf result HashFault.Failed → Rose (S.faults file.old) (S.faults file.new) }
{
    let mut hasher = Hasher::new();
    let mut piece = [0u8; PIECE];
    for _ in 0..BYTES_LIMIT + 2 {
        let Ok(count) = file.take(&mut piece) else {
            return Err(HashFault::Failed);
        };
        if count == 0 {
            return Ok(hasher.finish());
        }
        let Ok(()) = hasher.update(&piece[..count]) else {
            return Err(HashFault::TooLong);
        };
    }
    unreachable!()
}
