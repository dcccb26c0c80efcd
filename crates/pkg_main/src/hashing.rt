//! The root of a file, over any file, output and report.

ghost use Rattle.std.specs.Prelude.{◌≡◌, ◌<◌, ◌≤◌, length, None, IfSome, OnOk, IsErrOf};
ghost use Rattle.std.specs.Process.{exit_status};
ghost use Rattle.pkg_names.specs.Streams.{Rose};
ghost use Rattle.pkg_merkle.specs.Merkle.{merkle_root};
ghost use Rattle.pkg_tool.specs.Written.{Wrote, WroteFront};
ghost use Rattle.pkg_tool.specs.Hashing.{IsHashingRefusal, line_of_root};
ghost use Rattle.pkg_report.specs.Endings.{ending_of_hashing, number_of_ending};
ghost use Rattle.pkg_report.specs.Lines.{line_of};

use crate::late_file::Late;
use pkg_merkle::BYTES_LIMIT;
use pkg_names::streams::Sink;
use pkg_report::{Ending, Report, Told, Untold, tell};
use pkg_tool::{MerkleStatus, merkle};
use std::alloc::Global;

/// What the hashing of a file leaves.
#[derive(Debug, Drop)]
pub(crate) struct Hashed {
    pub(crate) status: MerkleStatus,
    pub(crate) told: Told,
}

/// Prints the root of the file of this name, says what was wrong, and gives the exit status.
pub(crate) fn hash<S: Late, W: Sink, E: Report>(
    alloc: Global,
    file: &mut S,
    name: &str,
    out: &mut W,
    errors: &mut E,
) -> Hashed
    // The exit status is that of the ending that the hashing and the opening of the file come to. So is the line.
    ensures code { exit_status result.told.code ≡
        number_of_ending (ending_of_hashing result.status (S.opening file.new)) }
    ensures line { OnOk result.told.line (Wrote (E.said errors.old)
        (line_of (ending_of_hashing result.status (S.opening file.new)) None name.now) (E.said errors.new)) }
    ensures line_failed { IsErrOf result.told.line Untold.Failed → Rose (E.faults errors.old) (E.faults errors.new) }
    ensures line_unsaid { IsErrOf result.told.line Untold.NoMemory → errors.new ≡ errors.old }

    // The root is this file's.
    ensures done { result.status ≡ MerkleStatus.Done → IfSome (S.left file.old) (λ bytes.
        Wrote (W.written out.old) (line_of_root (merkle_root bytes)) (W.written out.new)) }
    ensures front { result.status ≡ MerkleStatus.SinkFault → IfSome (S.left file.old) (λ bytes.
        WroteFront (W.written out.old) (line_of_root (merkle_root bytes)) (W.written out.new)) }
    ensures too_long { result.status ≡ MerkleStatus.TooLong →
        IfSome (S.left file.old) (λ bytes. BYTES_LIMIT < length bytes) }
    ensures within { result.status ≡ MerkleStatus.Done →
        IfSome (S.left file.old) (λ bytes. length bytes ≤ BYTES_LIMIT) }
    ensures read_fault { result.status ≡ MerkleStatus.ReadFault → Rose (S.faults file.old) (S.faults file.new) }
    ensures sink_fault { result.status ≡ MerkleStatus.SinkFault → Rose (W.faults out.old) (W.faults out.new) }
    ensures unwritten { IsHashingRefusal result.status → out.new ≡ out.old }
{
    let status = merkle(file, out);
    let ending = Ending::of_hashing(status, file.opening());
    let told = tell(alloc, ending, None, name, errors);
    Hashed { status, told }
}
