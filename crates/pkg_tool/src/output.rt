ghost use Rattle.std.specs.Prelude.{◌≡◌, ◌<◌, ◌≤◌, ◌++◌, length, take, OnOk, OnErr};
ghost use Rattle.std.specs.Option.{option_map};
ghost use Rattle.pkg_names.specs.Streams.{Rose};
ghost use Rattle.pkg_tool.specs.Written.{Wrote, WroteFront};

use pkg_names::streams::{Sink, SinkFailed};

/// Writes all of the bytes. A failure leaves a front of them written.
pub(crate) fn write_all<W: Sink>(out: &mut W, bytes: &[u8]) -> Result<(), SinkFailed>
    ensures ok { OnOk result (Wrote (W.written out.old) bytes.now (W.written out.new)) }
    ensures err { OnErr result (WroteFront (W.written out.old) bytes.now (W.written out.new)) }
    ensures some { OnErr result (0 < length bytes.now) }
    ensures cause { OnErr result (Rose (W.faults out.old) (W.faults out.new)) }
    ensures faults { W.faults out.old ≤ W.faults out.new }
{
    let mut done = 0;
    while done < bytes.len() {
        done += out.give(&bytes[done..])?;
    }
    Ok(())
}
