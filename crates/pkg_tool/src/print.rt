//! Printing a history: its lines, in large writes.

ghost use Rattle.std.specs.Prelude.{◌≡◌, ◌⊎◌, ◌++◌, ◌≤◌, [], List, ℕ, Option, OnOk, OnErr, IfErr};
ghost use Rattle.pkg_names.specs.Streams.{Rose};
ghost use Rattle.script_lang.specs.Text.{line as line_text, text};
ghost use Rattle.pkg_tool.specs.declared.running.Status.TheVariants as statuses;
ghost use Rattle.pkg_tool.specs.Written.{Wrote, WroteFewer, WroteFront};
ghost use Rattle.pkg_tool.specs.Printing.{Prints, Goes, IsClosed, IsCutOff};
ghost use Rattle.pkg_tool.specs.Steps.{IsPrintEnd};

use crate::output::write_all;
use crate::running::Status;
use pkg_names::streams::Sink;
use script_lang::line_of;
use std::alloc::{AllocError, Global};
use store_model::Event;

// So many bytes are gathered, at least, before they are written; at the end the rest is.
const GATHERED: usize = 65_536;

/// Prints a history. Where memory is short for a line, the lines before it are written.
pub(crate) fn print<W: Sink>(alloc: Global, out: &mut W, history: &[Event]) -> Status
    ensures end { IsPrintEnd result }
    ensures done { result ≡ statuses.Done → Wrote (W.written out.old) (text history.now) (W.written out.new) }
    ensures front { WroteFront (W.written out.old) (text history.now) (W.written out.new) }
    ensures lines { result ≡ statuses.NoMemory → WroteFewer (W.written out.old) history.now (W.written out.new) }
    ensures cause { result ≡ statuses.SinkFault → Rose (W.faults out.old) (W.faults out.new) }
{
    let mut lines = Vec::new(alloc);
    for (place, event) in history.iter().enumerate() {
        match gather(alloc, out, &mut lines, place as u64 + 1, event) {
            Ok(()) => {}
            Err(status) => return status,
        }
    }
    close(out, &lines, Status::Done)
}

// Gathers a line, and writes the lines where there are enough.
fn gather<W: Sink>(
    alloc: Global,
    out: &mut W,
    lines: &mut Vec<u8>,
    number: u64,
    event: &Event,
) -> Result<(), Status>
    ensures goes { (first : Option (List ℕ)) (bytes : List ℕ)
        → Prints first (W.written out.old) lines.old.items bytes
        → Goes result first (W.written out.new) lines.new.items bytes (line_text number event.now) }
    ensures cut { IfErr result (λ status. IsCutOff status (W.faults out.old) (W.faults out.new)) }
    ensures faults { W.faults out.old ≤ W.faults out.new }
{
    match push_line(alloc, lines, number, event) {
        Ok(()) => {}
        Err(_) => return Err(close(out, lines, Status::NoMemory)),
    }
    if lines.len() < GATHERED {
        return Ok(());
    }
    match write_all(out, lines) {
        Ok(()) => {
            lines.clear();
            Ok(())
        }
        Err(_) => Err(Status::SinkFault),
    }
}

// Writes the last lines. The status is this one, unless that fails.
fn close<W: Sink>(out: &mut W, lines: &[u8], good: Status) -> Status
    ensures closed { IsClosed result good (W.written out.old) lines.now (W.written out.new)
        (W.faults out.old) (W.faults out.new) }
    ensures front { WroteFront (W.written out.old) lines.now (W.written out.new) }
    ensures faults { W.faults out.old ≤ W.faults out.new }
{
    match write_all(out, lines) {
        Ok(()) => good,
        Err(_) => Status::SinkFault,
    }
}

// Puts a line last, or leaves the lines as they were.
fn push_line(
    alloc: Global,
    lines: &mut Vec<u8>,
    number: u64,
    event: &Event,
) -> Result<(), AllocError>
    ensures ok { OnOk result (lines.new.items ≡ lines.old.items ++ line_text number event.now) }
    ensures err { OnErr result (lines.new.items ≡ lines.old.items) }
{
    let line = line_of(alloc, number, event)?;
    lines.extend_from_slice(line.as_slice())
}
