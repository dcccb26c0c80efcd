//! Lines, and the text of a history.

ghost use Rattle.std.specs.Prelude.{◌≡◌, ◌+◌, ◌++◌, length, OnOk, IfOk};
ghost use Rattle.script_lang.specs.Text.{outcome_text, line, text};

use crate::answers::push_answer;
use crate::calls::push_call;
use pkg_names::Bytes;
use std::alloc::{AllocError, Global};
use store_model::Event;

/// The lines of a history, in order. `docs/formats.md` of the repository has them.
pub fn text_of(alloc: Global, history: &[Event]) -> Result<Bytes, AllocError>
    ensures { IfOk result (λ bytes. bytes ≡ text history.now) }
{
    let mut out = Vec::new(alloc);
    for (place, event) in history.iter().enumerate() {
        push_line(alloc, &mut out, place as u64 + 1, event)?;
    }
    Ok(Bytes::make(out))
}

/// The line of the event with this number, with its line feed.
pub fn line_of(alloc: Global, number: u64, event: &Event) -> Result<Bytes, AllocError>
    ensures { IfOk result (λ bytes. bytes ≡ line number event.now) }
{
    let mut out = Vec::new(alloc);
    push_line(alloc, &mut out, number, event)?;
    Ok(Bytes::make(out))
}

fn push_line(alloc: Global, out: &mut Vec<u8>, number: u64, event: &Event) -> Result<(), AllocError>
    ensures { OnOk result (out.new.items ≡ out.old.items ++ line number event.now) }
{
    let lane = event.lane;
    let mut head = String::new(alloc);
    write!(head, "{number} {lane} ")?;
    out.extend_from_slice(head.as_bytes())?;
    push_call(alloc, out, &event.act)?;
    push_outcome(alloc, out, event)?;
    out.extend_from_slice(b"\n")
}

fn push_outcome(alloc: Global, out: &mut Vec<u8>, event: &Event) -> Result<(), AllocError>
    ensures { OnOk result (out.new.items ≡ out.old.items ++ outcome_text event.now) }
{
    if event.broke {
        out.extend_from_slice(b" broke")
    } else {
        push_answer(alloc, out, &event.act)
    }
}
