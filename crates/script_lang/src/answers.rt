//! What a call was answered.

ghost use Rattle.std.specs.Prelude.{◌≡◌, ◌++◌, List, OnOk, drop};
ghost use Rattle.store_model.specs.declared.ends.ReadEnd.TheVariants.{Got};
ghost use Rattle.script_lang.specs.Ends.{end_text, begin_text, cause_text, want_text, made_text, put_text, open_text, bytes_text, read_text, check_text, roots_text, collect_text, retain_text, stage_text, copy_text, seal_text, activate_text};
ghost use Rattle.script_lang.specs.Text.{closed_text, committed_text, words_text, answer_text};

use crate::pieces::{
    image_name, miss_name, push_counted, push_hex, push_rooted, push_rotten, push_slotted,
};
use fetch_queue::FetchEnd;
use pkg_names::{Bytes, Root, Roots};
use std::alloc::{AllocError, Global};
use store_model::{
    Act, ActivateEnd, BeginEnd, Cause, CheckEnd, CopyEnd, Difference, ReadEnd, RetainEnd, StageEnd,
    WantEnd,
};

pub(crate) fn push_answer(alloc: Global, out: &mut Vec<u8>, act: &Act) -> Result<(), AllocError>
    ensures { OnOk result (out.new.items ≡ out.old.items ++ answer_text act.now) }
{
    match act {
        Act::Put { reply, .. } => push_put(alloc, out, reply),
        Act::GaveUp { .. } => Ok(()),
        Act::Copy { reply, .. } => push_copy_end(alloc, out, reply),
        Act::LeftStage => Ok(()),
        Act::Reject { .. } => Ok(()),
        Act::Refused { broken, .. } => push_counted(alloc, out, " broken ", *broken),
        _ => {
            out.extend_from_slice(b" ")?;
            push_words(alloc, out, act)
        }
    }
}

// The words behind the space, of an act that has them always.
fn push_words(alloc: Global, out: &mut Vec<u8>, act: &Act) -> Result<(), AllocError>
    ensures { OnOk result (out.new.items ≡ out.old.items ++ words_text act.now) }
{
    match act {
        Act::Boot { slot, .. } => push_slotted(out, b"", *slot),
        Act::Begin { reply, .. } => push_begin(out, reply),
        Act::Want { reply, .. } => push_want(alloc, out, reply),
        Act::Room { len, reply, .. } => push_made(alloc, out, "made ", *len, reply),
        Act::Land { len, reply, .. } => push_made(alloc, out, "landed ", *len, reply),
        Act::Missed { why, .. } => out.extend_from_slice(miss_name(*why)),
        Act::OpenPath { reply, .. } => push_open(out, reply),
        Act::Read { reply, .. } => push_read(alloc, out, reply),
        Act::Check { reply, .. } => push_check(alloc, out, reply),
        Act::Close { closed, .. } => out.extend_from_slice(closed_name(*closed)),
        Act::Collect { reply } => push_collect(alloc, out, reply),
        Act::Retain { reply, .. } => push_retain_end(out, reply),
        Act::Stage { reply, .. } => push_stage(alloc, out, reply),
        Act::Seal { reply, .. } => push_seal(alloc, out, reply),
        Act::Activate { reply, .. } => push_activate(out, reply),
        Act::Commit { done } => out.extend_from_slice(committed_name(*done)),
        _ => Ok(()),
    }
}

fn closed_name(closed: bool) -> &'static [u8]
    ensures { result.now ≡ closed_text closed }
{
    if closed { b"closed" } else { b"bad-dir" }
}

fn committed_name(done: bool) -> &'static [u8]
    ensures { result.now ≡ committed_text done }
{
    if done { b"committed" } else { b"not-pending" }
}

fn push_end(alloc: Global, out: &mut Vec<u8>, end: &FetchEnd) -> Result<(), AllocError>
    ensures { OnOk result (out.new.items ≡ out.old.items ++ end_text end.now) }
{
    match end {
        FetchEnd::Absent => out.extend_from_slice(b"absent"),
        FetchEnd::Read => out.extend_from_slice(b"read"),
        FetchEnd::Short { have } => push_counted(alloc, out, "short ", *have),
        FetchEnd::Long { len } => push_counted(alloc, out, "long ", *len),
        FetchEnd::Wrong { got } => push_rooted(out, b"wrong ", got),
        FetchEnd::TooLarge { len } => push_counted(alloc, out, "too-large ", *len),
        FetchEnd::NoNode => out.extend_from_slice(b"no-node"),
        FetchEnd::NoSpace { need, free } => {
            push_counted(alloc, out, "no-space ", u64::from(*need))?;
            push_counted(alloc, out, " ", u64::from(*free))
        }
    }
}

fn push_begin(out: &mut Vec<u8>, reply: &BeginEnd) -> Result<(), AllocError>
    ensures { OnOk result (out.new.items ≡ out.old.items ++ begin_text reply.now) }
{
    match reply {
        BeginEnd::Ticket(root) => push_rooted(out, b"ticket ", root),
        BeginEnd::InRecovery => out.extend_from_slice(b"in-recovery"),
        BeginEnd::NotFound => out.extend_from_slice(b"not-found"),
        BeginEnd::ListingFault => out.extend_from_slice(b"listing-fault"),
        BeginEnd::DiskRead => out.extend_from_slice(b"disk-read"),
        BeginEnd::Rotten { root, got } => push_rotten(out, root, got),
    }
}

fn push_cause(alloc: Global, out: &mut Vec<u8>, cause: &Cause) -> Result<(), AllocError>
    ensures { OnOk result (out.new.items ≡ out.old.items ++ cause_text cause.now) }
{
    match cause {
        Cause::Fetch(end) => push_end(alloc, out, end),
        Cause::NotAPackage { .. } => out.extend_from_slice(b"not-a-package"),
    }
}

fn push_want(alloc: Global, out: &mut Vec<u8>, reply: &WantEnd) -> Result<(), AllocError>
    ensures { OnOk result (out.new.items ≡ out.old.items ++ want_text reply.now) }
{
    match reply {
        WantEnd::Fetch(root) => push_rooted(out, b"fetch ", root),
        WantEnd::Opened => out.extend_from_slice(b"opened"),
        WantEnd::Failed(cause) => {
            out.extend_from_slice(b"failed ")?;
            push_cause(alloc, out, cause)
        }
    }
}

fn push_made(
    alloc: Global,
    out: &mut Vec<u8>,
    word: &str,
    len: u64,
    reply: &Option<FetchEnd>,
) -> Result<(), AllocError>
    ensures { OnOk result (out.new.items ≡ out.old.items ++ made_text word.now len reply.now) }
{
    match reply {
        None => push_counted(alloc, out, word, len),
        Some(end) => {
            out.extend_from_slice(b"ended ")?;
            push_end(alloc, out, end)
        }
    }
}

fn push_put(alloc: Global, out: &mut Vec<u8>, reply: &Option<FetchEnd>) -> Result<(), AllocError>
    ensures { OnOk result (out.new.items ≡ out.old.items ++ put_text reply.now) }
{
    match reply {
        None => Ok(()),
        Some(end) => {
            out.extend_from_slice(b" ended ")?;
            push_end(alloc, out, end)
        }
    }
}

fn push_open(out: &mut Vec<u8>, reply: &Option<Root>) -> Result<(), AllocError>
    ensures { OnOk result (out.new.items ≡ out.old.items ++ open_text reply.now) }
{
    match reply {
        None => out.extend_from_slice(b"not-here"),
        Some(root) => push_rooted(out, b"opened ", root),
    }
}

fn push_bytes(alloc: Global, out: &mut Vec<u8>, bytes: &[u8]) -> Result<(), AllocError>
    ensures { OnOk result (out.new.items ≡ out.old.items ++ bytes_text bytes.now) }
{
    if bytes.is_empty() {
        out.extend_from_slice(b"-")
    } else {
        push_hex(alloc, out, bytes)
    }
}

fn push_got(alloc: Global, out: &mut Vec<u8>, bytes: &Bytes) -> Result<(), AllocError>
    ensures { OnOk result (out.new.items ≡ out.old.items ++ read_text (Got bytes.now)) }
{
    push_counted(alloc, out, "bytes ", bytes.as_slice().len() as u64)?;
    out.extend_from_slice(b" ")?;
    push_bytes(alloc, out, bytes.as_slice())
}

fn push_read(alloc: Global, out: &mut Vec<u8>, reply: &ReadEnd) -> Result<(), AllocError>
    ensures { OnOk result (out.new.items ≡ out.old.items ++ read_text reply.now) }
{
    match reply {
        ReadEnd::Got(bytes) => push_got(alloc, out, bytes),
        ReadEnd::BadDir => out.extend_from_slice(b"bad-dir"),
        ReadEnd::NoFile => out.extend_from_slice(b"no-file"),
        ReadEnd::TooLong { len } => push_counted(alloc, out, "too-long ", *len),
        ReadEnd::DiskRead => out.extend_from_slice(b"disk-read"),
        ReadEnd::Rotten { root, got } => push_rotten(out, root, got),
    }
}

fn push_check(alloc: Global, out: &mut Vec<u8>, reply: &CheckEnd) -> Result<(), AllocError>
    ensures { OnOk result (out.new.items ≡ out.old.items ++ check_text reply.now) }
{
    match reply {
        CheckEnd::Checked { root, len } => {
            push_rooted(out, b"checked ", root)?;
            push_counted(alloc, out, " ", *len)
        }
        CheckEnd::BadDir => out.extend_from_slice(b"bad-dir"),
        CheckEnd::NoFile => out.extend_from_slice(b"no-file"),
        CheckEnd::DiskRead => out.extend_from_slice(b"disk-read"),
        CheckEnd::Rotten { root, got } => push_rotten(out, root, got),
    }
}

// Each root behind a space.
fn push_roots(out: &mut Vec<u8>, roots: &[Root]) -> Result<(), AllocError>
    ensures { OnOk result (out.new.items ≡ out.old.items ++ roots_text roots.now) }
{
    for root in roots {
        push_rooted(out, b" ", root)?;
    }
    Ok(())
}

fn push_collect(alloc: Global, out: &mut Vec<u8>, reply: &Option<Roots>) -> Result<(), AllocError>
    ensures { OnOk result (out.new.items ≡ out.old.items ++ collect_text reply.now) }
{
    match reply {
        None => out.extend_from_slice(b"not-committed"),
        Some(roots) => {
            push_counted(alloc, out, "removed ", roots.as_slice().len() as u64)?;
            push_roots(out, roots.as_slice())
        }
    }
}

fn push_retain_end(out: &mut Vec<u8>, reply: &RetainEnd) -> Result<(), AllocError>
    ensures { OnOk result (out.new.items ≡ out.old.items ++ retain_text reply.now) }
{
    match reply {
        RetainEnd::Done => out.extend_from_slice(b"done"),
        RetainEnd::SlotInUse => out.extend_from_slice(b"slot-in-use"),
        RetainEnd::DiskRead => out.extend_from_slice(b"disk-read"),
        RetainEnd::Rotten { root, got } => push_rotten(out, root, got),
    }
}

fn push_stage(alloc: Global, out: &mut Vec<u8>, reply: &StageEnd) -> Result<(), AllocError>
    ensures { OnOk result (out.new.items ≡ out.old.items ++ stage_text reply.now) }
{
    match reply {
        StageEnd::Turn { slot } => push_slotted(out, b"turn ", *slot),
        StageEnd::InRecovery => out.extend_from_slice(b"in-recovery"),
        StageEnd::Busy { lane } => push_counted(alloc, out, "busy ", u64::from(*lane)),
        StageEnd::NotCommitted => out.extend_from_slice(b"not-committed"),
        StageEnd::Older { have } => push_counted(alloc, out, "older ", *have),
    }
}

fn push_copy_end(
    alloc: Global,
    out: &mut Vec<u8>,
    reply: &Option<CopyEnd>,
) -> Result<(), AllocError>
    ensures { OnOk result (out.new.items ≡ out.old.items ++ copy_text reply.now) }
{
    match reply {
        None => Ok(()),
        Some(CopyEnd::BadDir) => out.extend_from_slice(b" bad-dir"),
        Some(CopyEnd::NoFile) => out.extend_from_slice(b" no-file"),
        Some(CopyEnd::TooLarge { len, room }) => {
            push_counted(alloc, out, " too-large ", *len)?;
            push_counted(alloc, out, " ", *room)
        }
        Some(CopyEnd::DiskRead) => out.extend_from_slice(b" disk-read"),
    }
}

fn push_seal(alloc: Global, out: &mut Vec<u8>, reply: &Option<Difference>) -> Result<(), AllocError>
    ensures { OnOk result (out.new.items ≡ out.old.items ++ seal_text reply.now) }
{
    match reply {
        None => out.extend_from_slice(b"sealed"),
        Some(difference) => {
            out.extend_from_slice(b"differs ")?;
            out.extend_from_slice(image_name(difference.image))?;
            push_counted(alloc, out, " ", difference.got.len)?;
            out.extend_from_slice(b" ")?;
            push_hex(alloc, out, &difference.got.sha)
        }
    }
}

fn push_activate(out: &mut Vec<u8>, reply: &ActivateEnd) -> Result<(), AllocError>
    ensures { OnOk result (out.new.items ≡ out.old.items ++ activate_text reply.now) }
{
    match reply {
        ActivateEnd::Active { slot } => push_slotted(out, b"active ", *slot),
        ActivateEnd::BaseMissing { root } => push_rooted(out, b"base-missing ", root),
        ActivateEnd::NotASystem { .. } => out.extend_from_slice(b"not-a-system"),
        ActivateEnd::DiskRead => out.extend_from_slice(b"disk-read"),
        ActivateEnd::Rotten { root, got } => push_rotten(out, root, got),
    }
}
