//! What a lane holds at the end of a call, which may have been short of memory.

use script_lang::text_of;
use std::alloc::Global;
use std::test::Fail;
use store_model::{Act, BeginEnd, Event, StageEnd, WantEnd};

// A lane gets something by this act: a ticket, a claim, a directory or a stage.
fn gets(act: &Act) -> bool {
    match act {
        Act::Begin { reply, .. } => matches!(reply, BeginEnd::Ticket(_)),
        Act::Want { reply, .. } => !matches!(reply, WantEnd::Failed(_)),
        Act::OpenPath { reply, .. } => reply.is_some(),
        Act::Stage { reply, .. } => matches!(reply, StageEnd::Turn { .. }),
        _ => false,
    }
}

// It ends something by this one.
fn ends(act: &Act) -> bool {
    match act {
        Act::Want { reply, .. } => !matches!(reply, WantEnd::Fetch(_)),
        Act::Room { reply, .. } => reply.is_some(),
        Act::Put { .. } | Act::Land { .. } | Act::Missed { .. } => true,
        Act::Close { closed, .. } => *closed,
        Act::GaveUp { .. } | Act::LeftStage => true,
        _ => false,
    }
}

// By this history, in which one lane did something, it holds so many things.
fn holds(history: &[Event], count: usize) -> bool {
    let got = history.iter().filter(|event| gets(&event.act)).count();
    let ended = history.iter().filter(|event| ends(&event.act)).count();
    got.checked_sub(ended) == Some(count)
}

// The lane holds so many things. Unless memory was short, the history ends so.
pub(crate) fn is_served(
    alloc: Global,
    history: &[Event],
    starved: bool,
    count: usize,
    end: &[u8],
) -> Result<bool, Fail> {
    if starved {
        return Ok(holds(history, count));
    }
    let Ok(text) = text_of(alloc, history) else {
        return Err(Fail::new("no text"));
    };
    Ok(holds(history, count) && text.as_slice().ends_with(end))
}
