//! Whether a call that leaves what the lane has in hand was short of memory.

use std::test::Fail;
use store_model::{
    CheckReply, CloseReply, CollectReply, CommitReply, OpenReply, ReadReply, RejectReply,
    RetainReply,
};

pub(crate) fn opened(reply: OpenReply) -> Result<(), Fail> {
    match reply {
        OpenReply::NoMemory => Err(Fail::new("open_path: no memory")),
        _ => Ok(()),
    }
}

pub(crate) fn was_read(reply: ReadReply) -> Result<(), Fail> {
    match reply {
        ReadReply::NoMemory => Err(Fail::new("read: no memory")),
        _ => Ok(()),
    }
}

pub(crate) fn checked(reply: CheckReply) -> Result<(), Fail> {
    match reply {
        CheckReply::NoMemory => Err(Fail::new("check: no memory")),
        _ => Ok(()),
    }
}

pub(crate) fn retained(reply: RetainReply) -> Result<(), Fail> {
    match reply {
        RetainReply::NoMemory => Err(Fail::new("retain: no memory")),
        _ => Ok(()),
    }
}

pub(crate) fn closed(reply: CloseReply) -> Result<(), Fail> {
    match reply {
        CloseReply::NoMemory => Err(Fail::new("close: no memory")),
        _ => Ok(()),
    }
}

pub(crate) fn collected(reply: CollectReply) -> Result<(), Fail> {
    match reply {
        CollectReply::NoMemory => Err(Fail::new("collect: no memory")),
        _ => Ok(()),
    }
}

pub(crate) fn committed(reply: CommitReply) -> Result<(), Fail> {
    match reply {
        CommitReply::NoMemory => Err(Fail::new("commit: no memory")),
        _ => Ok(()),
    }
}

pub(crate) fn rejected(reply: RejectReply) -> Result<(), Fail> {
    match reply {
        RejectReply::NoMemory => Err(Fail::new("reject: no memory")),
        _ => Ok(()),
    }
}
