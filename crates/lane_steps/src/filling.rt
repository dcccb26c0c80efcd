//! A lane's calls on its update.

ghost use Rattle.std.specs.Prelude.{IfOk};
ghost use Rattle.store_model.specs.Calls.{HoldsNoClaim, HoldsAnyStage};
ghost use Rattle.lane_steps.specs.Hands.{Fits, Grows};

use crate::hand::Hand;
use crate::step::Copied;
use image_layout::{ImageKind, Sys};
use pkg_names::read_file;
use std::alloc::Global;
use std::test::Fail;
use store_model::{ActivateReply, CopyReply, Desk, Dir, SealReply, StageReply};

pub(crate) fn stage<K: Desk>(desk: &mut K, hand: Hand, epoch: u64) -> Result<Hand, Fail>
    requires { Fits hand (K.view desk.old) }
    ensures hand { IfOk result (λ hand. Fits hand (K.view desk.new)) }
    ensures grows { Grows (K.view desk.old) (K.view desk.new) }
{
    let Hand::Free = hand else {
        return Err(Fail::new("not free"));
    };
    match desk.stage(epoch) {
        StageReply::Turn { .. } => Ok(Hand::Filling),
        StageReply::NoMemory => Err(Fail::new("stage: no memory")),
        _ => Ok(Hand::Free),
    }
}

/// Copies one part, which is to leave this.
pub(crate) fn copy<K: Desk>(
    alloc: Global,
    desk: &mut K,
    hand: Hand,
    image: ImageKind,
    dir: u64,
    file: &[u8],
    left: Copied,
) -> Result<Hand, Fail>
    requires { Fits hand (K.view desk.old) }
    ensures hand { IfOk result (λ hand. Fits hand (K.view desk.new)) }
    ensures grows { Grows (K.view desk.old) (K.view desk.new) }
{
    let Hand::Filling = hand else {
        return Err(Fail::new("nothing is filled"));
    };
    let file = read_file(alloc, file)?;
    let reply = desk.copy_part(image, Dir { number: dir }, &file);
    if matches!(reply, CopyReply::NoMemory) {
        return Err(Fail::new("copy_part: no memory"));
    }
    if copied_by(&reply) != left {
        return Err(Fail::new("another part"));
    }
    Ok(Hand::Filling)
}

fn copied_by(reply: &CopyReply) -> Copied {
    match reply {
        CopyReply::More { have } => Copied::More(*have),
        CopyReply::Whole { len } => Copied::Whole(*len),
        _ => Copied::Nothing,
    }
}

pub(crate) fn seal<K: Desk>(desk: &mut K, hand: Hand, sys: &Sys) -> Result<Hand, Fail>
    requires { Fits hand (K.view desk.old) }
    ensures hand { IfOk result (λ hand. Fits hand (K.view desk.new)) }
    ensures grows { Grows (K.view desk.old) (K.view desk.new) }
{
    let Hand::Filling = hand else {
        return Err(Fail::new("nothing is filled"));
    };
    match desk.seal(sys) {
        SealReply::Sealed => Ok(Hand::Sealed),
        SealReply::Differs { .. } => Ok(Hand::Filling),
        SealReply::NoMemory => Err(Fail::new("seal: no memory")),
        _ => Err(Fail::new("no answer")),
    }
}

pub(crate) fn activate<K: Desk>(desk: &mut K, hand: Hand) -> Result<Hand, Fail>
    requires { Fits hand (K.view desk.old) }
    ensures hand { IfOk result (λ hand. Fits hand (K.view desk.new)) }
    ensures grows { Grows (K.view desk.old) (K.view desk.new) }
{
    let Hand::Sealed = hand else {
        return Err(Fail::new("nothing is sealed"));
    };
    match desk.activate() {
        ActivateReply::Active { .. } => Ok(Hand::Done),
        ActivateReply::BaseMissing { .. } => Ok(Hand::Sealed),
        ActivateReply::NotASystem { .. } => Ok(Hand::Sealed),
        ActivateReply::NoMemory => Err(Fail::new("activate: no memory")),
        _ => Err(Fail::new("no answer")),
    }
}

/// Leaves the update, in whatever phase it is.
pub(crate) fn leave_stage<K: Desk>(desk: &mut K, hand: Hand) -> Result<Hand, Fail>
    requires { Fits hand (K.view desk.old) }
    ensures hand { IfOk result (λ hand. Fits hand (K.view desk.new)) }
    ensures grows { Grows (K.view desk.old) (K.view desk.new) }
{
    match hand {
        Hand::Filling => Ok(leave(desk)),
        Hand::Sealed => Ok(leave(desk)),
        Hand::Done => Ok(leave(desk)),
        _ => Err(Fail::new("no update")),
    }
}

fn leave<K: Desk>(desk: &mut K) -> Hand
    requires free { HoldsNoClaim (K.view desk.old) }
    requires stage { HoldsAnyStage (K.view desk.old) }
    ensures hand { Fits result (K.view desk.new) }
    ensures grows { Grows (K.view desk.old) (K.view desk.new) }
{
    desk.leave_stage();
    Hand::Free
}
