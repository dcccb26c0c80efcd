//! A lane's next call, with what the lane has in hand.

ghost use Rattle.std.specs.Prelude.{IfOk};
ghost use Rattle.lane_steps.specs.Hands.{Fits, Grows};

use crate::filling::{activate, copy, leave_stage, seal, stage};
use crate::hand::Hand;
use crate::keeping::other_call;
use crate::packages::{begin, give_up, miss, put, room, want};
use crate::step::Step;
use std::alloc::Global;
use std::test::Fail;
use store_model::Desk;

/// The lane's next call, with what it has in hand; what it has in hand then. Fails where the lane has nothing to call
/// it with, or there is no answer. A call of no handle fails only for its words: what it was answered is in the
/// history.
pub fn take_step<K: Desk>(
    alloc: Global,
    desk: &mut K,
    hand: Hand,
    step: &Step,
) -> Result<Hand, Fail>
    requires { Fits hand (K.view desk.old) }
    ensures hand { IfOk result (λ hand. Fits hand (K.view desk.new)) }
    ensures grows { Grows (K.view desk.old) (K.view desk.new) }
{
    match step {
        Step::Begin(path, choice) => begin(alloc, desk, hand, path, *choice),
        Step::Want => want(desk, hand),
        Step::GiveUp => give_up(desk, hand),
        Step::Room(len) => room(desk, hand, *len),
        Step::Land(bytes) => put(desk, hand, bytes),
        Step::Miss(why) => miss(desk, hand, *why),
        Step::Stage(epoch) => stage(desk, hand, *epoch),
        Step::Seal(sys) => seal(desk, hand, sys),
        Step::Activate => activate(desk, hand),
        Step::LeaveStage => leave_stage(desk, hand),
        Step::Copy(image, dir, file, left) => { copy(alloc, desk, hand, *image, *dir, file, *left) }
        _ => {
            other_call(alloc, desk, step)?;
            Ok(hand)
        }
    }
}
