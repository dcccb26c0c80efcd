//! A lane's calls on the package that it asks for.

ghost use Rattle.std.specs.Prelude.{IfOk};
ghost use Rattle.lane_steps.specs.Hands.{Fits, Grows};

use crate::hand::Hand;
use package_indexes::Choice;
use pkg_names::read_path;
use std::alloc::Global;
use std::test::Fail;
use store_model::{BeginReply, Desk, LandReply, Miss, PIECE_LIMIT, PutReply, RoomReply, WantReply};

pub(crate) fn begin<K: Desk>(
    alloc: Global,
    desk: &mut K,
    hand: Hand,
    path: &[u8],
    choice: Choice,
) -> Result<Hand, Fail>
    requires { Fits hand (K.view desk.old) }
    ensures hand { IfOk result (λ hand. Fits hand (K.view desk.new)) }
    ensures grows { Grows (K.view desk.old) (K.view desk.new) }
{
    let Hand::Free = hand else {
        return Err(Fail::new("not free"));
    };
    let path = read_path(alloc, path)?;
    match desk.begin(&path, choice) {
        BeginReply::Made(ticket) => Ok(Hand::Asking(ticket)),
        BeginReply::NoMemory => Err(Fail::new("begin: no memory")),
        _ => Ok(Hand::Free),
    }
}

pub(crate) fn want<K: Desk>(desk: &mut K, hand: Hand) -> Result<Hand, Fail>
    requires { Fits hand (K.view desk.old) }
    ensures hand { IfOk result (λ hand. Fits hand (K.view desk.new)) }
    ensures grows { Grows (K.view desk.old) (K.view desk.new) }
{
    let Hand::Asking(ticket) = hand else {
        return Err(Fail::new("no ticket"));
    };
    match desk.want(ticket) {
        WantReply::Fetch(ticket, claim) => Ok(Hand::Granted(ticket, claim)),
        WantReply::NotYet(ticket, _) => Ok(Hand::Asking(ticket)),
        WantReply::Failed(_) => Ok(Hand::Free),
        WantReply::Opened(_) => Ok(Hand::Free),
        WantReply::NoMemory(_) => Err(Fail::new("want: no memory")),
        _ => Err(Fail::new("no answer")),
    }
}

pub(crate) fn give_up<K: Desk>(desk: &mut K, hand: Hand) -> Result<Hand, Fail>
    requires { Fits hand (K.view desk.old) }
    ensures hand { IfOk result (λ hand. Fits hand (K.view desk.new)) }
    ensures grows { Grows (K.view desk.old) (K.view desk.new) }
{
    let Hand::Asking(ticket) = hand else {
        return Err(Fail::new("no ticket"));
    };
    desk.give_up(ticket);
    Ok(Hand::Free)
}

pub(crate) fn room<K: Desk>(desk: &mut K, hand: Hand, len: u64) -> Result<Hand, Fail>
    requires { Fits hand (K.view desk.old) }
    ensures hand { IfOk result (λ hand. Fits hand (K.view desk.new)) }
    ensures grows { Grows (K.view desk.old) (K.view desk.new) }
{
    let Hand::Granted(ticket, claim) = hand else {
        return Err(Fail::new("no claim"));
    };
    match desk.room(claim, len) {
        RoomReply::Made(claim) => Ok(Hand::Roomy(ticket, claim)),
        RoomReply::Ended(_) => Ok(Hand::Asking(ticket)),
        RoomReply::NoMemory(_) => Err(Fail::new("room: no memory")),
        _ => Err(Fail::new("no answer")),
    }
}

/// Puts these bytes, and lands them if they fit.
pub(crate) fn put<K: Desk>(desk: &mut K, hand: Hand, bytes: &[u8]) -> Result<Hand, Fail>
    requires { Fits hand (K.view desk.old) }
    ensures hand { IfOk result (λ hand. Fits hand (K.view desk.new)) }
    ensures grows { Grows (K.view desk.old) (K.view desk.new) }
{
    let Hand::Roomy(ticket, claim) = hand else {
        return Err(Fail::new("no room"));
    };
    if bytes.len() > PIECE_LIMIT {
        return Err(Fail::new("more than a piece"));
    }
    match desk.put(claim, bytes) {
        PutReply::Taken(claim) => land(desk, Hand::Roomy(ticket, claim)),
        PutReply::Ended(_) => Ok(Hand::Asking(ticket)),
        _ => Err(Fail::new("no answer")),
    }
}

fn land<K: Desk>(desk: &mut K, hand: Hand) -> Result<Hand, Fail>
    requires { Fits hand (K.view desk.old) }
    ensures hand { IfOk result (λ hand. Fits hand (K.view desk.new)) }
    ensures grows { Grows (K.view desk.old) (K.view desk.new) }
{
    let Hand::Roomy(ticket, claim) = hand else {
        return Err(Fail::new("no room"));
    };
    match desk.land(claim) {
        LandReply::Landed => Ok(Hand::Asking(ticket)),
        LandReply::Ended(_) => Ok(Hand::Asking(ticket)),
        LandReply::NoMemory(_) => Err(Fail::new("land: no memory")),
        _ => Err(Fail::new("no answer")),
    }
}

pub(crate) fn miss<K: Desk>(desk: &mut K, hand: Hand, why: Miss) -> Result<Hand, Fail>
    requires { Fits hand (K.view desk.old) }
    ensures hand { IfOk result (λ hand. Fits hand (K.view desk.new)) }
    ensures grows { Grows (K.view desk.old) (K.view desk.new) }
{
    let Hand::Granted(ticket, claim) = hand else {
        return Err(Fail::new("no claim"));
    };
    desk.miss(claim, why);
    Ok(Hand::Asking(ticket))
}
