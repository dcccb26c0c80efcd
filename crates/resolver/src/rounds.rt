//! A package that arrives: rounds of asking what is missing, until it is open or has failed.

ghost use Rattle.std.specs.Prelude.{◌≡◌, ◌<◌, ◌≤◌, ◌↔◌, ℕ, length, IfOk};
ghost use Rattle.pkg_names.specs.NameAndVariant.{NameAndVariant};
ghost use Rattle.store_model.specs.declared.ends.TheConstants.{PIECE_LIMIT};
ghost use Rattle.store_model.specs.Desk.{held_by, KeepsImages};
ghost use Rattle.store_model.specs.Calls.{HoldsTicket, HoldsNoClaim};
ghost use Rattle.resolver.specs.Serving.{ticket_for};
ghost use Rattle.resolver.specs.Serving.Point.{Waiting};
ghost use Rattle.resolver.specs.Steps.{Fetches, after_arrival, after_round, held_after_arrival, held_after_round};

use crate::fetching::fetch;
use crate::reply::ResolveReply;
use repo_source::Repo;
use std::alloc::Global;
use std::sync::Wait;
use store_model::{Desk, Ticket, WantReply};

// Brings the package of the ticket to its end.
pub(crate) fn arrive<W: Wait, K: Desk, R: Repo>(
    rt: &W,
    alloc: Global,
    desk: &mut K,
    repo: &mut R,
    buffer: &mut [u8],
    mut ticket: Ticket,
) -> ResolveReply
    requires ticket { HoldsTicket (K.view desk.old) ticket }
    requires free { HoldsNoClaim (K.view desk.old) }
    requires some { 0 < length buffer.old }
    requires few { length buffer.old ≤ PIECE_LIMIT }
    ensures goes { (path : NameAndVariant) → Fetches (Waiting (ticket_for path ticket))
        (after_arrival (ticket_for path ticket) result) (K.view desk.old) (K.view desk.new) (R.listing repo.old)
        (R.files repo.old) (R.faults repo.old) (R.faults repo.new) (R.fetches repo.old) (R.fetches repo.new) }
    ensures held { held_by (K.view desk.new)
        ≡ held_after_arrival (K.view desk.old).lane ticket.number result (held_by (K.view desk.old)) }
    ensures images { KeepsImages (K.kept desk.old) (K.kept desk.new) }
    ensures firm { K.firm desk.old ↔ K.firm desk.new }
    ensures listing { R.listing repo.new ≡ R.listing repo.old }
    ensures files { R.files repo.new ≡ R.files repo.old }
{
    for _ in rt.forever() {
        match go_round(alloc, desk, repo, buffer, ticket) {
            Ok(back) => ticket = back,
            Err(reply) => return reply,
        }
    }
    unreachable!()
}

// Asks what is missing, and fetches it, or waits while others do. The ticket comes back, or it is over.
fn go_round<K: Desk, R: Repo>(
    alloc: Global,
    desk: &mut K,
    repo: &mut R,
    buffer: &mut [u8],
    ticket: Ticket,
) -> Result<Ticket, ResolveReply>
    requires ticket { HoldsTicket (K.view desk.old) ticket }
    requires free { HoldsNoClaim (K.view desk.old) }
    requires some { 0 < length buffer.old }
    requires few { length buffer.old ≤ PIECE_LIMIT }
    ensures back { IfOk result (λ back. back ≡ ticket) }
    ensures goes { (path : NameAndVariant) → Fetches (Waiting (ticket_for path ticket))
        (after_round (ticket_for path ticket) result) (K.view desk.old) (K.view desk.new) (R.listing repo.old)
        (R.files repo.old) (R.faults repo.old) (R.faults repo.new) (R.fetches repo.old) (R.fetches repo.new) }
    ensures held { held_by (K.view desk.new)
        ≡ held_after_round (K.view desk.old).lane ticket.number result (held_by (K.view desk.old)) }
    ensures images { KeepsImages (K.kept desk.old) (K.kept desk.new) }
    ensures firm { K.firm desk.old ↔ K.firm desk.new }
    ensures listing { R.listing repo.new ≡ R.listing repo.old }
    ensures files { R.files repo.new ≡ R.files repo.old }
{
    match desk.want(ticket) {
        WantReply::Opened(dir) => Err(ResolveReply::Resolved(dir)),
        WantReply::Failed(cause) => Err(ResolveReply::Failed(cause)),
        WantReply::Broken { number } => Err(ResolveReply::Broken { number }),
        WantReply::NotYet(ticket, bell) => {
            desk.pause(bell);
            Ok(ticket)
        }
        WantReply::NoMemory(ticket) => {
            desk.give_up(ticket);
            Err(ResolveReply::NoMemory)
        }
        WantReply::Fetch(ticket, claim) => match fetch(alloc, desk, repo, buffer, claim) {
            Ok(()) => Ok(ticket),
            Err(stop) => {
                desk.give_up(ticket);
                Err(stop.reply())
            }
        },
    }
}
