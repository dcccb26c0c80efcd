//! Fetching a granted blob.

ghost use Rattle.std.specs.Prelude.{◌≡◌, ◌<◌, ◌≤◌, ◌↔◌, ℕ, true, [], Some, length, IfSome};
ghost use Rattle.pkg_names.specs.Streams.{one_more};
ghost use Rattle.repo_source.specs.Repo.{Fetches};
ghost use Rattle.repo_source.specs.declared.repo.FetchReply.TheVariants.{Found};
ghost use Rattle.store_model.specs.declared.ends.TheConstants.{PIECE_LIMIT};
ghost use Rattle.store_model.specs.Holding.{HeldTicket};
ghost use Rattle.store_model.specs.HeldAfter.{without_claim};
ghost use Rattle.store_model.specs.Desk.{held_by, KeepsImages};
ghost use Rattle.store_model.specs.Desk.Keeping.{Blob};
ghost use Rattle.store_model.specs.Calls.{HoldsNewClaim};
ghost use Rattle.resolver.specs.Serving.Point.{Granted};
ghost use Rattle.resolver.specs.Steps.{Goes, after_fetch};

use crate::pieces::take;
use crate::reply::Stop;
use repo_source::{FetchReply, Repo};
use std::alloc::Global;
use store_model::{Claim, Desk, Miss, RoomReply};

// Asks the repository once for the granted blob, and lands it or ends the claim.
pub(crate) fn fetch<K: Desk, R: Repo>(
    alloc: Global,
    desk: &mut K,
    repo: &mut R,
    buffer: &mut [u8],
    claim: Claim,
) -> Result<(), Stop>
    requires claim { HoldsNewClaim (K.view desk.old) claim.root }
    requires empty { K.kept desk.old Blob [] }
    requires some { 0 < length buffer.old }
    requires few { length buffer.old ≤ PIECE_LIMIT }
    ensures goes { (t : HeldTicket) → Goes 0 (Granted t claim.root) (after_fetch t result)
        (K.view desk.old) (K.view desk.new) (R.listing repo.old) (R.files repo.old) (R.faults repo.old)
        (R.faults repo.new) }
    ensures held { held_by (K.view desk.new) ≡ without_claim (held_by (K.view desk.old)) }
    ensures images { KeepsImages (K.kept desk.old) (K.kept desk.new) }
    ensures firm { K.firm desk.old ↔ K.firm desk.new }
    ensures listing { R.listing repo.new ≡ R.listing repo.old }
    ensures files { R.files repo.new ≡ R.files repo.old }
    ensures fetches { R.fetches repo.new ≡ one_more (R.fetches repo.old) }
{
    match repo.fetch(alloc, &claim.root) {
        FetchReply::Found { len } => fill(desk, repo, buffer, claim, len),
        FetchReply::Absent => {
            desk.miss(claim, Miss::Absent);
            Ok(())
        }
        FetchReply::Failed => {
            desk.miss(claim, Miss::Read);
            Ok(())
        }
        FetchReply::NoMemory => {
            desk.miss(claim, Miss::Memory);
            Err(Stop::NoMemory)
        }
    }
}

// Makes room of the declared length, and fills it from the open fetch.
fn fill<K: Desk, R: Repo>(
    desk: &mut K,
    repo: &mut R,
    buffer: &mut [u8],
    claim: Claim,
    len: u64,
) -> Result<(), Stop>
    requires claim { HoldsNewClaim (K.view desk.old) claim.root }
    requires empty { K.kept desk.old Blob [] }
    requires open { R.is_open repo.old ≡ true }
    requires found { IfSome (R.files repo.old) (λ all. Fetches all claim.root (Found len)) }
    requires begun { IfSome (R.files repo.old) (λ _. R.reading repo.old ≡ record { root = claim.root; given = 0 }) }
    requires some { 0 < length buffer.old }
    requires few { length buffer.old ≤ PIECE_LIMIT }
    ensures goes { (t : HeldTicket) → Goes 0 (Granted t claim.root) (after_fetch t result)
        (K.view desk.old) (K.view desk.new) (R.listing repo.old) (R.files repo.old) (R.faults repo.old)
        (R.faults repo.new) }
    ensures held { held_by (K.view desk.new) ≡ without_claim (held_by (K.view desk.old)) }
    ensures images { KeepsImages (K.kept desk.old) (K.kept desk.new) }
    ensures firm { K.firm desk.old ↔ K.firm desk.new }
    ensures listing { R.listing repo.new ≡ R.listing repo.old }
    ensures files { R.files repo.new ≡ R.files repo.old }
    ensures fetches { R.fetches repo.new ≡ R.fetches repo.old }
{
    match desk.room(claim, len) {
        RoomReply::Made(claim) => take(desk, repo, buffer, claim, len),
        RoomReply::Ended(_) => Ok(()),
        RoomReply::Broken { number } => Err(Stop::Broken { number }),
        RoomReply::NoMemory(claim) => {
            desk.miss(claim, Miss::Memory);
            Err(Stop::NoMemory)
        }
    }
}
