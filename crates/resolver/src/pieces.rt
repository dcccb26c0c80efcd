//! The bytes of a granted blob, piece by piece.

ghost use Rattle.std.specs.Prelude.{◌≡◌, ◌<◌, ◌≤◌, ◌↔◌, ℕ, true, List, length, Option, Some};
ghost use Rattle.pkg_names.specs.declared.pinned.Pinned.{Pinned};
ghost use Rattle.repo_source.specs.declared.file.RepoFile.{RepoFile};
ghost use Rattle.store_model.specs.declared.ends.TheConstants.{PIECE_LIMIT};
ghost use Rattle.store_model.specs.Holding.{HeldTicket};
ghost use Rattle.store_model.specs.HeldAfter.{without_claim};
ghost use Rattle.store_model.specs.Desk.{held_by, KeepsImages};
ghost use Rattle.store_model.specs.Calls.{HoldsRoom, room_by};
ghost use Rattle.resolver.specs.Serving.Point.{Roomy};
ghost use Rattle.resolver.specs.Steps.{Goes, Fills, FillsOn, IsFilled, after_fetch, after_piece, held_after_piece};

use crate::reply::Stop;
use repo_source::{NextReply, Repo};
use store_model::{Claim, Desk, LandReply, Miss, PutReply};

// What becomes of a claim with one piece more.
#[derive(Debug, Drop)]
pub(crate) enum Piece {
    // It was taken, and so many bytes are left to come.
    More(Claim, u64),
    // The claim is over.
    Last(Result<(), Stop>),
}

// Puts all bytes of the open fetch under the claim, and lands them.
pub(crate) fn take<K: Desk, R: Repo>(
    desk: &mut K,
    repo: &mut R,
    buffer: &mut [u8],
    mut claim: Claim,
    len: u64,
) -> Result<(), Stop>
    requires room { (held_by (K.view desk.old)).claim ≡ Some (record { root = claim.root; len = Some len }) }
    requires open { R.is_open repo.old ≡ true }
    requires fills { Fills (K.kept desk.old) (R.files repo.old) claim.root (R.reading repo.old) len len }
    requires some { 0 < length buffer.old }
    requires few { length buffer.old ≤ PIECE_LIMIT }
    ensures goes { (t : HeldTicket) → Goes 0 (Roomy t claim.root len) (after_fetch t result)
        (K.view desk.old) (K.view desk.new) (R.listing repo.old) (R.files repo.old) (R.faults repo.old)
        (R.faults repo.new) }
    ensures held { held_by (K.view desk.new) ≡ without_claim (held_by (K.view desk.old)) }
    ensures images { KeepsImages (K.kept desk.old) (K.kept desk.new) }
    ensures firm { K.firm desk.old ↔ K.firm desk.new }
    ensures listing { R.listing repo.new ≡ R.listing repo.old }
    ensures files { R.files repo.new ≡ R.files repo.old }
    ensures fetches { R.fetches repo.new ≡ R.fetches repo.old }
{
    let mut left = len;
    loop {
        match pass(desk, repo, buffer, claim, len, left) {
            Piece::More(back, rest) => {
                claim = back;
                left = rest;
            }
            Piece::Last(result) => return result,
        }
    }
}

// Puts the next piece of the open fetch under the claim, or lands what was put.
fn pass<K: Desk, R: Repo>(
    desk: &mut K,
    repo: &mut R,
    buffer: &mut [u8],
    claim: Claim,
    len: u64,
    left: u64,
) -> Piece
    requires room { (held_by (K.view desk.old)).claim ≡ Some (record { root = claim.root; len = Some len }) }
    requires open { R.is_open repo.old ≡ true }
    requires fills { Fills (K.kept desk.old) (R.files repo.old) claim.root (R.reading repo.old) len left }
    requires some { 0 < length buffer.old }
    requires few { length buffer.old ≤ PIECE_LIMIT }
    ensures goes { (t : HeldTicket) → Goes 0 (Roomy t claim.root len) (after_piece t claim.root len result)
        (K.view desk.old) (K.view desk.new) (R.listing repo.old) (R.files repo.old) (R.faults repo.old)
        (R.faults repo.new) }
    ensures held { held_by (K.view desk.new) ≡ held_after_piece result (held_by (K.view desk.old)) }
    ensures fills { FillsOn (K.kept desk.new) (R.files repo.old) claim.root (R.reading repo.new) len left result }
    ensures images { KeepsImages (K.kept desk.old) (K.kept desk.new) }
    ensures firm { K.firm desk.old ↔ K.firm desk.new }
    ensures listing { R.listing repo.new ≡ R.listing repo.old }
    ensures files { R.files repo.new ≡ R.files repo.old }
    ensures fetches { R.fetches repo.new ≡ R.fetches repo.old }
    ensures open { R.is_open repo.new ≡ true }
{
    match repo.next(buffer) {
        NextReply::Given { count } => match desk.put(claim, &buffer[..count]) {
            PutReply::Taken(back) => Piece::More(back, left - count as u64),
            PutReply::Ended(_) => Piece::Last(Ok(())),
            PutReply::Broken { number } => Piece::Last(Err(Stop::Broken { number })),
        },
        NextReply::End => Piece::Last(land(desk, claim)),
        NextReply::Failed => {
            desk.miss(claim, Miss::Read);
            Piece::Last(Ok(()))
        }
    }
}

// Lands what was put. Where memory is short the claim is missed.
fn land<K: Desk>(desk: &mut K, claim: Claim) -> Result<(), Stop>
    requires { HoldsRoom (K.view desk.old) claim.root }
    ensures goes { (t : HeldTicket) (listing : Option (List Pinned)) (files : Option (List RepoFile)) (faults : ℕ)
        → IsFilled (K.kept desk.old) files claim.root
        → Goes 0 (Roomy t claim.root (room_by (K.view desk.old))) (after_fetch t result)
        (K.view desk.old) (K.view desk.new) listing files faults faults }
    ensures held { held_by (K.view desk.new) ≡ without_claim (held_by (K.view desk.old)) }
    ensures images { KeepsImages (K.kept desk.old) (K.kept desk.new) }
    ensures firm { K.firm desk.old ↔ K.firm desk.new }
{
    match desk.land(claim) {
        LandReply::Landed => Ok(()),
        LandReply::Ended(_) => Ok(()),
        LandReply::Broken { number } => Err(Stop::Broken { number }),
        LandReply::NoMemory(claim) => {
            desk.miss(claim, Miss::Memory);
            Err(Stop::NoMemory)
        }
    }
}
