//! What a lane's desk at the store promises.

ghost use Rattle.std.specs.Prelude.{◌≡◌, ◌↔◌, ℕ, ◌≤◌, List, length};
ghost use Rattle.store_model.specs.declared.ends.TheConstants.{PIECE_LIMIT};
ghost use Rattle.store_model.specs.State.Phase.{Filling};
ghost use Rattle.store_model.specs.Desk.{View, Keeping, state_of, Does, Rests, Keeps, KeepsImages, KeepsBlob};
ghost use Rattle.store_model.specs.Replies.{IsMissed, IsGivenUp, HasLeftStage};
ghost use Rattle.store_model.specs.Calls.{HoldsTicket, HoldsNoClaim, HoldsClaim, HoldsNewClaim, HoldsRoom, HoldsStage, HoldsSealed, HoldsAnyStage, room_by, Begins, Wants, KeepsAtWant, MakesRoom, KeepsAtRoom, Puts, KeepsAtPut, Lands, KeepsAtLand, Opens, Reads, Checks, Closes, Collects, Retains, Stages, KeepsAtStage, fillers_at_stage, Copies, KeepsAtCopy, IsWholeFile, Seals, KeepsAtSeal, Activates, Commits, Rejects};

use crate::ends::Miss;
use crate::replies::{
    ActivateReply, BeginReply, CheckReply, Claim, CloseReply, CollectReply, CommitReply, CopyReply,
    Dir, LandReply, OpenReply, PutReply, ReadReply, RejectReply, RetainReply, RoomReply, SealReply,
    StageReply, Ticket, WantReply,
};
use image_layout::{ImageKind, Sys};
use package_indexes::Choice;
use pkg_names::{FilePath, PackagePath, Root};
use system_lists::{ManifestFault, ManifestFile};

/// The most roots that are retained at once.
pub const RETAIN_LIMIT: usize = 4096;

/// A desk at a store, for one lane. Each call makes at most one event, which is due after all that came
/// before it. Other lanes may have made events between two calls; the lane sees them at its next call.
/// `docs/model.md` tells what each event means.
pub trait Desk {
    ghost view: { Self → View };

    /// The bytes that the desk stands for. They can't be told from what it holds.
    ghost kept: { Self → Keeping → List ℕ → Type 0 };

    /// What is read of the store's disk has the roots that it had when the store was opened. No call
    /// changes whether this is so.
    ghost firm: { Self → Type 0 };

    /// Asks for a package.
    fn begin(&mut self, path: &PackagePath, choice: Choice) -> BeginReply
        ensures event { Begins path.now choice result (view self.old) (view self.new) }
        ensures kept { Keeps (kept self.old) (kept self.new) }
        ensures fillers { (view self.new).fillers ≡ (view self.old).fillers }
        ensures firm { firm self.old ↔ firm self.new };

    /// Asks what is missing of a package that arrives.
    fn want(&mut self, ticket: Ticket) -> WantReply
        requires holds { HoldsTicket (view self.old) ticket }
        requires free { HoldsNoClaim (view self.old) }
        ensures event { Wants ticket result (view self.old) (view self.new) }
        ensures kept { KeepsAtWant result (kept self.old) (kept self.new) }
        ensures fillers { (view self.new).fillers ≡ (view self.old).fillers }
        ensures firm { firm self.old ↔ firm self.new };

    /// Makes room for a blob of this length.
    fn room(&mut self, claim: Claim, len: u64) -> RoomReply
        requires holds { HoldsNewClaim (view self.old) claim.root }
        ensures event { MakesRoom claim len result (view self.old) (view self.new) }
        ensures kept { KeepsAtRoom result (kept self.old) (kept self.new) }
        ensures fillers { (view self.new).fillers ≡ (view self.old).fillers }
        ensures firm { firm self.old ↔ firm self.new };

    /// Takes the next bytes of a blob.
    fn put(&mut self, claim: Claim, bytes: &[u8]) -> PutReply
        requires holds { HoldsRoom (view self.old) claim.root }
        requires few { length bytes.now ≤ PIECE_LIMIT }
        ensures event { Puts claim result (view self.old) (view self.new) }
        ensures kept { KeepsAtPut (room_by (view self.old)) bytes.now result (kept self.old) (kept self.new) }
        ensures fillers { (view self.new).fillers ≡ (view self.old).fillers }
        ensures firm { firm self.old ↔ firm self.new };

    /// Stores a blob whose bytes are there.
    fn land(&mut self, claim: Claim) -> LandReply
        requires holds { HoldsRoom (view self.old) claim.root }
        ensures event { Lands claim (kept self.old) result (view self.old) (view self.new) }
        ensures kept { KeepsAtLand claim.root (room_by (view self.old)) result (kept self.old) (kept self.new) }
        ensures fillers { (view self.new).fillers ≡ (view self.old).fillers }
        ensures firm { firm self.old ↔ firm self.new };

    /// Ends a claim without its bytes.
    fn miss(&mut self, claim: Claim, why: Miss)
        requires holds { HoldsClaim (view self.old) claim.root }
        ensures event { Does (view self.old) (view self.new) (IsMissed claim.root why) }
        ensures kept { KeepsImages (kept self.old) (kept self.new) }
        ensures fillers { (view self.new).fillers ≡ (view self.old).fillers }
        ensures firm { firm self.old ↔ firm self.new };

    /// Ends a ticket.
    fn give_up(&mut self, ticket: Ticket)
        requires holds { HoldsTicket (view self.old) ticket }
        ensures event { Does (view self.old) (view self.new) (IsGivenUp ticket.number) }
        ensures kept { Keeps (kept self.old) (kept self.new) }
        ensures fillers { (view self.new).fillers ≡ (view self.old).fillers }
        ensures firm { firm self.old ↔ firm self.new };

    /// Opens a package that is here.
    fn open_path(&mut self, path: &PackagePath) -> OpenReply
        ensures event { Opens path.now result (view self.old) (view self.new) }
        ensures kept { Keeps (kept self.old) (kept self.new) }
        ensures fillers { (view self.new).fillers ≡ (view self.old).fillers }
        ensures firm { firm self.old ↔ firm self.new };

    /// Reads a file whole.
    fn read(&mut self, dir: Dir, file: &FilePath) -> ReadReply
        ensures event { Reads dir.number file.now result (view self.old) (view self.new) }
        ensures kept { Keeps (kept self.old) (kept self.new) }
        ensures fillers { (view self.new).fillers ≡ (view self.old).fillers }
        ensures firm { firm self.old ↔ firm self.new };

    /// Reads a file and tells its root.
    fn check(&mut self, dir: Dir, file: &FilePath) -> CheckReply
        ensures event { Checks dir.number file.now result (view self.old) (view self.new) }
        ensures kept { Keeps (kept self.old) (kept self.new) }
        ensures fillers { (view self.new).fillers ≡ (view self.old).fillers }
        ensures firm { firm self.old ↔ firm self.new };

    /// Closes a directory.
    fn close(&mut self, dir: Dir) -> CloseReply
        ensures event { Closes dir.number result (view self.old) (view self.new) }
        ensures kept { Keeps (kept self.old) (kept self.new) }
        ensures fillers { (view self.new).fillers ≡ (view self.old).fillers }
        ensures firm { firm self.old ↔ firm self.new };

    /// Removes what no protected package names.
    fn collect(&mut self) -> CollectReply
        ensures event { Collects result (view self.old) (view self.new) }
        ensures kept { Keeps (kept self.old) (kept self.new) }
        ensures fillers { (view self.new).fillers ≡ (view self.old).fillers }
        ensures firm { firm self.old ↔ firm self.new };

    /// Retains these packages and no others.
    fn retain(&mut self, roots: &[Root]) -> RetainReply
        requires few { length roots.now ≤ RETAIN_LIMIT }
        ensures event { Retains roots.now result (view self.old) (view self.new) }
        ensures kept { Keeps (kept self.old) (kept self.new) }
        ensures fillers { (view self.new).fillers ≡ (view self.old).fillers }
        ensures firm { firm self.old ↔ firm self.new };

    /// Begins an update to a system of this epoch.
    fn stage(&mut self, epoch: u64) -> StageReply
        ensures event { Stages epoch result (view self.old) (view self.new) }
        ensures kept { KeepsAtStage result (kept self.old) (kept self.new) }
        ensures fillers { (view self.new).fillers ≡ fillers_at_stage result (view self.old).fillers }
        ensures firm { firm self.old ↔ firm self.new };

    /// Copies the next part of a file into an image, at most 65,536 bytes.
    fn copy_part(&mut self, image: ImageKind, dir: Dir, file: &FilePath) -> CopyReply
        requires holds { HoldsStage (view self.old) Filling }
        ensures event { Copies image dir.number file.now result (view self.old) (view self.new) }
        ensures kept { KeepsAtCopy (state_of (view self.new)) (view self.old).lane image dir.number file.now
            result (view self.old).fillers (view self.new).fillers (kept self.old) (kept self.new) }
        ensures whole { firm self.old → IsWholeFile image result (view self.new).fillers (kept self.new) }
        ensures firm { firm self.old ↔ firm self.new };

    /// Ends the filling of the images, if they are those of this system.
    fn seal(&mut self, sys: &Sys) -> SealReply
        requires holds { HoldsStage (view self.old) Filling }
        ensures event { Seals sys.now result (view self.old) (view self.new) }
        ensures kept { KeepsAtSeal sys.now result (kept self.old) (kept self.new) }
        ensures fillers { (view self.new).fillers ≡ (view self.old).fillers }
        ensures firm { firm self.old ↔ firm self.new };

    /// Judges the sealed system, and has it boot next.
    fn activate(&mut self) -> ActivateReply
        requires holds { HoldsSealed (view self.old) }
        ensures event { Activates result (view self.old) (view self.new) }
        ensures kept { KeepsBlob (kept self.old) (kept self.new) }
        ensures fillers { (view self.new).fillers ≡ (view self.old).fillers }
        ensures firm { firm self.old ↔ firm self.new };

    /// Ends the update.
    fn leave_stage(&mut self)
        requires holds { HoldsAnyStage (view self.old) }
        ensures event { Does (view self.old) (view self.new) HasLeftStage }
        ensures kept { KeepsBlob (kept self.old) (kept self.new) }
        ensures fillers { (view self.new).fillers ≡ (view self.old).fillers }
        ensures firm { firm self.old ↔ firm self.new };

    /// Has the running system stay.
    fn commit(&mut self) -> CommitReply
        ensures event { Commits result (view self.old) (view self.new) }
        ensures kept { Keeps (kept self.old) (kept self.new) }
        ensures fillers { (view self.new).fillers ≡ (view self.old).fillers }
        ensures firm { firm self.old ↔ firm self.new };

    /// Notes that a manifest of an update is bad.
    fn reject(&mut self, file: ManifestFile, why: ManifestFault) -> RejectReply
        ensures event { Rejects file why result (view self.old) (view self.new) }
        ensures kept { Keeps (kept self.old) (kept self.new) }
        ensures fillers { (view self.new).fillers ≡ (view self.old).fillers }
        ensures firm { firm self.old ↔ firm self.new };

    /// Waits until the bell has another number.
    fn pause(&mut self, bell: u64)
        ensures none { Rests (view self.old) (view self.new) }
        ensures kept { Keeps (kept self.old) (kept self.new) }
        ensures fillers { (view self.new).fillers ≡ (view self.old).fillers }
        ensures firm { firm self.old ↔ firm self.new };
}
