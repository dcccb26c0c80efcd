//! Laws of what a lane holds after a call. Each function has an empty body: its contract is the law.

ghost use Rattle.std.specs.Prelude.{◌≡◌, ◌≢◌, ℕ, List, Some, None};
ghost use Rattle.image_layout.specs.declared.ImageKind.{ImageKind};
ghost use Rattle.image_layout.specs.declared.Sys.{Sys};
ghost use Rattle.package_indexes.specs.declared.Choice.{Choice};
ghost use Rattle.pkg_names.specs.NameAndVariant.{NameAndVariant};
ghost use Rattle.pkg_names.specs.declared.root.Root.{Root};
ghost use Rattle.open_tracker.specs.Directories.{root_of};
ghost use Rattle.system_lists.specs.declared.fault.ManifestFile.{ManifestFile};
ghost use Rattle.system_lists.specs.declared.fault.ManifestFault.{ManifestFault};
ghost use Rattle.store_model.specs.declared.ends.Miss.{Miss};
ghost use Rattle.store_model.specs.declared.replies.Ticket.{Ticket};
ghost use Rattle.store_model.specs.declared.replies.Claim.{Claim};
ghost use Rattle.store_model.specs.declared.replies.Dir.{Dir};
ghost use Rattle.store_model.specs.declared.replies.BeginReply.{BeginReply};
ghost use Rattle.store_model.specs.declared.replies.BeginReply.TheVariants as begin;
ghost use Rattle.store_model.specs.declared.replies.WantReply.{WantReply};
ghost use Rattle.store_model.specs.declared.replies.WantReply.TheVariants as want;
ghost use Rattle.store_model.specs.declared.replies.RoomReply.{RoomReply};
ghost use Rattle.store_model.specs.declared.replies.PutReply.{PutReply};
ghost use Rattle.store_model.specs.declared.replies.LandReply.{LandReply};
ghost use Rattle.store_model.specs.declared.replies.OpenReply.{OpenReply};
ghost use Rattle.store_model.specs.declared.replies.OpenReply.TheVariants as opening;
ghost use Rattle.store_model.specs.declared.replies.ReadReply.{ReadReply};
ghost use Rattle.store_model.specs.declared.replies.CheckReply.{CheckReply};
ghost use Rattle.store_model.specs.declared.replies.CloseReply.{CloseReply};
ghost use Rattle.store_model.specs.declared.replies.CollectReply.{CollectReply};
ghost use Rattle.store_model.specs.declared.replies.RetainReply.{RetainReply};
ghost use Rattle.store_model.specs.declared.replies.StageReply.{StageReply};
ghost use Rattle.store_model.specs.declared.replies.CopyReply.{CopyReply};
ghost use Rattle.store_model.specs.declared.replies.SealReply.{SealReply};
ghost use Rattle.store_model.specs.declared.replies.ActivateReply.{ActivateReply};
ghost use Rattle.store_model.specs.declared.replies.CommitReply.{CommitReply};
ghost use Rattle.store_model.specs.declared.replies.RejectReply.{RejectReply};
ghost use Rattle.store_model.specs.HeldAfter.{held_after_begin, held_after_want, held_after_room, held_after_put, held_after_land, IsHeldAfterOpen, held_after_close, held_after_stage, held_after_seal, held_after_activate, without_ticket, without_claim};
ghost use Rattle.store_model.specs.Desk.{View, held_by, Does, Rests};
ghost use Rattle.store_model.specs.Replies.{IsLanded, IsMissed, IsGivenUp, HasLeftStage};
ghost use Rattle.store_model.specs.Calls.{HoldsTicket, Begins, Wants, MakesRoom, Puts, Opens, Reads, Checks, Closes, Collects, Retains, Stages, Copies, Seals, Activates, Commits, Rejects};

/// Tickets and claims after each call, by its reply and what the lane held before.
pub fn calls_change_tickets_and_claims()
    ensures begin { (path : NameAndVariant) (choice : Choice) (reply : BeginReply) (old new : View)
        → Begins path choice reply old new → held_by new ≡ held_after_begin path reply (held_by old) }
    ensures want { (ticket : Ticket) (reply : WantReply) (old new : View) → Wants ticket reply old new
        → held_by new ≡ held_after_want old.lane ticket.number reply (held_by old) }
    ensures room { (claim : Claim) (len : ℕ) (reply : RoomReply) (old new : View)
        → MakesRoom claim len reply old new → held_by new ≡ held_after_room len reply (held_by old) }
    ensures put { (claim : Claim) (reply : PutReply) (old new : View) → Puts claim reply old new
        → held_by new ≡ held_after_put reply (held_by old) }
    ensures land { (root : Root) (len : ℕ) (reply : LandReply) (old new : View)
        → Does old new (IsLanded root len reply) → held_by new ≡ held_after_land reply (held_by old) }
    ensures miss { (root : Root) (why : Miss) (old new : View) → Does old new (IsMissed root why)
        → held_by new ≡ without_claim (held_by old) }
    ensures give_up { (number : ℕ) (old new : View) → Does old new (IsGivenUp number)
        → held_by new ≡ without_ticket number (held_by old) }
{}

/// Directories and updates after each call, by its reply and what the lane held before.
pub fn calls_change_directories_and_stages()
    ensures open_path { (path : NameAndVariant) (reply : OpenReply) (old new : View) → Opens path reply old new
        → IsHeldAfterOpen old.lane reply (held_by old) (held_by new) }
    ensures close { (dir : ℕ) (reply : CloseReply) (old new : View) → Closes dir reply old new
        → held_by new ≡ held_after_close old.lane dir reply (held_by old) }
    ensures stage { (epoch : ℕ) (reply : StageReply) (old new : View) → Stages epoch reply old new
        → held_by new ≡ held_after_stage reply (held_by old) }
    ensures seal { (sys : Sys) (reply : SealReply) (old new : View) → Seals sys reply old new
        → held_by new ≡ held_after_seal sys reply (held_by old) }
    ensures activate { (reply : ActivateReply) (old new : View) → Activates reply old new
        → held_by new ≡ held_after_activate reply (held_by old) }
    ensures leave_stage { (old new : View) → Does old new HasLeftStage
        → held_by new ≡ record (held_by old) { stage = None } }
{}

/// The other calls leave what the lane holds.
pub fn other_calls_keep_what_is_held()
    ensures read { (dir : ℕ) (file : List ℕ) (reply : ReadReply) (old new : View) → Reads dir file reply old new
        → held_by new ≡ held_by old }
    ensures check { (dir : ℕ) (file : List ℕ) (reply : CheckReply) (old new : View)
        → Checks dir file reply old new → held_by new ≡ held_by old }
    ensures collect { (reply : CollectReply) (old new : View) → Collects reply old new → held_by new ≡ held_by old }
    ensures retain { (roots : List Root) (reply : RetainReply) (old new : View) → Retains roots reply old new
        → held_by new ≡ held_by old }
    ensures copy { (image : ImageKind) (dir : ℕ) (file : List ℕ) (reply : CopyReply) (old new : View)
        → Copies image dir file reply old new → held_by new ≡ held_by old }
    ensures commit { (reply : CommitReply) (old new : View) → Commits reply old new → held_by new ≡ held_by old }
    ensures reject { (file : ManifestFile) (why : ManifestFault) (reply : RejectReply) (old new : View)
        → Rejects file why reply old new → held_by new ≡ held_by old }
    ensures pause { (old new : View) → Rests old new → held_by new ≡ held_by old }
{}

/// A ticket that was made is held, and a directory that was opened is open for its package.
pub fn calls_give_handles()
    ensures ticket { (path : NameAndVariant) (choice : Choice) (ticket : Ticket) (old new : View)
        → Begins path choice (begin.Made ticket) old new → HoldsTicket new ticket }
    ensures dir { (ticket : Ticket) (dir : Dir) (old new : View) → Wants ticket (want.Opened dir) old new
        → HoldsTicket old ticket → root_of (held_by new).dirs dir.number old.lane ≡ Some ticket.root }
    ensures path { (path : NameAndVariant) (dir : Dir) (old new : View) → Opens path (opening.Opened dir) old new
        → (root : Root) × (root_of (held_by new).dirs dir.number old.lane ≡ Some root) }
{}
