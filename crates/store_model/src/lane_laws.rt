//! The laws on lanes, claims, marks, collections and what lasts, each the contract of a function that does
//! nothing.

ghost use Rattle.std.specs.Prelude.{◌≡◌, ◌≢◌, ◌↔◌, ℕ, ◌+◌, ◌++◌, List, length, filter, Bool, true, false, Option, Some, None, Contains, if◌then◌else◌};
ghost use Rattle.pkg_names.specs.NameAndVariant.{NameAndVariant};
ghost use Rattle.pkg_names.specs.declared.root.Root.{Root};
ghost use Rattle.fetch_queue.specs.declared.FetchEnd.{FetchEnd};
ghost use Rattle.fetch_queue.specs.declared.queue.ClaimEntry.{ClaimEntry};
ghost use Rattle.open_tracker.specs.Directories.{root_of};
ghost use Rattle.package_indexes.specs.Indexes.{root_at};
ghost use Rattle.package_book.specs.Names.{names};
ghost use Rattle.store_model.specs.declared.events.Event.{Event as EventOf};
ghost use Rattle.store_model.specs.declared.events.Act.TheVariants as acts;
ghost use Rattle.store_model.specs.declared.ends.WantEnd.{WantEnd as WantEndOf};
ghost use Rattle.store_model.specs.declared.ends.WantEnd.TheVariants as wants;
ghost use Rattle.store_model.specs.declared.events.CallName.{CallName as CallNameOf};
ghost use Rattle.store_model.specs.State.{State, Arrival, arrival_of, claim_of, holds_claim, durable, stored_len, stock_roots, has_root, is_stored, without_blobs, protected_in, is_committed};
ghost use Rattle.store_model.specs.Packages.{rest};
ghost use Rattle.store_model.specs.Settling.{KnowsAll};
ghost use Rattle.store_model.specs.Acts.GaveUp.{IsTicketOf};
ghost use Rattle.store_model.specs.Acts.OpenPath.{root_to_open};
ghost use Rattle.store_model.specs.Acts.Want.{IsDueWant};
ghost use Rattle.store_model.specs.Quiet.{IsQuiet};
ghost use Rattle.store_model.specs.Step.{IsDue, step, meant, is_end};
ghost use Rattle.store_model.specs.History.{Origin, start, IsLegal, after};
ghost use Rattle.store_model.specs.Lanes.{HoldsSame, BrokeIn, StandOnce, AreBlobs, IsGranted, ends_claim_of, after_room, can_change_what_lasts, told, after_told, Marks};

/// What lasts changes only when the store boots, a blob lands, a collection removes blobs, an update begins, a
/// system is made active, and one is committed. A call in which a write failed changes nothing of it; what it
/// was to leave is what the event leaves in which none failed.
pub fn what_lasts_changes_at_few_acts()
    ensures same { (s : State) (number : ℕ) (e : EventOf) → can_change_what_lasts e ≡ false
        → durable (step s number e) ≡ durable s }
    ensures meant { (s : State) (number : ℕ) (e : EventOf) → e.broke ≡ false
        → meant s number e.lane e.act ≡ durable (step s number e) }
{}

/// The first write that fails is noted by the number of its event, and stays noted. What comes after it are
/// ends and refusals, none of which writes, and a refusal names that number.
pub fn broken_stays()
    ensures before { (s : State) (number : ℕ) (e : EventOf) → IsDue s number e → e.broke ≡ true → s.broken ≡ None }
    ensures noted { (s : State) (number : ℕ) (e : EventOf) → IsDue s number e → e.broke ≡ true
        → (step s number e).broken ≡ Some number }
    ensures only { (s : State) (number : ℕ) (e : EventOf) → IsDue s number e → e.broke ≡ false
        → (step s number e).broken ≡ s.broken }
    ensures stays { (s : State) (number first : ℕ) (e : EventOf) → IsDue s number e → s.broken ≡ Some first
        → (step s number e).broken ≡ Some first }
    ensures ends { (s : State) (number first : ℕ) (e : EventOf) → IsDue s number e → s.broken ≡ Some first
        → is_end e.act ≡ true }
    ensures refused { (s : State) (number : ℕ) (e : EventOf) (call : CallNameOf) (named : ℕ) → IsDue s number e
        → e.act ≡ acts.Refused call named → s.broken ≡ Some named }
    ensures history { (origin : Origin) (history more : List EventOf) (first : ℕ) → IsLegal origin (history ++ more)
        → (after origin history).broken ≡ Some first → (after origin (history ++ more)).broken ≡ Some first }
    ensures broke { (origin : Origin) (history : List EventOf) (first : ℕ) → IsLegal origin history
        → (after origin history).broken ≡ Some first → BrokeIn history first }
{}

/// A collection is answered by the blobs that no protected package names, in the order of the stock, where the
/// running system is to stay, and by nothing else. They and no others are gone after it.
pub fn collections_remove_the_rest()
    ensures answer { (s : State) (number : ℕ) (e : EventOf) (reply : Option (List Root)) → IsDue s number e
        → e.act ≡ acts.Collect reply → reply ≡ (if is_committed s then Some (rest s) else None) }
    ensures rest { (s : State) (root : Root) → Contains (rest s) root ↔ (Contains (stock_roots s.stock) root
        × ((top : Root) → Contains (protected_in s) top → ¬ Contains (names top s.books) root)) }
    ensures order { (s : State) → (goes : Root → Bool) × (rest s ≡ filter goes (stock_roots s.stock)) }
    ensures stock { (s : State) (number : ℕ) (e : EventOf) (roots : List Root) → e.act ≡ acts.Collect (Some roots)
        → e.broke ≡ false → (step s number e).stock ≡ without_blobs s.stock roots }
    ensures gone { (s : State) (number : ℕ) (e : EventOf) (roots : List Root) (root : Root)
        → e.act ≡ acts.Collect (Some roots) → e.broke ≡ false
        → stored_len (step s number e).stock root ≡ (if has_root roots root then None else stored_len s.stock root) }
    ensures none { (s : State) (number : ℕ) (e : EventOf) → e.act ≡ acts.Collect None
        → (step s number e).stock ≡ s.stock }
    ensures broke { (s : State) (number : ℕ) (e : EventOf) → e.broke ≡ true → (step s number e).stock ≡ s.stock }
{}

/// No collection takes a blob of a package that arrives, is open or retained, or that a path would open.
pub fn collections_spare_what_is_held()
    ensures arriving { (s : State) (number : ℕ) (e : EventOf) (roots : List Root) (ticket : ℕ)
        (arrival : Arrival) (root : Root) → IsDue s number e → e.act ≡ acts.Collect (Some roots)
        → arrival_of s.arriving ticket ≡ Some arrival → Contains (names arrival.root s.books) root
        → ¬ Contains roots root }
    ensures dir { (s : State) (number : ℕ) (e : EventOf) (roots : List Root) (dir lane : ℕ) (top root : Root)
        → IsDue s number e → e.act ≡ acts.Collect (Some roots) → root_of s.dirs dir lane ≡ Some top
        → Contains (names top s.books) root → ¬ Contains roots root }
    ensures retained { (s : State) (number : ℕ) (e : EventOf) (roots : List Root) (top root : Root)
        → IsDue s number e → e.act ≡ acts.Collect (Some roots) → Contains s.retained top
        → Contains (names top s.books) root → ¬ Contains roots root }
    ensures path { (s : State) (number : ℕ) (e : EventOf) (roots : List Root) (path : NameAndVariant)
        (top root : Root) → IsDue s number e → e.act ≡ acts.Collect (Some roots) → root_to_open s path ≡ Some top
        → Contains (names top s.books) root → ¬ Contains roots root }
{}

/// A ticket's mark is how the first fetch of one of its blobs ended that ended without the blob: it comes from an
/// event that tells such an end, of a blob that the ticket's package names, and stays. All else of a ticket
/// stays as long as the ticket does.
pub fn marks_come_from_ends()
    ensures each { (s : State) (number : ℕ) (e : EventOf) (ticket : ℕ) (old new : Arrival)
        → arrival_of s.arriving ticket ≡ Some old → arrival_of (step s number e).arriving ticket ≡ Some new
        → new ≡ after_told s.books (told e) old }
    ensures first { (s : State) (number : ℕ) (e : EventOf) (ticket : ℕ) (old new : Arrival) (end : FetchEnd)
        → arrival_of s.arriving ticket ≡ Some old → arrival_of (step s number e).arriving ticket ≡ Some new
        → old.mark ≡ Some end → new.mark ≡ Some end }
    ensures new { (s : State) (number : ℕ) (e : EventOf) (ticket : ℕ) (old new : Arrival) (end : FetchEnd)
        → arrival_of s.arriving ticket ≡ Some old → arrival_of (step s number e).arriving ticket ≡ Some new
        → old.mark ≡ None → new.mark ≡ Some end → Marks s.books e old.root end }
    ensures unmarked { (s : State) (number : ℕ) (e : EventOf) (ticket : ℕ) (new : Arrival)
        → arrival_of s.arriving ticket ≡ None → arrival_of (step s number e).arriving ticket ≡ Some new
        → new.mark ≡ None }
{}

/// A blob is granted to one lane at a time, and only while nobody has it. A claim stays as it is, but for its
/// room, until an event ends it, and is gone after that. After each legal history no root is claimed twice, no
/// claimed root is stored, a lane has one claim at most, and no ticket and no directory stands twice. Where the
/// store begins with no root twice, none is ever stored twice.
pub fn claims_are_granted_once()
    ensures granted { (s : State) (number : ℕ) (e : EventOf) (ticket : ℕ) (root : Root) → IsDue s number e
        → e.act ≡ acts.Want ticket (wants.Fetch root) → IsGranted s e.lane ticket root }
    ensures made { (s : State) (number : ℕ) (e : EventOf) (ticket : ℕ) (root : Root) → IsDue s number e
        → e.act ≡ acts.Want ticket (wants.Fetch root)
        → claim_of (step s number e).claims root ≡ Some (record { root = root; lane = e.lane; len = None }) }
    ensures stays { (s : State) (number : ℕ) (e : EventOf) (root : Root) (claim : ClaimEntry)
        → claim_of s.claims root ≡ Some claim → ends_claim_of e ≢ Some root
        → claim_of (step s number e).claims root ≡ Some (after_room e claim) }
    ensures ends { (s : State) (number : ℕ) (e : EventOf) (root : Root) → ends_claim_of e ≡ Some root
        → claim_of (step s number e).claims root ≡ None }
    ensures event { (s : State) (number : ℕ) (e : EventOf) → IsDue s number e → StandOnce s number
        → StandOnce (step s number e) (number + 1) }
    ensures history { (origin : Origin) (history : List EventOf) → IsLegal origin history
        → StandOnce (after origin history) (length history + 1) }
    ensures stored { (origin : Origin) (history : List EventOf) → AreBlobs (start origin).stock
        → IsLegal origin history → AreBlobs (after origin history).stock }
{}

/// An event of one lane leaves what another holds: its claim with its room, its tickets but for their marks, its
/// directories, and its update. So what another lane holds is looked up as before; a ticket's mark is as the
/// event tells.
pub fn lanes_leave_each_other_alone()
    ensures event { (s : State) (number : ℕ) (e : EventOf) (lane : ℕ) → StandOnce s number → IsDue s number e
        → e.lane ≢ lane → HoldsSame lane s (step s number e) }
    ensures history { (origin : Origin) (history : List EventOf) (e : EventOf) (lane : ℕ) → IsLegal origin history
        → IsDue (after origin history) (length history + 1) e → e.lane ≢ lane
        → HoldsSame lane (after origin history) (step (after origin history) (length history + 1) e) }
    ensures claim { (s : State) (number : ℕ) (e : EventOf) (root : Root) (claim : ClaimEntry) → StandOnce s number
        → IsDue s number e → claim_of s.claims root ≡ Some claim → e.lane ≢ claim.lane
        → claim_of (step s number e).claims root ≡ Some claim }
    ensures ticket { (s : State) (number : ℕ) (e : EventOf) (ticket : ℕ) (arrival : Arrival) → StandOnce s number
        → IsDue s number e → arrival_of s.arriving ticket ≡ Some arrival → e.lane ≢ arrival.lane
        → arrival_of (step s number e).arriving ticket ≡ Some (after_told s.books (told e) arrival) }
    ensures dir { (s : State) (number : ℕ) (e : EventOf) (dir lane : ℕ) → StandOnce s number → IsDue s number e
        → e.lane ≢ lane → root_of (step s number e).dirs dir lane ≡ root_of s.dirs dir lane }
{}

/// A lane that fetches nothing waits for what is missing exactly where it is quiet: after a legal history, if no
/// write has failed, no answer to its ticket is due just where some blob is missing and another lane fetches each
/// that is. The books know each protected package that is stored, so one whose blobs are there is never waited for.
pub fn lanes_wait_where_it_is_quiet()
    ensures known { (origin : Origin) (history : List EventOf) → IsLegal origin history
        → let s = after origin history in KnowsAll s.books (protected_in s) s.stock }
    ensures history { (origin : Origin) (history : List EventOf) (lane ticket : ℕ) → IsLegal origin history
        → let s = after origin history in s.booted ≡ true → s.broken ≡ None → IsTicketOf s lane ticket
        → holds_claim s.claims lane ≡ false
        → IsQuiet s lane ticket ↔ ((reply : WantEndOf) → ¬ IsDue s (length history + 1) (record {
          lane = lane;
          act = acts.Want ticket reply;
          broke = false;
        })) }
{}

/// A package that was asked for is opened once all its blobs are stored. It is open under the event's number, and
/// active under its path from then on, unless the path is in the base. Nothing else becomes active.
pub fn whole_packages_are_opened()
    ensures whole { (s : State) (number : ℕ) (e : EventOf) (ticket : ℕ) (arrival : Arrival) (root : Root)
        → IsDue s number e → e.act ≡ acts.Want ticket wants.Opened → arrival_of s.arriving ticket ≡ Some arrival
        → Contains (names arrival.root s.books) root → is_stored s.stock root ≡ true }
    ensures dir { (s : State) (number : ℕ) (e : EventOf) (ticket : ℕ) (arrival : Arrival) → StandOnce s number
        → IsDue s number e → e.act ≡ acts.Want ticket wants.Opened → arrival_of s.arriving ticket ≡ Some arrival
        → root_of (step s number e).dirs number e.lane ≡ Some arrival.root }
    ensures active { (s : State) (number : ℕ) (e : EventOf) (ticket : ℕ) (arrival : Arrival) → IsDue s number e
        → e.act ≡ acts.Want ticket wants.Opened → arrival_of s.arriving ticket ≡ Some arrival
        → root_at s.base arrival.path ≡ None → root_at (step s number e).active arrival.path ≡ Some arrival.root }
    ensures base { (s : State) (number : ℕ) (e : EventOf) (ticket : ℕ) (arrival : Arrival) (root : Root)
        → IsDue s number e → e.act ≡ acts.Want ticket wants.Opened → arrival_of s.arriving ticket ≡ Some arrival
        → root_at s.base arrival.path ≡ Some root → (step s number e).active ≡ s.active }
    ensures others { (s : State) (number : ℕ) (e : EventOf) (ticket : ℕ) (arrival : Arrival) (other : NameAndVariant)
        → IsDue s number e → e.act ≡ acts.Want ticket wants.Opened → arrival_of s.arriving ticket ≡ Some arrival
        → arrival.path ≢ other → root_at (step s number e).active other ≡ root_at s.active other }
{}
