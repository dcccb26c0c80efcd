//! What holds after each legal history, each the contract of a function that does nothing.

ghost use Rattle.std.specs.Prelude.{◌≡◌, ℕ, ◌+◌, ◌++◌, true, false, List, length, Some, None, IfSome};
ghost use Rattle.store_model.specs.declared.events.Event.{Event as EventOf};
ghost use Rattle.pkg_names.specs.declared.root.Root.{Root as RootOf};
ghost use Rattle.open_tracker.specs.Directories.{root_of};
ghost use Rattle.package_book.specs.Names.{names};
ghost use Rattle.store_model.specs.Files.{found};
ghost use Rattle.store_model.specs.Files.Found.{Outer};
ghost use Rattle.store_model.specs.State.{Standing, Stage, State, durable, has_root, is_committed, is_other_bootable, is_stored, opened, protected_in, stored_len};
ghost use Rattle.store_model.specs.Step.{IsDue, meant, step};
ghost use Rattle.store_model.specs.History.{Origin, IsLegal, after};
ghost use Rattle.store_model.specs.History.Beginning.{Lasted};
ghost use Rattle.image_layout.specs.declared.geometry.Geometry.{Geometry as GeometryOf};
ghost use Rattle.store_model.specs.Sound.{AreComplete, IsActivated, IsInPhase, IsInRoom, IsSound, IsStanding, IsWellFormed, KnowsExactly, RunsItsSystem, IsSameFile};

/// All that is stored or has room fits: its length is allowed, and there are pages and entries for it.
pub fn stock_and_claims_stay_in_room()
    ensures { (origin : Origin) (history : List EventOf) → IsWellFormed origin → IsLegal origin history
        → IsInRoom origin.geometry (after origin history).stock (after origin history).claims }
{}

/// What lasts after each legal history can begin again, also what a call meant whose write failed; and
/// what begins is what lasted.
pub fn what_lasts_can_begin()
    ensures lasts { (origin : Origin) (history : List EventOf) → IsWellFormed origin → IsLegal origin history
        → IsStanding origin.geometry (durable (after origin history)) }
    ensures meant { (origin : Origin) (history : List EventOf) (e : EventOf) → IsWellFormed origin
        → IsLegal origin history → IsDue (after origin history) (length history + 1) e → e.broke ≡ true
        → IsStanding origin.geometry (meant (after origin history) (length history + 1) e.lane e.act) }
    ensures begins { (g : GeometryOf) (d : Standing) → IsStanding g d → durable (opened g d) ≡ d }
{}

/// After each legal history the books know each protected package that is stored, and no other.
pub fn books_know_what_is_protected()
    ensures { (origin : Origin) (history : List EventOf) → IsLegal origin history
        → KnowsExactly (after origin history).books (protected_in (after origin history)) (after origin history).stock }
{}

/// After each legal history all blobs of each package of the base, of each active and of each open one
/// are stored, whatever was collected.
pub fn packages_stay_complete()
    ensures { (origin : Origin) (history : List EventOf) → IsLegal origin history
        → AreComplete (after origin history) }
{}

/// What a protected package names stays stored, with its length, whatever event is due.
pub fn named_blobs_stay()
    ensures { (s : State) (number : ℕ) (e : EventOf) → IsDue s number e → (top root : RootOf) (len : ℕ)
        → has_root (protected_in s) top ≡ true → has_root (names top s.books) root ≡ true
        → stored_len s.stock root ≡ Some len → stored_len (step s number e).stock root ≡ Some len }
{}

/// A file of an open package that is a blob of its own is stored. All files of a directory that stays open
/// stay as they are.
pub fn open_files_stay()
    ensures there { (origin : Origin) (history : List EventOf) → IsLegal origin history
        → (lane dir : ℕ) (file : List ℕ) (root : RootOf) → found (after origin history) lane dir file ≡ Outer root
        → is_stored (after origin history).stock root ≡ true }
    ensures same { (origin : Origin) (history : List EventOf) (e : EventOf) → IsLegal origin history
        → IsDue (after origin history) (length history + 1) e → (lane dir : ℕ) (top : RootOf)
        → root_of (after origin history).dirs dir lane ≡ Some top
        → root_of (step (after origin history) (length history + 1) e).dirs dir lane ≡ Some top → (file : List ℕ)
        → IsSameFile (after origin history) (step (after origin history) (length history + 1) e) lane dir file }
{}

/// After each legal history, what an update is about to fill or has sealed can't be booted, and what it has
/// activated can; the running system has succeeded, and the packages of the other's base are retained and
/// complete.
pub fn updates_stay_safe()
    ensures stage { (origin : Origin) (history : List EventOf) → IsLegal origin history
        → IfSome (after origin history).stage (λ (stage : Stage). IsInPhase (after origin history) stage.phase) }
    ensures staged { (origin : Origin) (history : List EventOf) → IsLegal origin history
        → IfSome (after origin history).staged (IsActivated (after origin history)) }
{}

/// While the other slot can be booted, what its system needs stays: where no update has activated it, the
/// running system isn't to stay yet, and then no blob goes; where one has, its packages are retained and
/// complete, as `updates_stay_safe` says.
pub fn other_slot_keeps_its_blobs()
    ensures pending { (s : State) → is_other_bootable s.abr s.running ≡ true → s.staged ≡ None
        → is_committed s ≡ false }
    ensures stays { (s : State) (number : ℕ) (e : EventOf) → IsDue s number e → is_committed s ≡ false
        → (root : RootOf) (len : ℕ) → stored_len s.stock root ≡ Some len
        → stored_len (step s number e).stock root ≡ Some len }
{}

/// Once the boot is over, the same slot runs. After a boot of A or B its base is that of the slot's system.
pub fn running_system_stays()
    ensures slot { (origin : Origin) (history more : List EventOf) → IsLegal origin (history ++ more)
        → (after origin history).booted ≡ true
        → (after origin (history ++ more)).running ≡ (after origin history).running }
    ensures base { (g : GeometryOf) (d : Standing) (history : List EventOf)
        → IsLegal (record { geometry = g; beginning = Lasted d }) history
        → RunsItsSystem (after (record { geometry = g; beginning = Lasted d }) history) }
{}

/// The state after each legal history is sound, the empty one and those in which a write failed included.
pub fn histories_are_sound()
    ensures { (origin : Origin) (history : List EventOf) → IsWellFormed origin → IsLegal origin history
        → IsSound (after origin history) }
{}
