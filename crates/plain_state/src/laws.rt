//! Laws of the books. Each function has an empty body: its contract is the law.

ghost use Rattle.std.specs.Prelude.{◌≡◌, ℕ, Bool, List, [], Some, None};
ghost use Rattle.abr_record.specs.declared.Slot.{Slot as SlotOf};
ghost use Rattle.fetch_queue.specs.declared.FetchEnd.{FetchEnd as FetchEndOf};
ghost use Rattle.image_layout.specs.declared.Sys.{Sys as SysOf};
ghost use Rattle.pkg_names.specs.NameAndVariant.{NameAndVariant};
ghost use Rattle.pkg_names.specs.declared.root.Root.{Root as RootOf};
ghost use Rattle.store_model.specs.History.{Origin, IsLegal, after};
ghost use Rattle.store_model.specs.Mirrors.{Mirrors};
ghost use Rattle.store_model.specs.Packages.{rest};
ghost use Rattle.store_model.specs.State.{State as StateOf, arrival_of};
ghost use Rattle.store_model.specs.declared.ends.WantEnd.TheVariants as wants;
ghost use Rattle.store_model.specs.declared.events.Event.{Event as EventOf};
ghost use Rattle.store_model.specs.Acts.Want.{next_want};
ghost use Rattle.store_model.specs.Acts.Marking.{ended, unclaimed};
ghost use Rattle.store_model.specs.Acts.Room.{next_room};
ghost use Rattle.store_model.specs.Acts.OpenPath.{root_to_open, next_open_path};
ghost use Rattle.store_model.specs.Acts.Collect.{next_collect};
ghost use Rattle.store_model.specs.Acts.Stage.{staging};
ghost use Rattle.store_model.specs.Acts.Seal.{next_seal};
ghost use Rattle.store_model.specs.Acts.LeftStage.{next_left_stage};
ghost use Rattle.store_model.specs.Acts.Commit.{next_commit};
ghost use Rattle.plain_state.specs.Learning.{Forgets, IsReady, IsSettled, replaced_by};

/// A store that mirrors the model's state can rest its calls on it.
pub fn stores_are_ready()
    ensures { (origin : Origin) (history : List EventOf) (t : StateOf)
        → IsLegal origin history → Mirrors (after origin history) t → IsReady t }
{}

/// Acts that leave the stock and the protected packages leave nothing to learn, and nothing to forget.
pub fn still_acts_are_settled()
    ensures nothing { (t : StateOf) → IsReady t → IsSettled [] t t }
    ensures granted { (t : StateOf) (number lane ticket : ℕ) (root : RootOf) → IsReady t
        → IsSettled [] (next_want t number lane ticket (wants.Fetch root))
        (next_want t number lane ticket (wants.Fetch root)) }
    ensures room { (t : StateOf) (root : RootOf) (len : ℕ) → IsReady t
        → IsSettled [] (next_room t root len None) (next_room t root len None) }
    ensures unclaimed { (t : StateOf) (root : RootOf) → IsReady t → IsSettled [] (unclaimed t root) (unclaimed t root) }
    ensures ended { (t : StateOf) (root : RootOf) (end : FetchEndOf) → IsReady t
        → IsSettled [] (ended t root end) (ended t root end) }
    ensures opened { (t : StateOf) (number lane : ℕ) (path : NameAndVariant) (root : RootOf) → IsReady t
        → root_to_open t path ≡ Some root
        → IsSettled [] (next_open_path t number lane (Some root)) (next_open_path t number lane (Some root)) }
    ensures staged { (t : StateOf) (lane : ℕ) (slot : SlotOf) → IsReady t
        → IsSettled [] (staging t lane slot) (staging t lane slot) }
    ensures sealed { (t : StateOf) (lane : ℕ) (sys : SysOf) → IsReady t
        → IsSettled [] (next_seal t lane sys None) (next_seal t lane sys None) }
    ensures left { (t : StateOf) → IsReady t → IsSettled [] (next_left_stage t) (next_left_stage t) }
    ensures committed { (t : StateOf) (done : Bool) → IsReady t
        → IsSettled [] (next_commit t done) (next_commit t done) }
{}

/// A collection of what is unprotected leaves nothing to learn, and nothing to forget.
pub fn collections_are_settled()
    ensures { (t : StateOf) → IsReady t
        → IsSettled [] (next_collect t (Some (rest t))) (next_collect t (Some (rest t))) }
{}

/// Where a package is opened, the one that it replaces under its path is to be forgotten.
pub fn openings_are_settled()
    ensures { (t : StateOf) (number lane ticket : ℕ) (new : StateOf) → IsReady t
        → Forgets (replaced_by t (arrival_of t.arriving ticket)) (next_want t number lane ticket wants.Opened) new
        → IsSettled [] (next_want t number lane ticket wants.Opened) new }
{}
