//! Laws of slots whose systems are whole.

ghost use Rattle.std.specs.Prelude.{◌≡◌, ◌↔◌, List};
ghost use Rattle.abr_record.specs.Boot.{boot_slot};
ghost use Rattle.pkg_names.specs.declared.root.Root.{Root as RootOf};
ghost use Rattle.disk_model.specs.Past.{Pages};
ghost use Rattle.slot_disk.specs.Slots.{SlotsView};
ghost use Rattle.boot_core.specs.declared.looking.SeenBlob.{SeenBlob as SeenBlobOf};
ghost use Rattle.pkg_names.specs.declared.pinned.Pinned.{Pinned as PinnedOf};
ghost use Rattle.system_lists.specs.Judging.{judged};
ghost use Rattle.system_lists.specs.Judging.Verdict.{Whole};
ghost use Rattle.boot_core.specs.Look.{stock_of};
ghost use Rattle.boot_core.specs.Seen.{hand_of};
ghost use Rattle.boot_core.specs.Complete.{IsCompleteSystem};
ghost use Rattle.boot_core.specs.Slots.{HasWholeSlots, IsRecoveryOrWhole};

/// The slot that an image boots is recovery with good pages, or is whole, where each of A and B is whole
/// that can be booted.
pub fn booted_slots_are_whole()
    ensures { (slots : SlotsView) (all : List SeenBlobOf) (image : Pages) → HasWholeSlots slots all image
        → IsRecoveryOrWhole slots all (boot_slot slots.boot) image }
{}

/// A system is judged to be whole exactly where it is complete: its package is, and lists the static list,
/// which says the packages of the base, each of which is complete; and the cached list says the cached set.
pub fn whole_systems_are_complete()
    ensures { (all : List SeenBlobOf) (system : RootOf) (base cached : List PinnedOf)
        → (judged (hand_of all (stock_of all)) system ≡ Whole base cached)
        ↔ IsCompleteSystem all system base cached }
{}
