//! What a run of an update is, in other words. The contract of each function is the law, and its body does nothing.

ghost use Rattle.std.specs.Prelude.{List, Option};
ghost use Rattle.abr_record.specs.declared.Slot.{Slot as SlotOf};
ghost use Rattle.pkg_names.specs.NameAndVariant.{NameAndVariant};
ghost use Rattle.pkg_names.specs.declared.root.Root.{Root};
ghost use Rattle.store_model.specs.Desk.{View as ViewOf, state_of};
ghost use Rattle.store_model.specs.History.{Numbered};
ghost use Rattle.store_model.specs.Lanes.{HoldsSame};
ghost use Rattle.resolver.specs.Viewing.{Agrees};
ghost use Rattle.system_updater.specs.declared.reply.UpdateReply.{UpdateReply as ReplyOf};
ghost use Rattle.system_updater.specs.declared.reply.UpdateReply.TheVariants as replies;
ghost use Rattle.system_updater.specs.Serving.{Serves};
ghost use Rattle.system_updater.specs.Laws.{IsInOrder};
ghost use Rattle.system_updater.specs.Causes.{HasCause};
ghost use Rattle.system_updater.specs.Viewing.{Told as ToldOf, Updates};

use update_manifest::images_name_files;

/// A run that ends staged asks for one package, takes a slot, retains packages before it asks for any other, and
/// then seals the slot, makes it the one that boots next, and leaves it: each once, in this order.
pub fn staged_updates_are_in_order()
    ensures { (path : NameAndVariant) (pin : Option Root) (run : List Numbered) (slot : SlotOf)
        → Serves path pin run (replies.Staged slot) → IsInOrder slot run }
{}

/// A run has a part on which its reply follows: the event of its name, a resolve that replied so, or the read of a
/// manifest that its reader finds bad, and its rejection behind it.
pub fn replies_have_causes()
    ensures { (path : NameAndVariant) (pin : Option Root) (run : List Numbered) (reply : ReplyOf)
        → Serves path pin run reply → HasCause reply run }
{
    images_name_files();
}

/// An update leaves nothing of its own in the store: at its end the state has those claims, tickets and directories of
/// the lane, and that update, which it had at its begin, whatever other lanes did.
pub fn updates_leave_nothing()
    ensures { (path : NameAndVariant) (pin : Option Root) (reply : ReplyOf) (old new : ViewOf) (repo repo_now : ToldOf)
        → Updates path pin reply old new repo repo_now → Agrees old
        → HoldsSame old.lane (state_of old) (state_of new) }
{}
