//! What a run of a resolve is, in other words. Each function has an empty body: its contract is the law.

ghost use Rattle.std.specs.Prelude.{◌≡◌, ◌++◌, ℕ, List, Option, Some};
ghost use Rattle.pkg_names.specs.NameAndVariant.{NameAndVariant};
ghost use Rattle.pkg_names.specs.declared.root.Root.{Root};
ghost use Rattle.pkg_names.specs.declared.pinned.Pinned.{Pinned as PinnedOf};
ghost use Rattle.repo_source.specs.declared.file.RepoFile.{RepoFile as FileOf};
ghost use Rattle.store_model.specs.declared.events.Event.{Event as EventOf};
ghost use Rattle.store_model.specs.declared.replies.Dir.{Dir as DirOf};
ghost use Rattle.store_model.specs.Desk.{View as ViewOf, state_of};
ghost use Rattle.store_model.specs.History.{Origin, IsLegal, Numbered, of_lane};
ghost use Rattle.resolver.specs.declared.reply.ResolveReply.{ResolveReply as ReplyOf};
ghost use Rattle.resolver.specs.declared.reply.ResolveReply.TheVariants as replies;
ghost use Rattle.resolver.specs.Serving.{Serves};
ghost use Rattle.resolver.specs.Counting.{grants, ends};
ghost use Rattle.resolver.specs.Laws.{AsksOnce, AreEnded, EndsAs, LeavesNothing, IsIdleIn, AsksOnceIn, OpensTicket};
ghost use Rattle.resolver.specs.Viewing.{Agrees, Resolves};

/// A run asks once, for the package of the URL and by the choice that it has, and asks first. Each claim that
/// is granted in it has one end, of its root, before anything else is asked for. The last event tells the reply.
pub fn runs_resolve_one_package()
    ensures begin { (path : NameAndVariant) (pin : Option Root) (run : List Numbered) (reply : ReplyOf)
        → Serves path pin run reply → AsksOnce path pin run }
    ensures ended { (path : NameAndVariant) (pin : Option Root) (run : List Numbered) (reply : ReplyOf)
        → Serves path pin run reply → AreEnded run }
    ensures once { (path : NameAndVariant) (pin : Option Root) (run : List Numbered) (reply : ReplyOf)
        → Serves path pin run reply → ends run ≡ grants run }
    ensures last { (path : NameAndVariant) (pin : Option Root) (run : List Numbered) (reply : ReplyOf)
        → Serves path pin run reply → EndsAs reply run }
{}

/// A resolve leaves nothing in the store: at its end the state has those claims and tickets of the lane, and that
/// update, which it had at its begin, and of its directories only the one that is replied more, whatever other lanes
/// did. Of a lane that had none of these it has no claim, no ticket and no update.
pub fn resolves_leave_nothing()
    ensures same { (path : NameAndVariant) (pin : Option Root) (reply : ReplyOf) (old new : ViewOf)
        (listing : Option (List PinnedOf)) (files : Option (List FileOf)) (faults faults_now fetches fetches_now : ℕ)
        → Resolves path pin reply old new listing files faults faults_now fetches fetches_now → Agrees old
        → LeavesNothing old.lane reply (state_of old) (state_of new) }
    ensures idle { (path : NameAndVariant) (pin : Option Root) (reply : ReplyOf) (old new : ViewOf)
        (listing : Option (List PinnedOf)) (files : Option (List FileOf)) (faults faults_now fetches fetches_now : ℕ)
        → Resolves path pin reply old new listing files faults faults_now fetches fetches_now → Agrees old
        → IsIdleIn old.lane (state_of old) → IsIdleIn old.lane (state_of new) }
{}

/// In a legal history, a run asks for the package once, and the root of its ticket is what the choice gives in the
/// state before that. A directory that is replied is the lane's in the state at the end, of the ticket's root.
pub fn resolves_open_what_is_chosen()
    ensures asked { (origin : Origin) (history : List EventOf) (lane : ℕ) (before run : List Numbered)
        (path : NameAndVariant) (pin : Option Root) (reply : ReplyOf) → IsLegal origin history
        → of_lane lane history ≡ before ++ run → Serves path pin run reply
        → AsksOnceIn origin history path pin run }
    ensures opened { (origin : Origin) (history : List EventOf) (lane : ℕ) (before run : List Numbered)
        (path : NameAndVariant) (pin : Option Root) (dir : DirOf) → IsLegal origin history
        → of_lane lane history ≡ before ++ run → Serves path pin run (replies.Resolved dir)
        → OpensTicket origin history lane path pin run dir }
{}
