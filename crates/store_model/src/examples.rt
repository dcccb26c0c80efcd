//! What the definitions come to, by examples that are computed. Each function does nothing.

ghost use Rattle.std.specs.Prelude.{◌≡◌, ℕ, ◌++◌, List, [], ◌∷◌, map, replicate, true, false, Some, None, Ok, Err};
ghost use Rattle.abr_record.specs.declared.Slot.TheVariants as slots;
ghost use Rattle.abr_record.specs.Boot.{boot_slot, factory_record};
ghost use Rattle.abr_record.specs.Marks.{unbootable_slot};
ghost use Rattle.abr_record.specs.Settling.{record_after};
ghost use Rattle.fetch_queue.specs.declared.FetchEnd.TheVariants as fetches;
ghost use Rattle.image_layout.specs.declared.Sys.{Sys as SysOf};
ghost use Rattle.package_book.specs.Books.Meta.{Long};
ghost use Rattle.package_book.specs.declared.fault.PackageFault.TheVariants as faults;
ghost use Rattle.package_indexes.specs.declared.Choice.{Choice as ChoiceOf};
ghost use Rattle.pkg_names.specs.NameAndVariant.{NameAndVariant};
ghost use Rattle.pkg_names.specs.declared.pinned.Pinned.{Pinned as PinnedOf};
ghost use Rattle.pkg_names.specs.declared.root.Root.{Root as RootOf};
ghost use Rattle.system_lists.specs.Judging.{Verdict, system_path, judged, judged_lists};
ghost use Rattle.system_lists.specs.declared.fault.SystemFault.TheVariants as system_faults;
ghost use Rattle.system_lists.specs.declared.fault.SystemFault.{SystemFault as SystemFaultOf};
ghost use Rattle.store_model.specs.declared.ends.BeginEnd.TheVariants as begins;
ghost use Rattle.store_model.specs.declared.ends.Cause.TheVariants as causes;
ghost use Rattle.store_model.specs.declared.ends.Miss.TheVariants as misses;
ghost use Rattle.store_model.specs.declared.ends.ReadEnd.TheVariants as reads;
ghost use Rattle.store_model.specs.declared.ends.RetainEnd.TheVariants as retains;
ghost use Rattle.store_model.specs.declared.ends.StageEnd.TheVariants as stages;
ghost use Rattle.store_model.specs.declared.ends.WantEnd.{WantEnd as WantEndOf};
ghost use Rattle.store_model.specs.declared.ends.WantEnd.TheVariants as wants;
ghost use Rattle.store_model.specs.State.{durable, is_committed, is_pending};
ghost use Rattle.store_model.specs.Step.{meant};
ghost use Rattle.store_model.specs.History.{IsLegal, after, start};
ghost use Rattle.store_model.specs.Quiet.{IsQuiet};
ghost use Rattle.store_model.specs.Acts.Begin.{begin_answer};
ghost use Rattle.store_model.specs.Acts.Want.{IsDueWant};
ghost use Rattle.store_model.specs.Acts.Room.{room_end};
ghost use Rattle.store_model.specs.Acts.Read.{IsDueRead};
ghost use Rattle.store_model.specs.Acts.Close.{IsDueClose};
ghost use Rattle.store_model.specs.Acts.Collect.{collect_answer};
ghost use Rattle.store_model.specs.Acts.Retain.{IsDueRetain};
ghost use Rattle.store_model.specs.Acts.Stage.{stage_answer, next_stage};
ghost use Rattle.store_model.specs.Examples.{root_like, running_a, filling_b, updated, updated_record, seventh, eighth, all_there, kept_at_last, recovery, from_factory, wanted, fetching, failed_put, afterwards, a_long_package, both_asked, both_missed, with_space, one_open, closed_by, retained_then_closed};

/// Updates. To an older system there is none, while a lane has one under way there is no other, and a
/// second one takes the slot that the first has activated. Until then what is retained stays.
pub fn examples_of_updates()
    ensures older { (sys : SysOf) → stage_answer (running_a (record sys { epoch = 3 })) 2 ≡ stages.Older 3 }
    ensures same { (sys : SysOf) → stage_answer (running_a (record sys { epoch = 3 })) 3 ≡ stages.Turn slots.B }
    ensures busy { (sys : SysOf) (epoch : ℕ) → stage_answer (filling_b sys) epoch ≡ stages.Busy 1 }
    ensures in_use { (sys other : SysOf) → IsDueRetain (updated sys other) [] retains.SlotInUse }
    ensures again { (sys other : SysOf)
        → stage_answer (updated (record sys { epoch = 1 }) other) 2 ≡ stages.Turn slots.B }
    ensures taken { (sys other : SysOf) → (next_stage (updated sys other) 2 (stages.Turn slots.B)).abr
        ≡ record { a = record { priority = 14; tries = 0; successful = true }; b = unbootable_slot; one_shot = 0 } }
{}

/// Boots after an update that nobody commits. Seven boot B, with one try less each, and the next boots A.
/// On the last try B can't be booted again, but its system may be committed, and then it stays.
pub fn examples_of_boots()
    ensures seven { map (λ n. boot_slot (record_after n updated_record)) (0 ∷ 1 ∷ 2 ∷ 3 ∷ 4 ∷ 5 ∷ 6 ∷ [])
        ≡ replicate 7 slots.B }
    ensures tries { map (λ n. (record_after n updated_record).b.tries) (1 ∷ 2 ∷ 3 ∷ 4 ∷ 5 ∷ 6 ∷ 7 ∷ [])
        ≡ 6 ∷ 5 ∷ 4 ∷ 3 ∷ 2 ∷ 1 ∷ 0 ∷ [] }
    ensures eighth { (a b : SysOf) → (eighth a b).running ≡ slots.A }
    ensures back { (a b : SysOf) → is_committed (eighth a b) ≡ true }
    ensures pending { (a b : SysOf) → is_pending (seventh a b) ≡ true }
    ensures kept { (a b : SysOf) → collect_answer (seventh a b) ≡ None }
    ensures lost { (a b : SysOf) → (durable (seventh a b)).b ≡ None }
    ensures stays { (a b : SysOf) → (durable (kept_at_last a b)).b ≡ Some b }
    ensures goes { (a b : SysOf) → (durable (kept_at_last a b)).a ≡ None }
    ensures once { (a b : SysOf) → is_pending (kept_at_last a b) ≡ false }
    ensures boots { (a b : SysOf) → boot_slot (kept_at_last a b).abr ≡ slots.B }
{}

/// Recovery, once. Nothing is asked for, removed, updated or committed there.
pub fn examples_of_recovery()
    ensures runs { (a b : SysOf) → (recovery a b).running ≡ slots.R }
    ensures once { (a b : SysOf) → (recovery a b).abr ≡ factory_record }
    ensures begins { (a b : SysOf) (path : NameAndVariant) (choice : ChoiceOf)
        → begin_answer (recovery a b) path choice ≡ begins.InRecovery }
    ensures collects { (a b : SysOf) → collect_answer (recovery a b) ≡ None }
    ensures stages { (a b : SysOf) (epoch : ℕ) → stage_answer (recovery a b) epoch ≡ stages.InRecovery }
    ensures commits { (a b : SysOf) → is_pending (recovery a b) ≡ false }
{}

/// Judgements. The first thing that is wrong counts; a system without packages is whole.
pub fn examples_of_judgements()
    ensures whole { (top : RootOf) → judged all_there top
        ≡ Verdict.Whole (record { path = system_path; root = top } ∷ []) [] }
    ensures absent { (top : RootOf) → judged (record all_there { len = λ _. None }) top ≡ Verdict.Missing top }
    ensures uncounted { (top : RootOf) → judged (record all_there { is_kept = λ _. false; is_book = λ _. false }) top
        ≡ Verdict.Missing top }
    ensures no_book { (top : RootOf) → judged (record all_there { is_book = λ _. false; outer = λ _ _. None }) top
        ≡ Verdict.Faulty system_faults.NoBook }
    ensures no_static { (top : RootOf) → judged (record all_there { outer = λ _ _. None; bytes = λ _. None }) top
        ≡ Verdict.Faulty system_faults.NoStatic }
    ensures unread { (top : RootOf) → judged (record all_there { bytes = λ _. None }) top
        ≡ Verdict.Unread (root_like 2) }
    ensures long { (top : RootOf) → judged (record all_there { len = λ _. Some 1048577; bytes = λ _. None }) top
        ≡ Verdict.Faulty (system_faults.LongList 1048577) }
    ensures static_first { (top : RootOf) (one other : SystemFaultOf)
        → judged_lists all_there top (Err one) (Err other) ≡ Verdict.Faulty one }
    ensures base { (top : RootOf) (one : PinnedOf)
        → judged_lists (record all_there { is_book = λ _. false }) top (Ok (one ∷ [])) (Ok [])
        ≡ Verdict.Faulty (system_faults.BadBase one.root) }
{}

/// A write that fails while bytes are put. The claim is gone and marks nothing, the package still arrives,
/// and nothing that lasts has changed or was meant to. Its ticket can be given up; a collection is refused.
pub fn examples_of_a_failed_write()
    ensures legal { IsLegal from_factory (fetching ++ failed_put ∷ afterwards) }
    ensures claims { (after from_factory (fetching ++ failed_put ∷ [])).claims ≡ [] }
    ensures arriving { (after from_factory (fetching ++ failed_put ∷ [])).arriving
        ≡ (after from_factory fetching).arriving }
    ensures noted { (after from_factory (fetching ++ failed_put ∷ [])).broken ≡ Some 4 }
    ensures lasts { durable (after from_factory (fetching ++ failed_put ∷ afterwards))
        ≡ durable (start from_factory) }
    ensures meant { meant (after from_factory fetching) 4 1 failed_put.act ≡ durable (start from_factory) }
    ensures ended { (after from_factory (fetching ++ failed_put ∷ afterwards)).arriving ≡ [] }
{}

/// Two lanes that ask for one package. While lane 1 fetches its blob, lane 2 has to wait. A read that
/// failed there fails both. Where memory was short, lane 2 fetches the blob itself.
pub fn examples_of_waiting()
    ensures quiet { IsQuiet (after from_factory both_asked) 2 2 }
    ensures waits { (reply : WantEndOf) → ¬ IsDueWant (after from_factory both_asked) 2 2 reply }
    ensures fails { IsDueWant (after from_factory (both_missed misses.Read)) 2 2
        (wants.Failed (causes.Fetch fetches.Read)) }
    ensures both { IsDueWant (after from_factory (both_missed misses.Read)) 1 1
        (wants.Failed (causes.Fetch fetches.Read)) }
    ensures goes_on { IsDueWant (after from_factory (both_missed misses.Memory)) 2 2 (wants.Fetch wanted) }
{}

/// Collections. An open package stays, and so does one that is retained; what no package names goes.
pub fn examples_of_collections()
    ensures opened { collect_answer one_open ≡ Some (root_like 2 ∷ []) }
    ensures closed { collect_answer (closed_by 1) ≡ Some (root_like 1 ∷ root_like 2 ∷ []) }
    ensures others { collect_answer (closed_by 2) ≡ Some (root_like 2 ∷ []) }
    ensures retained { collect_answer retained_then_closed ≡ Some (root_like 2 ∷ []) }
{}

/// Room. A blob that is too large comes first, then a full table, then too few free pages.
pub fn examples_of_room()
    ensures too_large { room_end (with_space 0 0) 33554433 ≡ Some (fetches.TooLarge 33554433) }
    ensures no_node { room_end (with_space 0 0) 12288 ≡ Some fetches.NoNode }
    ensures no_space { room_end (with_space 64 2) 12288 ≡ Some (fetches.NoSpace 3 2) }
    ensures made { room_end (with_space 64 3) 12288 ≡ None }
    ensures empty { room_end (with_space 64 0) 0 ≡ Some (fetches.NoSpace 1 0) }
{}

/// Directories. A number is open for the lane that opened it, and for no other.
pub fn examples_of_directories()
    ensures closes { IsDueClose one_open 1 2 true }
    ensures not_another { IsDueClose one_open 2 2 false }
    ensures not_open { (file : List ℕ) → IsDueRead one_open 2 2 file reads.BadDir }
    ensures never { (file : List ℕ) → IsDueRead one_open 1 0 file reads.BadDir }
{}

/// A package whose blob is too long to be read. Nobody looks at it, and it is none.
pub fn examples_of_a_long_package()
    ensures legal { IsLegal from_factory a_long_package }
    ensures known { (after from_factory a_long_package).books
        ≡ record { root = wanted; meta = Long 1048577 } ∷ [] }
    ensures fails { IsDueWant (after from_factory a_long_package) 1 1
        (wants.Failed (causes.NotAPackage (faults.Long 1048577))) }
{}
