//! The model of the store: its state, its events, which event is due in which state, the legal
//! histories, and what a lane's desk at the store promises. `docs/model.md` of the repository tells it
//! in words.
#![tactic(auto)]

mod call_laws;
mod desk;
mod ends;
mod events;
mod examples;
mod holding_laws;
mod images;
mod lane_laws;
mod laws;
mod replies;
mod sound_laws;
mod waiting;

pub use call_laws::{
    calls_change_directories_and_stages, calls_change_tickets_and_claims, calls_give_handles,
    other_calls_keep_what_is_held,
};
pub use desk::{Desk, RETAIN_LIMIT};
pub use ends::{
    ActivateEnd, BeginEnd, Cause, CheckEnd, CopyEnd, Difference, Miss, PIECE_LIMIT, READ_LIMIT,
    ReadEnd, RetainEnd, StageEnd, WantEnd,
};
pub use events::{Act, CallName, Event, Looked, LookedAt};
pub use examples::{
    examples_of_a_failed_write, examples_of_a_long_package, examples_of_boots,
    examples_of_collections, examples_of_directories, examples_of_judgements, examples_of_recovery,
    examples_of_room, examples_of_updates, examples_of_waiting,
};
pub use holding_laws::lanes_hold_what_the_state_has;
pub use images::images_are_files;
pub use lane_laws::{
    broken_stays, claims_are_granted_once, collections_remove_the_rest,
    collections_spare_what_is_held, lanes_leave_each_other_alone, lanes_wait_where_it_is_quiet,
    marks_come_from_ends, what_lasts_changes_at_few_acts, whole_packages_are_opened,
};
pub use laws::{
    books_are_looked_up, each_act_keeps_the_rest, histories_go_on, landings_tell_the_books, limits,
};
pub use replies::{
    ActivateReply, BeginReply, CheckReply, Claim, CloseReply, CollectReply, CommitReply, CopyReply,
    Dir, LandReply, OpenReply, PutReply, ReadReply, RejectReply, RetainReply, RoomReply, SealReply,
    StageReply, Ticket, WantReply,
};
pub use sound_laws::{
    books_know_what_is_protected, histories_are_sound, named_blobs_stay, open_files_stay,
    other_slot_keeps_its_blobs, packages_stay_complete, running_system_stays,
    stock_and_claims_stay_in_room, updates_stay_safe, what_lasts_can_begin,
};
pub use waiting::quiet_packages_have_no_answer;
