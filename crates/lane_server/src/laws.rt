//! What is done for a lane, and what names stand for, in other words. The contract of each function is the law, and its
//! body does nothing.

ghost use Rattle.std.specs.Prelude.{◌≡◌, ◌≢◌, ℕ, List};
ghost use Rattle.script_lang.specs.declared.request.Ask.{Ask as AskOf};
ghost use Rattle.store_model.specs.History.{Numbered};
ghost use Rattle.lane_server.specs.declared.names.Binding.{Binding};
ghost use Rattle.lane_server.specs.Names.{number_under, unbound, rebound};
ghost use Rattle.lane_server.specs.Serving.{Place, ServesAll, ServesFront};
ghost use Rattle.lane_server.specs.Laws.{AreDone, AreDoneTo};

use resolver::runs_resolve_one_package;
use store_model::Desk;
use system_updater::replies_have_causes;

/// A name that is bound stands for the directory that it was bound to last, and one that was unbound for 0. Other
/// names stand for what they stood for.
pub fn names_are_bound_and_unbound()
    ensures bound { (names : List Binding) (name : List ℕ) (number : ℕ)
        → number_under (rebound names name number) name ≡ number }
    ensures unbound { (names : List Binding) (name : List ℕ) → number_under (unbound names name) name ≡ 0 }
    ensures others { (names : List Binding) (name other : List ℕ) (number : ℕ) → other ≢ name
        → number_under (rebound names name number) other ≡ number_under names other }
    ensures kept { (names : List Binding) (name other : List ℕ) → other ≢ name
        → number_under (unbound names name) other ≡ number_under names other }
{}

/// What is done for a lane is a run for each request, in their order: one package is asked for in that of a resolve, on
/// that of an update its reply follows, and that of any other request is one event. No claim is left that was granted
/// to a resolve. Where memory was short so it is of the first requests, the next one was given up, and nothing is done
/// of the rest. So it is at each desk.
pub fn requests_are_done_in_order<K: Desk>()
    ensures all { (desk : K) (place : Place) (all : List AskOf) (events : List Numbered)
        → ServesAll (K.firm desk) place all events → AreDone all events }
    ensures front { (desk : K) (place : Place) (all : List AskOf) (events : List Numbered)
        → ServesFront (K.firm desk) place all events → AreDoneTo all events }
{
    runs_resolve_one_package();
    replies_have_causes();
}
