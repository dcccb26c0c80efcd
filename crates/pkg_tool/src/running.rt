//! The program's call: a script's lanes are served over the store, and the history is printed.

ghost use Rattle.std.specs.Prelude.{◌≡◌, ◌↔◌, ◌<◌, ◌≤◌, ◌⊎◌, ℕ, [], true, false, length, map, All, List, Option, Some, None, IfSome, IsSomeAnd, IfOk, OnErr, IfErr};
ghost use Rattle.std.specs.String.{string_bytes};
ghost use Rattle.pkg_names.specs.Streams.{Rose};
ghost use Rattle.script_lang.specs.Scripts.{IsScript, IsRefused, IsGreatestLane};
ghost use Rattle.script_lang.specs.Text.{text as text_of_events};
ghost use Rattle.script_lang.specs.Servable.{IsServable};
ghost use Rattle.script_lang.specs.declared.request.Request.{Request as RequestOf};
ghost use Rattle.system_updater.specs.Viewing.{told, Told};
ghost use Rattle.pkg_tool.specs.Words.{are_run_words};
ghost use Rattle.pkg_tool.specs.Written.{Wrote, WroteFewer, WroteFront, WroteLines};
ghost use Rattle.pkg_tool.specs.Running.{IsRefusal, IsShort, IsToldAtBadScript, Leaves, line_of_refusal, number_of};
ghost use Rattle.pkg_tool.specs.Steps.{IsBadScript, IsReadEnd, IsRefusalOf, last_status, refusal_of};

use crate::input::{InputFault, read_all};
use crate::print::print;
use crate::words::are_run;
use pkg_names::streams::{Sink, Source};
use repo_source::Repo;
use script_lang::{
    Request, SCRIPT_LIMIT, Script, ScriptRefusal, read_script, scripts_can_be_served,
};
use script_server::serve_script;
use std::alloc::{AllocError, Global};
use std::sync::Wait;
use store_model::Event;

/// How a run ended.
#[derive(Clone, Copy, Debug, PartialEq, Eq)]
pub enum Status {
    /// All requests were served, and the history is printed.
    Done,
    /// The words are no `run` command.
    BadWords,
    /// The script's first bad line, counted from 1; 0, where the script has too many bytes.
    BadScript { line: u32 },
    /// The script could not be read.
    ScriptFault,
    /// The history could not be printed whole.
    SinkFault,
    /// Memory was short.
    NoMemory,
    /// There are fewer repositories than the script has lanes.
    FewRepos { have: u32, need: u32 },
}

impl Status {
    /// The exit status of the program.
    pub fn number(self) -> u8
        ensures { result ≡ number_of self }
    {
        match self {
            Status::Done => 0,
            Status::BadWords => 2,
            Status::BadScript { .. } => 3,
            Status::ScriptFault => 6,
            Status::SinkFault => 7,
            Status::NoMemory => 8,
            Status::FewRepos { .. } => 9,
        }
    }
}

/// What a run leaves.
#[derive(Debug, Drop)]
pub struct Ended<R> {
    pub status: Status,
    pub repos: Vec<R>,
    pub history: Vec<Event>,
    /// Memory was short before the printing: the store was not opened, or some lane was served no further.
    pub starved: bool,
    /// What is wrong with the script, at `BadScript` alone.
    pub why: Option<ScriptRefusal>,
}

/// Serves a script: the requests of lane 1 in order, each to its end, over a store in memory, then those of lane 2,
/// and so on. Lane n has the repository at place n - 1. The history is printed at the end.
pub fn run<T: Wait, R: Repo, S: Source, W: Sink>(
    rt: &T,
    alloc: Global,
    words: &[String],
    repos: Vec<R>,
    script: &mut S,
    out: &mut W,
) -> Ended<R>
    ensures bad_words { (result.status ≡ Status.BadWords) ↔ (are_run_words (map string_bytes words.now) ≡ false) }
    ensures bad_script { (line : ℕ) → result.status ≡ Status.BadScript line → IsSomeAnd result.why
        (λ why. (line ≡ line_of_refusal why) × IfSome (S.left script.old) (λ text. IsRefused text why)) }
    ensures why { IsToldAtBadScript result.status result.why }
    ensures script_fault { result.status ≡ Status.ScriptFault → Rose (S.faults script.old) (S.faults script.new) }
    ensures sink_fault { result.status ≡ Status.SinkFault → Rose (W.faults out.old) (W.faults out.new) }
    ensures few { (have need : ℕ) → result.status ≡ Status.FewRepos have need →
        IsShort (S.left script.old) have need (length repos.items) }
    ensures unread { result.status ≡ Status.BadWords → script.new ≡ script.old }
    ensures unasked { IsRefusal result.status → result.repos ≡ repos }
    ensures unopened { result.history.items ≡ [] → result.repos.items ≡ repos.items }
    ensures unwritten { IsRefusal result.status → out.new ≡ out.old }
    ensures leaves { Leaves result.status (S.left script.old) result.starved result.history.items
        (map (λ (r : R). told (R.listing r) (R.files r) (R.faults r) (R.fetches r)) repos.items)
        (map (λ (r : R). told (R.listing r) (R.files r) (R.faults r) (R.fetches r)) result.repos.items) }
    ensures printed { result.status ≡ Status.Done →
        Wrote (W.written out.old) (text_of_events result.history.items) (W.written out.new) }
    ensures front { WroteFront (W.written out.old) (text_of_events result.history.items) (W.written out.new) }
    ensures lines { result.status ≡ Status.NoMemory →
        WroteLines (W.written out.old) result.history.items (W.written out.new) }
    ensures fewer { result.status ≡ Status.NoMemory → result.starved ≡ false →
        WroteFewer (W.written out.old) result.history.items (W.written out.new) }
{
    if !are_run(words) {
        return refused(alloc, Refusal::of(Status::BadWords), repos);
    }
    let requests = match script_of(alloc, script) {
        Ok(requests) => requests,
        Err(refusal) => return refused(alloc, refusal, repos),
    };
    let need = requests.lanes();
    if repos.len() < need as usize {
        let have = repos.len() as u32;
        return refused(alloc, Refusal::of(Status::FewRepos { have, need }), repos);
    }
    let mut repos = repos;
    let Ok(served) = serve_script(rt, alloc, &mut repos, requests.requests(), need) else {
        return refused(alloc, Refusal::of(Status::NoMemory), repos);
    };
    let (history, starved) = served;
    let printed = print(alloc, out, &history);
    Ended {
        status: end(printed, starved),
        repos,
        history,
        starved,
        why: None,
    }
}

// How a run ends that serves nothing.
#[derive(Clone, Copy, Debug, PartialEq, Eq)]
struct Refusal {
    status: Status,
    why: Option<ScriptRefusal>,
}

impl Refusal {
    fn of(status: Status) -> Refusal
        ensures { result ≡ record { status = status; why = None } }
    {
        Refusal { status, why: None }
    }

    fn of_script(why: ScriptRefusal) -> Refusal
        ensures { result ≡ refusal_of why }
    {
        match why {
            ScriptRefusal::TooLong => Refusal::of_line(0, why),
            ScriptRefusal::Line { number, .. } => Refusal::of_line(number, why),
            ScriptRefusal::TooMany { number } => Refusal::of_line(number, why),
            ScriptRefusal::NoMemory => Refusal::of(Status::NoMemory),
        }
    }

    fn of_line(line: u32, why: ScriptRefusal) -> Refusal
        ensures { result ≡ record { status = Status.BadScript line; why = Some why } }
    {
        Refusal {
            status: Status::BadScript { line },
            why: Some(why),
        }
    }
}

// A run that ends before the store is opened.
fn refused<R: Repo>(alloc: Global, refusal: Refusal, repos: Vec<R>) -> Ended<R>
    ensures status { result.status ≡ refusal.status }
    ensures why { result.why ≡ refusal.why }
    ensures repos { result.repos ≡ repos }
    ensures history { result.history.items ≡ [] }
    ensures starved { result.starved ≡ true ↔ refusal.status ≡ Status.NoMemory }
{
    Ended {
        status: refusal.status,
        repos,
        history: Vec::new(alloc),
        starved: refusal.status == Status::NoMemory,
        why: refusal.why,
    }
}

// The requests of the script.
fn script_of<S: Source>(alloc: Global, script: &mut S) -> Result<Script, Refusal>
    ensures ok { IfOk result (λ requests. IfSome (S.left script.old) (λ text. IsScript text requests)) }
    ensures servable { IfOk result (All (λ (r : RequestOf). IsServable r.ask)) }
    ensures bad { IfErr result (λ refusal. IsBadScript (S.left script.old) refusal.status refusal.why) }
    ensures fault { IfErr result (λ refusal. refusal.status ≡ Status.ScriptFault →
        Rose (S.faults script.old) (S.faults script.new)) }
    ensures end { IfErr result (λ refusal. IsReadEnd refusal.status) }
    ensures why { IfErr result (λ refusal. IsToldAtBadScript refusal.status refusal.why) }
{
    match read_all(alloc, script, SCRIPT_LIMIT) {
        Ok(text) => script_in(alloc, &text),
        Err(InputFault::TooLong) => Err(Refusal::of_script(ScriptRefusal::TooLong)),
        Err(InputFault::Failed) => Err(Refusal::of(Status::ScriptFault)),
        Err(InputFault::NoMemory) => Err(Refusal::of(Status::NoMemory)),
    }
}

// The requests of a text.
fn script_in(alloc: Global, text: &[u8]) -> Result<Script, Refusal>
    ensures ok { IfOk result (IsScript text.now) }
    ensures servable { IfOk result (All (λ (r : RequestOf). IsServable r.ask)) }
    ensures bad { IfErr result (IsRefusalOf text.now) }
{
    scripts_can_be_served();
    match read_script(alloc, text) {
        Ok(requests) => Ok(requests),
        Err(why) => Err(Refusal::of_script(why)),
    }
}

// The status of a run whose lanes ended, and whose history was printed so.
fn end(printed: Status, starved: bool) -> Status
    ensures { result ≡ last_status printed starved }
{
    if starved && printed == Status::Done {
        Status::NoMemory
    } else {
        printed
    }
}
