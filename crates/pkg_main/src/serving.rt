//! A run of the program, over any repositories, script, output and report.

ghost use Rattle.std.specs.Prelude.{◌≡◌, ◌↔◌, ℕ, [], false, length, map, IfSome, IsSomeAnd, OnOk, IsErrOf};
ghost use Rattle.std.specs.String.{string_bytes};
ghost use Rattle.std.specs.Process.{exit_status};
ghost use Rattle.pkg_names.specs.Streams.{Rose};
ghost use Rattle.script_lang.specs.Scripts.{IsRefused};
ghost use Rattle.script_lang.specs.Text.{text as text_of_events};
ghost use Rattle.system_updater.specs.Viewing.{told};
ghost use Rattle.pkg_tool.specs.Words.{are_run_words};
ghost use Rattle.pkg_tool.specs.Written.{Wrote, WroteFewer, WroteFront, WroteLines};
ghost use Rattle.pkg_tool.specs.Running.{IsRefusal, IsShort, IsToldAtBadScript, Leaves, line_of_refusal};
ghost use Rattle.pkg_report.specs.Endings.{ending_of, number_of_ending};
ghost use Rattle.pkg_report.specs.Lines.{line_of};
ghost use Rattle.pkg_main.specs.Names.{script_in};

use crate::late_file::Late;
use pkg_names::streams::Sink;
use pkg_report::{Ending, Report, Told, Untold, tell};
use pkg_tool::{Ended, Status, run};
use repo_source::Repo;
use std::alloc::Global;
use std::sync::Wait;

/// What a run of the program leaves.
#[derive(Debug, Drop)]
pub(crate) struct Served<R> {
    pub(crate) ended: Ended<R>,
    pub(crate) told: Told,
}

/// Serves the words, says what was wrong, and gives the exit status.
pub(crate) fn serve<T: Wait, R: Repo, S: Late, W: Sink, E: Report>(
    rt: &T,
    alloc: Global,
    words: &[String],
    repos: Vec<R>,
    script: &mut S,
    out: &mut W,
    errors: &mut E,
) -> Served<R>
    // The exit status is that of the ending that the run and the opening of the script come to.
    ensures code { exit_status result.told.code ≡
        number_of_ending (ending_of result.ended.status (S.opening script.new)) }

    // So is the line.
    ensures line { OnOk result.told.line (Wrote (E.said errors.old)
        (line_of (ending_of result.ended.status (S.opening script.new)) result.ended.why
        (script_in (map string_bytes words.now)))
        (E.said errors.new)) }
    ensures line_failed { IsErrOf result.told.line Untold.Failed → Rose (E.faults errors.old) (E.faults errors.new) }
    ensures line_unsaid { IsErrOf result.told.line Untold.NoMemory → errors.new ≡ errors.old }

    // The run is one of these words, repositories, script and output.
    ensures bad_words { (result.ended.status ≡ Status.BadWords) ↔ (are_run_words (map string_bytes words.now) ≡ false) }
    ensures bad_script { (line : ℕ) → result.ended.status ≡ Status.BadScript line → IsSomeAnd result.ended.why
        (λ why. (line ≡ line_of_refusal why) × IfSome (S.left script.old) (λ text. IsRefused text why)) }
    ensures why { IsToldAtBadScript result.ended.status result.ended.why }
    ensures script_fault { result.ended.status ≡ Status.ScriptFault → Rose (S.faults script.old) (S.faults script.new) }
    ensures sink_fault { result.ended.status ≡ Status.SinkFault → Rose (W.faults out.old) (W.faults out.new) }
    ensures few { (have need : ℕ) → result.ended.status ≡ Status.FewRepos have need →
        IsShort (S.left script.old) have need (length repos.items) }
    ensures unread { result.ended.status ≡ Status.BadWords → script.new ≡ script.old }
    ensures unasked { IsRefusal result.ended.status → result.ended.repos ≡ repos }
    ensures unopened { result.ended.history.items ≡ [] → result.ended.repos.items ≡ repos.items }
    ensures unwritten { IsRefusal result.ended.status → out.new ≡ out.old }
    ensures leaves { Leaves result.ended.status (S.left script.old) result.ended.starved result.ended.history.items
        (map (λ (r : R). told (R.listing r) (R.files r) (R.faults r) (R.fetches r)) repos.items)
        (map (λ (r : R). told (R.listing r) (R.files r) (R.faults r) (R.fetches r)) result.ended.repos.items) }
    ensures printed { result.ended.status ≡ Status.Done →
        Wrote (W.written out.old) (text_of_events result.ended.history.items) (W.written out.new) }
    ensures front { WroteFront (W.written out.old) (text_of_events result.ended.history.items) (W.written out.new) }
    ensures lines { result.ended.status ≡ Status.NoMemory →
        WroteLines (W.written out.old) result.ended.history.items (W.written out.new) }
    ensures fewer { result.ended.status ≡ Status.NoMemory → result.ended.starved ≡ false →
        WroteFewer (W.written out.old) result.ended.history.items (W.written out.new) }
{
    let ended = run(rt, alloc, words, repos, script, out);
    let ending = Ending::of(ended.status, script.opening());
    let told = tell(alloc, ending, ended.why, script_name(words), errors);
    Served { ended, told }
}

// What the words name as the script. Other words name none.
fn script_name(words: &[String]) -> &str
    ensures { result.now ≡ script_in (map string_bytes words.now) }
{
    match words {
        [_, _, _, script] => script.as_str(),
        _ => "",
    }
}
