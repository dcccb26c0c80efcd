//! What the program says on standard error: one line where the exit status isn't 0.

ghost use Rattle.std.specs.Prelude.{◌≡◌, ◌≤◌, ℕ, List, Option, OnOk, OnErr, IsErrOf, IsOkUnless};
ghost use Rattle.std.specs.Process.{exit_status};
ghost use Rattle.pkg_names.specs.Streams.{Rose};
ghost use Rattle.pkg_tool.specs.Written.{Wrote};
ghost use Rattle.pkg_report.specs.Endings.{number_of_ending};
ghost use Rattle.pkg_report.specs.Lines.{line_of};

use crate::ending::Ending;
use crate::lines::line_text;
use pkg_tool::Status;
use script_lang::ScriptRefusal;
use std::alloc::Global;
use std::io::Write;
use std::process::ExitCode;

/// The line could not be said.
#[derive(Clone, Copy, Debug, PartialEq, Eq)]
pub struct NotSaid;

/// Where the program says what was wrong.
pub trait Report {
    /// What was said, where that is told.
    ghost said: { Self → Option (List ℕ) };

    /// How often it has failed. It never falls, and stands still at the end of its type.
    ghost faults: { Self → ℕ };

    fn say(&mut self, line: &[u8]) -> Result<(), NotSaid>
        ensures ok { OnOk result (Wrote (said self.old) line.now (said self.new)) }
        ensures cause { OnErr result (Rose (faults self.old) (faults self.new)) }
        ensures faults { faults self.old ≤ faults self.new };
}

/// A writer, as standard error. It tells nothing.
#[derive(Drop)]
pub struct WriterReport<W: Write + Drop> {
    writer: W,
    faults: u64,
}

impl<W: Write + Drop> WriterReport<W> {
    pub fn attach(writer: W) -> WriterReport<W> {
        WriterReport { writer, faults: 0 }
    }
}

impl<W: Write + Drop> Report for WriterReport<W> {
    ghost use Rattle.std.specs.Prelude.{None};

    ghost said = { λ _. None };

    ghost faults = { λ r. r.faults };

    fn say(&mut self, line: &[u8]) -> Result<(), NotSaid> {
        match self.writer.write_all(line) {
            Ok(()) => Ok(()),
            Err(_e) => {
                self.faults = self.faults.saturating_add(1);
                Err(NotSaid)
            }
        }
    }
}

/// Why nothing was said of an ending.
#[derive(Clone, Copy, Debug, PartialEq, Eq)]
pub enum Untold {
    Failed,
    NoMemory,
}

/// An ending that was told.
#[derive(Debug, Drop)]
pub struct Told {
    /// The exit status of the process.
    pub code: ExitCode,
    pub line: Result<(), Untold>,
}

/// Says how the program ended, with the name of the script, the file or the repository, and gives the exit status.
pub fn tell<E: Report>(
    alloc: Global,
    ending: Ending,
    why: Option<ScriptRefusal>,
    name: &str,
    errors: &mut E,
) -> Told
    ensures code { exit_status result.code ≡ number_of_ending ending }
    ensures line { OnOk result.line (Wrote (E.said errors.old) (line_of ending why name.now) (E.said errors.new)) }
    ensures failed { IsErrOf result.line Untold.Failed → Rose (E.faults errors.old) (E.faults errors.new) }
    ensures unsaid { IsErrOf result.line Untold.NoMemory → errors.new ≡ errors.old }
{
    Told {
        code: ExitCode::from(ending.number()),
        line: tell_line(alloc, ending, why, name, errors),
    }
}

fn tell_line<E: Report>(
    alloc: Global,
    ending: Ending,
    why: Option<ScriptRefusal>,
    name: &str,
    errors: &mut E,
) -> Result<(), Untold>
    ensures ok { OnOk result (Wrote (E.said errors.old) (line_of ending why name.now) (E.said errors.new)) }
    ensures failed { IsErrOf result Untold.Failed → Rose (E.faults errors.old) (E.faults errors.new) }
    ensures unsaid { IsErrOf result Untold.NoMemory → errors.new ≡ errors.old }
{
    // Where memory was short the line takes none.
    if ending == Ending::Ran(Status::NoMemory) {
        return say(errors, b"memory was short\n");
    }
    match line_text(alloc, ending, why, name) {
        Ok(line) => say(errors, &line),
        Err(_e) => Err(Untold::NoMemory),
    }
}

/// Says a line.
pub(crate) fn say<E: Report>(errors: &mut E, line: &[u8]) -> Result<(), Untold>
    ensures ok { OnOk result (Wrote (E.said errors.old) line.now (E.said errors.new)) }
    ensures err { OnErr result (Rose (E.faults errors.old) (E.faults errors.new)) }
    ensures only { IsOkUnless result Untold.Failed }
{
    match errors.say(line) {
        Ok(()) => Ok(()),
        Err(_e) => Err(Untold::Failed),
    }
}
