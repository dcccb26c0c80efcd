//! A file that the words name, opened when it is first read.

ghost use Rattle.std.specs.Prelude.{◌≡◌, ◌≢◌, ℕ, Option, None, Some, OnOk, IfErr};
ghost use Rattle.pkg_report.specs.declared.ending.Opening.{Opening as OpeningOf};
ghost use Rattle.pkg_main.specs.Openings.{opening_in, opening_or_fine};

use pkg_names::streams::{FileSource, Source, SourceFailed};
use pkg_report::Opening;
use std::fs;
use std::fs::File;
use std::io::ErrorKind;
use std::rt::Files;

/// A source that is opened when it is first read.
pub(crate) trait Late: Source {
    ghost opening: { Self → OpeningOf };

    fn opening(&self) -> Opening
        ensures { result ≡ opening self.now };
}

/// Opens a source, once.
pub(crate) trait Opener {
    type Opened: Source + Drop;

    /// What the opening came to, if it was opened.
    ghost tried: { Self → Option OpeningOf };

    fn open(&mut self) -> Result<Self::Opened, Opening>
        requires once { tried self.old ≡ None }
        ensures ok { OnOk result (tried self.new ≡ Some Opening.Fine) }
        ensures err { IfErr result (λ opening. (opening ≢ Opening.Fine) × (tried self.new ≡ Some opening)) };
}

#[derive(Drop)]
pub(crate) enum State<S> {
    Unopened,
    Open(S),
    Failed(Opening),
}

/// A source that is opened when it is first read. One that can't be opened fails.
#[derive(Drop)]
pub(crate) struct LateFile<O: Opener + Drop> {
    opener: O,
    state: State<O::Opened>,
    faults: u64,
    ghost tried: { O.tried opener ≡ opening_in state },
}

impl<O: Opener + Drop> LateFile<O> {
    pub(crate) fn attach(opener: O) -> LateFile<O>
        requires { O.tried opener ≡ None }
        ensures { O.tried result.opener ≡ None }
    {
        LateFile {
            opener,
            state: State::Unopened,
            faults: 0,
        }
    }
}

impl<O: Opener + Drop> Source for LateFile<O> {
    ghost left = { λ _. None };

    ghost faults = { λ s. s.faults };

    fn take(&mut self, out: &mut [u8]) -> Result<usize, SourceFailed> {
        if let State::Unopened = self.state {
            self.state = match self.opener.open() {
                Ok(source) => State::Open(source),
                Err(opening) => State::Failed(opening),
            };
        }
        let taken = match &mut self.state {
            State::Open(source) => source.take(out),
            _ => Err(SourceFailed),
        };
        if taken.is_err() {
            self.faults = self.faults.saturating_add(1);
        }
        taken
    }
}

impl<O: Opener + Drop> Late for LateFile<O> {
    ghost opening = { λ s. opening_or_fine (O.tried s.opener) };

    fn opening(&self) -> Opening {
        match self.state {
            State::Failed(opening) => opening,
            _ => Opening::Fine,
        }
    }
}

/// Opens a file of the host.
#[derive(Drop)]
pub(crate) struct FileOpener<'a, R: Files<File = File>> {
    files: &'a R,
    name: &'a str,
    tried: Option<Opening>,
}

impl<'a, R: Files<File = File>> FileOpener<'a, R> {
    /// Opens the file of this name.
    pub(crate) fn of(files: &'a R, name: &'a str) -> FileOpener<'a, R>
        ensures name { result.name.now ≡ name.now }
        ensures tried { result.tried ≡ None }
    {
        FileOpener {
            files,
            name,
            tried: None,
        }
    }
}

impl<R: Files<File = File>> Opener for FileOpener<'_, R> {
    type Opened = FileSource;

    ghost tried = { λ o. o.tried };

    fn open(&mut self) -> Result<FileSource, Opening> {
        match fs::open(self.files, self.name) {
            Ok(file) => {
                self.tried = Some(Opening::Fine);
                Ok(FileSource::attach(file))
            }
            Err(e) => {
                let opening = opening_of(e.kind());
                self.tried = Some(opening);
                Err(opening)
            }
        }
    }
}

// What a file that can't be opened, for this reason, is to the program.
fn opening_of(kind: ErrorKind) -> Opening
    ensures memory { kind ≡ ErrorKind.OutOfMemory → result ≡ Opening.NoMemory }
    ensures missing { kind ≢ ErrorKind.OutOfMemory → result ≡ Opening.Missing }
    ensures failed { result ≢ Opening.Fine }
{
    match kind {
        ErrorKind::OutOfMemory => Opening::NoMemory,
        _ => Opening::Missing,
    }
}
