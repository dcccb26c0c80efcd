//! The words of the command.

ghost use Rattle.std.specs.Prelude.{◌≡◌, ◌≢◌};

use pkg_tool::Status;
use std::env;
use std::io::ErrorKind;
use std::rt::Env;

/// The words after the program's name.
pub(crate) fn words<R: Env + AllocGlobal>(rt: &R) -> Result<Vec<String>, Status> {
    match env::args(rt) {
        Ok(args) => match args.skip(1).collect(rt.alloc()) {
            Ok(words) => Ok(words),
            Err(_e) => Err(Status::NoMemory),
        },
        Err(e) => Err(refusal_of(e.kind())),
    }
}

// How the program ends that can't have its words: one that is not UTF-8 is none that it knows.
fn refusal_of(kind: ErrorKind) -> Status
    ensures memory { kind ≡ ErrorKind.OutOfMemory → result ≡ Status.NoMemory }
    ensures words { kind ≢ ErrorKind.OutOfMemory → result ≡ Status.BadWords }
{
    match kind {
        ErrorKind::OutOfMemory => Status::NoMemory,
        _ => Status::BadWords,
    }
}
