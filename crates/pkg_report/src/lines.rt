//! The lines on standard error.

ghost use Rattle.std.specs.Prelude.{◌≡◌, ◌++◌, Option, OnOk, IfOk};
ghost use Rattle.std.specs.String.{string_bytes};
ghost use Rattle.script_lang.specs.declared.script.ScriptRefusal.{ScriptRefusal as RefusalOf};
ghost use Rattle.pkg_report.specs.Lines.{shown_byte as byte_shown, shown, bad_script_text, ending_text, few_text, line_of, line_text_of, listing_text, root_text_at, script_text, url_text, usage_text};

use crate::ending::Ending;
use package_url::UrlFault;
use pkg_tool::{MerkleStatus, Status};
use script_lang::{LineFault, REQUEST_LIMIT, RETAIN_LIMIT, SCRIPT_LIMIT, ScriptRefusal};
use std::alloc::{AllocError, Global};

const _: () = prove!(SCRIPT_LIMIT == 1_048_576 && REQUEST_LIMIT == 4096 && RETAIN_LIMIT == 4096);

/// The line that tells of an ending, with its line feed. There is none where all is well.
pub(crate) fn line_text(
    alloc: Global,
    ending: Ending,
    why: Option<ScriptRefusal>,
    name: &str,
) -> Result<Vec<u8>, AllocError>
    ensures { IfOk result (λ line. line.items ≡ line_of ending why name.now) }
{
    match ending {
        Ending::Ran(Status::Done) => Ok(Vec::new(alloc)),
        Ending::Hashed(MerkleStatus::Done) => Ok(Vec::new(alloc)),
        _ => {
            let mut line = ending_text(alloc, ending, why, name)?;
            line.extend_from_slice(b"\n")?;
            Ok(line)
        }
    }
}

fn ending_text(
    alloc: Global,
    ending: Ending,
    why: Option<ScriptRefusal>,
    name: &str,
) -> Result<Vec<u8>, AllocError>
    ensures { IfOk result (λ line. line.items ≡ ending_text ending why name.now) }
{
    match ending {
        Ending::Ran(status) => run_text(alloc, status, why, name),
        Ending::Hashed(status) => hashing_text(alloc, status, name),
        Ending::CannotOpen => about(alloc, b"cannot open ", name, b""),
        Ending::NoListing => about(alloc, b"cannot open ", name, b"/listing"),
        Ending::BadListing { line: number } => {
            let mut line = about(alloc, b"cannot open ", name, b"/listing")?;
            let bad = listing_text(alloc, number)?;
            line.extend_from_slice(bad.as_bytes())?;
            Ok(line)
        }
    }
}

// What was wrong with a run of this script.
fn run_text(
    alloc: Global,
    status: Status,
    why: Option<ScriptRefusal>,
    name: &str,
) -> Result<Vec<u8>, AllocError>
    ensures { IfOk result (λ line. line.items ≡ ending_text (Ending.Ran status) why name.now) }
{
    match status {
        Status::Done => Ok(Vec::new(alloc)),
        Status::BadWords => usage_text(alloc),
        Status::BadScript { line } => {
            let fault = bad_script_text(alloc, why, line)?;
            about(alloc, b"", name, fault.as_bytes())
        }
        Status::ScriptFault => about(alloc, b"", name, b" could not be read to its end"),
        Status::SinkFault => b"the history could not be written whole".to_vec(alloc),
        Status::NoMemory => b"memory was short".to_vec(alloc),
        Status::FewRepos { have, need } => {
            let few = few_text(alloc, have, need)?;
            about(alloc, b"", name, few.as_bytes())
        }
    }
}

// How the program is used, with an example of each command.
fn usage_text(alloc: Global) -> Result<Vec<u8>, AllocError>
    ensures { IfOk result (λ text. text.items ≡ usage_text) }
{
    let forms =
        b"usage: pkg run IMAGE REPO SCRIPT, pkg merkle FILE, or pkg publish FOLDER REPO PATH; for example ";
    let mut text = forms.to_vec(alloc)?;
    text.extend_from_slice(
        b"pkg run demo/image demo/repo demo/scripts/read, pkg merkle demo/notes/data/text, or ",
    )?;
    text.extend_from_slice(b"pkg publish demo/notes demo/repo notes")?;
    Ok(text)
}

fn few_text(alloc: Global, have: u32, need: u32) -> Result<String, AllocError>
    ensures { IfOk result (λ text. string_bytes text ≡ few_text have need) }
{
    format!(in alloc; " has {need} lanes, and there are {have} repositories")
}

// What was wrong with the hashing of this file.
fn hashing_text(alloc: Global, status: MerkleStatus, name: &str) -> Result<Vec<u8>, AllocError>
    ensures { (why : Option RefusalOf) → IfOk result (λ line.
        line.items ≡ ending_text (Ending.Hashed status) why name.now) }
{
    match status {
        MerkleStatus::Done => Ok(Vec::new(alloc)),
        MerkleStatus::TooLong => about(alloc, b"", name, b" has more than 33,554,432 bytes"),
        MerkleStatus::ReadFault => about(alloc, b"", name, b" could not be read to its end"),
        MerkleStatus::SinkFault => b"the root could not be written whole".to_vec(alloc),
    }
}

// A name, as it is shown, between two texts.
pub(crate) fn about(
    alloc: Global,
    before: &[u8],
    name: &str,
    after: &[u8],
) -> Result<Vec<u8>, AllocError>
    ensures { IfOk result (λ line. line.items ≡ before.now ++ shown name.now ++ after.now) }
{
    let mut line = before.to_vec(alloc)?;
    push_shown(&mut line, name)?;
    line.extend_from_slice(after)?;
    Ok(line)
}

// What is wrong with a script, whose bad line this is.
fn bad_script_text(
    alloc: Global,
    why: Option<ScriptRefusal>,
    number: u32,
) -> Result<String, AllocError>
    ensures { IfOk result (λ text. string_bytes text ≡ bad_script_text why number) }
{
    match why {
        Some(why) => script_text(alloc, why),
        None => format!(in alloc; ": line {number} is bad"),
    }
}

fn script_text(alloc: Global, why: ScriptRefusal) -> Result<String, AllocError>
    ensures { IfOk result (λ text. string_bytes text ≡ script_text why) }
{
    match why {
        ScriptRefusal::TooLong => String::from_str(alloc, " has more than 1,048,576 bytes"),
        ScriptRefusal::Line { number, why } => {
            let mut text = format!(in alloc; ": line {number}")?;
            let expected = line_fault_text(alloc, why)?;
            text.push_str(expected.as_str())?;
            Ok(text)
        }
        ScriptRefusal::TooMany { number } => {
            format!(in alloc; ": line {number} is one request more than 4096")
        }
        ScriptRefusal::NoMemory => String::from_str(alloc, ": memory was short"),
    }
}

// What is expected of a line where it is bad.
fn line_fault_text(alloc: Global, why: LineFault) -> Result<String, AllocError>
    ensures { IfOk result (λ text. string_bytes text ≡ line_text_of why) }
{
    match why {
        LineFault::Encoding => String::from_str(alloc, ": it must be UTF-8"),
        LineFault::Lane => String::from_str(alloc, ": the lane must be a number from 1 to 16"),
        LineFault::Form => String::from_str(
            alloc,
            ": the request must be resolve, open, cat, check, close, collect, retain, update or commit, with its parts",
        ),
        LineFault::Name => {
            String::from_str(alloc, ": the name must be 1 to 32 of a to z and 0 to 9")
        }
        LineFault::Url(fault) => url_text(alloc, fault),
        LineFault::FileInUrl => String::from_str(alloc, ": the URL must have no #"),
        LineFault::Path => String::from_str(
            alloc,
            ": the package path must be NAME or NAME/VARIANT, of a to z, 0 to 9, -, _ and .",
        ),
        LineFault::File => {
            String::from_str(alloc, ": the file must be a path within the package")
        }
        LineFault::Root(number) => root_text(alloc, number),
        LineFault::NoMemory => String::from_str(alloc, ": memory was short"),
    }
}

fn url_text(alloc: Global, fault: UrlFault) -> Result<String, AllocError>
    ensures { IfOk result (λ text. string_bytes text ≡ url_text fault) }
{
    match fault {
        UrlFault::Scheme => { String::from_str(alloc, ": the URL must begin with fuchsia-pkg://") }
        UrlFault::Host => String::from_str(
            alloc,
            ": the host of the URL must be 1 to 255 of a to z, 0 to 9, - and .",
        ),
        UrlFault::Path => {
            String::from_str(
                alloc,
                ": the URL must have / and a package path after its host",
            )
        }
        UrlFault::Hash => String::from_str(
            alloc,
            ": the query of the URL must be hash= and 64 of 0 to 9 and a to f",
        ),
        UrlFault::Fragment => String::from_str(alloc, ": the URL must have no #"),
        UrlFault::NoMemory => String::from_str(alloc, ": memory was short"),
    }
}

fn root_text(alloc: Global, number: u32) -> Result<String, AllocError>
    ensures { IfOk result (λ text. string_bytes text ≡ root_text_at number) }
{
    if number <= 4096 {
        format!(in alloc; ": root {number} must be 64 of 0 to 9 and a to f")
    } else {
        format!(in alloc; ": root {number} is one more than 4096")
    }
}

// What is wrong with a listing, whose bad line this is.
pub(crate) fn listing_text(alloc: Global, number: u32) -> Result<String, AllocError>
    ensures { IfOk result (λ text. string_bytes text ≡ listing_text number) }
{
    if number == 0 {
        String::from_str(alloc, " has more than 1,048,576 bytes")
    } else {
        format!(in alloc; ": line {number} must be NAME/VARIANT=ROOT, its path in no line before")
    }
}

// A name within a line.
pub(crate) fn push_shown(line: &mut Vec<u8>, name: &str) -> Result<(), AllocError>
    ensures { OnOk result (line.new.items ≡ line.old.items ++ shown name.now) }
{
    let mut rest = name.as_bytes();
    while let [byte, after @ ..] = rest {
        line.push(shown_byte(*byte))?;
        rest = after;
    }
    Ok(())
}

// A control character is shown as a question mark.
fn shown_byte(byte: u8) -> u8
    ensures { result ≡ byte_shown byte }
{
    if byte.is_ascii_control() { b'?' } else { byte }
}
