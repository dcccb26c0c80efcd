//! Reading contents.

ghost use Rattle.std.specs.Prelude.{◌≡◌, ◌⊎◌, ◌<◌, [], length, Some, None, Ok, Err, IfOk, IfErr, OnOk, List, ℕ};
ghost use Rattle.pkg_names.specs.Text.{lines_of};
ghost use Rattle.meta_contents.specs.Lines.{pair_in};
ghost use Rattle.meta_contents.specs.Contents.{Pair, paths, placed, reading, contents_of, StandsFor};
ghost use Rattle.meta_contents.specs.Invariant.{Adds};

use crate::contents::{Contents, ContentsLine, LINE_LIMIT};
use crate::fault::{AddFault, ContentsFault};
use pkg_names::text::{last_place, next_line};
use pkg_names::{FileFault, files_are_tested, read_file, read_root, roots_have_texts};
use std::alloc::Global;

// The file and the root of line n.
fn line_of(alloc: Global, line: &[u8], n: u32) -> Result<ContentsLine, ContentsFault>
    ensures found { IfOk result (λ item. pair_in line.now ≡ Some (item.file, item.root)) }
    ensures fault { IfErr result (λ fault. (fault ≡ ContentsFault.NoMemory)
        ⊎ ((fault ≡ ContentsFault.Line n) × (pair_in line.now ≡ None))) }
{
    files_are_tested();
    let Some(at) = last_place(line, b'=') else {
        return Err(ContentsFault::Line { n });
    };
    let file = match read_file(alloc, &line[..at]) {
        Ok(file) => file,
        Err(FileFault::BadFile) => return Err(ContentsFault::Line { n }),
        Err(FileFault::NoMemory) => return Err(ContentsFault::NoMemory),
    };
    match read_root(&line[at + 1..]) {
        Ok(root) => Ok(ContentsLine { file, root }),
        Err(_) => Err(ContentsFault::Line { n }),
    }
}

// Puts line n last, if it may stand there.
fn put_line(
    alloc: Global,
    contents: &mut Contents,
    line: &[u8],
    n: u32,
) -> Result<(), ContentsFault>
    requires { length contents.old < LINE_LIMIT }
    ensures found { OnOk result (Adds (placed n (paths contents.old) (pair_in line.now)) contents.old contents.new) }
    ensures fault { IfErr result (λ fault. (fault ≡ ContentsFault.NoMemory)
        ⊎ (placed n (paths contents.old) (pair_in line.now) ≡ Err fault)) }
{
    let item = line_of(alloc, line, n)?;
    match contents.add(item.file, item.root) {
        Ok(()) => Ok(()),
        Err(AddFault::InMeta) => Err(ContentsFault::InMeta { n }),
        Err(AddFault::Repeat) => Err(ContentsFault::Repeat { n }),
        Err(AddFault::TooMany) => Err(ContentsFault::TooMany),
        Err(AddFault::NoMemory) => Err(ContentsFault::NoMemory),
    }
}

// The contents of all lines, or the first fault.
fn read_lines(alloc: Global, text: &[u8]) -> Result<Contents, ContentsFault>
    ensures { (result ≡ reading [] 1 (lines_of text.now)) ⊎ (result ≡ Err ContentsFault.NoMemory) }
{
    let mut contents = Contents::new(alloc);
    let mut rest = text;
    for n in 1..LINE_LIMIT as u32 + 1 {
        if rest.is_empty() {
            return Ok(contents);
        }
        let (line, after) = next_line(rest);
        put_line(alloc, &mut contents, line, n)?;
        rest = after;
    }
    if rest.is_empty() {
        Ok(contents)
    } else {
        Err(ContentsFault::TooMany)
    }
}

/// Reads contents: the grammar of `docs/contents.md`.
pub fn read_contents(alloc: Global, bytes: &[u8]) -> Result<Contents, ContentsFault>
    ensures exact { (result ≡ contents_of bytes.now) ⊎ (result ≡ Err ContentsFault.NoMemory) }
{
    match str::from_utf8(bytes) {
        Ok(_) => read_lines(alloc, bytes),
        Err(_) => Err(ContentsFault::Utf8),
    }
}

/// A text is read as contents exactly where it stands for them. So contents that are written are read
/// again, and no text stands for two.
pub fn texts_stand_for_what_is_read()
    ensures stands { (text : List ℕ) (list : List Pair) → contents_of text ≡ Ok list → StandsFor text list }
    ensures only { (text : List ℕ) (list : List Pair) → StandsFor text list → contents_of text ≡ Ok list }
{
    files_are_tested();
    roots_have_texts();
}
