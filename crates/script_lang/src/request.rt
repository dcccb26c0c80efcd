//! What a line of a script asks for.

ghost use Rattle.std.specs.Prelude.{◌≡◌, ◌⊎◌, ◌↔◌, nat_le, true, false, Some, None, Err, IfOk, IfErr, IsTrue, IsUtf8};
ghost use Rattle.std.specs.Str.{is_utf8};
ghost use Rattle.pkg_names.specs.Root.{root_in};
ghost use Rattle.package_url.specs.Reading.{path_in};
ghost use Rattle.pkg_names.specs.FileText.{is_file_text};
ghost use Rattle.script_lang.specs.declared.request.LineFault.TheVariants as faults;
ghost use Rattle.script_lang.specs.Requests.{is_script_name, package_in, without_file, roots_in, words_in, about_name, named, named_judged, about, alone, ask_in, request_in, is_passed_over, line_in};

use crate::words::{Word, first_word, is_script_name, lane_of, named, word_of};
use package_url::{Url, UrlFault, read_url};
use pkg_names::{
    FilePath, PackagePath, PathFault, Root, Roots, Texts, is_file, read_file, read_path, read_root,
};
use std::alloc::{AllocError, AllocFailed, Global};

/// The longest name that a script gives, in bytes.
pub const SCRIPT_NAME_LIMIT: usize = 32;

/// The most roots of one `retain`.
pub const RETAIN_LIMIT: u32 = 4096;

/// What a lane asks for. Names are the script's own, and stand for directories.
#[derive(Debug, Drop)]
pub enum Ask {
    Resolve { name: Texts, url: Url },
    OpenPath { name: Texts, path: PackagePath },
    Cat { name: Texts, file: FilePath },
    Check { name: Texts, file: FilePath },
    Close { name: Texts },
    Collect,
    Retain { roots: Roots },
    Update { url: Url },
    Commit,
}

/// A request, with the number of its line, counted from 1, and its lane, 1 to 16.
#[derive(Debug, Drop)]
pub struct Request {
    pub line: u32,
    pub lane: u32,
    pub ask: Ask,
}

/// What is wrong with a line. They are judged in this order, but for `Form`, which comes where a part isn't there.
#[derive(Clone, Copy, Debug, PartialEq, Eq)]
pub enum LineFault {
    /// It isn't UTF-8.
    Encoding,
    /// Its first word is no number from 1 to 16.
    Lane,
    /// No request follows the lane: another word, or too few parts, or too many.
    Form,
    /// The name isn't 1 to 32 bytes of `a` to `z` and `0` to `9`.
    Name,
    /// The URL is none, for this.
    Url(UrlFault),
    /// The URL names a file of the package.
    FileInUrl,
    /// The path is no package path.
    Path,
    /// The file is no path of a file.
    File,
    /// The root of this number, counted from 1, is none, or past [`RETAIN_LIMIT`].
    Root(u32),
    NoMemory,
}

impl From<AllocError> for LineFault {
    ghost from_gives = { λ _ e. e ≡ faults.NoMemory };

    fn from(_e: AllocError) -> LineFault {
        LineFault::NoMemory
    }
}

impl<T: Drop> From<AllocFailed<T>> for LineFault {
    ghost from_gives = { λ _ e. e ≡ faults.NoMemory };

    fn from(_e: AllocFailed<T>) -> LineFault {
        LineFault::NoMemory
    }
}

/// The request of the line with this number, or none where it is empty or a comment.
pub(crate) fn read_line(
    alloc: Global,
    number: u32,
    line: &[u8],
) -> Result<Option<Request>, LineFault>
    ensures { (result ≡ line_in number line.now) ⊎ (result ≡ Err faults.NoMemory) }
{
    if !is_text(line) {
        return Err(LineFault::Encoding);
    }
    if is_passed_over(line) {
        return Ok(None);
    }
    request_of(alloc, number, line)
}

fn is_text(line: &[u8]) -> bool
    ensures { result ≡ is_utf8 line.now }
{
    has_characters(line)
}

fn has_characters(line: &[u8]) -> bool
    ensures { IsTrue result ↔ IsUtf8 line.now }
{
    str::from_utf8(line).is_ok()
}

fn is_passed_over(line: &[u8]) -> bool
    ensures { result ≡ is_passed_over line.now }
{
    match line {
        [] => true,
        [first, ..] => *first == b'#',
    }
}

fn request_of(alloc: Global, number: u32, line: &[u8]) -> Result<Option<Request>, LineFault>
    ensures { (result ≡ request_in number line.now) ⊎ (result ≡ Err faults.NoMemory) }
{
    let (word, rest) = first_word(line);
    let Some(lane) = lane_of(word) else {
        return Err(LineFault::Lane);
    };
    let Some(rest) = rest else {
        return Err(LineFault::Form);
    };
    let ask = ask_of(alloc, rest)?;
    Ok(Some(Request {
        line: number,
        lane,
        ask,
    }))
}

fn ask_of(alloc: Global, text: &[u8]) -> Result<Ask, LineFault>
    ensures { (result ≡ ask_in text.now) ⊎ (result ≡ Err faults.NoMemory) }
{
    let (word, rest) = first_word(text);
    let Some(word) = word_of(word) else {
        return Err(LineFault::Form);
    };
    match rest {
        Some(rest) => about(alloc, word, rest),
        None => alone(alloc, word),
    }
}

fn alone(alloc: Global, word: Word) -> Result<Ask, LineFault>
    ensures { result ≡ alone word }
{
    match word {
        Word::Collect => Ok(Ask::Collect),
        Word::Commit => Ok(Ask::Commit),
        Word::Retain => Ok(Ask::Retain {
            roots: Roots::make(Vec::new(alloc)),
        }),
        _ => Err(LineFault::Form),
    }
}

fn about(alloc: Global, word: Word, text: &[u8]) -> Result<Ask, LineFault>
    ensures { (result ≡ about word text.now) ⊎ (result ≡ Err faults.NoMemory) }
{
    match word {
        Word::Collect | Word::Commit => Err(LineFault::Form),
        Word::Close => close_of(alloc, text),
        Word::Retain => Ok(Ask::Retain {
            roots: roots_of(alloc, text)?,
        }),
        Word::Update => Ok(Ask::Update {
            url: package_of(alloc, text)?,
        }),
        _ => about_named(alloc, word, text),
    }
}

fn close_of(alloc: Global, text: &[u8]) -> Result<Ask, LineFault>
    ensures { (result ≡ about Word.Close text.now) ⊎ (result ≡ Err faults.NoMemory) }
{
    if !is_script_name(text) {
        return Err(LineFault::Name);
    }
    Ok(Ask::Close {
        name: name_of(alloc, text)?,
    })
}

fn about_named(alloc: Global, word: Word, text: &[u8]) -> Result<Ask, LineFault>
    ensures { (result ≡ named_judged word (named text.now)) ⊎ (result ≡ Err faults.NoMemory) }
{
    let (name, rest) = named(text)?;
    let name = name_of(alloc, name)?;
    about_name(alloc, word, name, rest)
}

fn about_name(alloc: Global, word: Word, name: Texts, text: &[u8]) -> Result<Ask, LineFault>
    ensures { (result ≡ about_name word name text.now) ⊎ (result ≡ Err faults.NoMemory) }
{
    match word {
        Word::Resolve => Ok(Ask::Resolve {
            name,
            url: package_of(alloc, text)?,
        }),
        Word::Open => Ok(Ask::OpenPath {
            name,
            path: path_of(alloc, text)?,
        }),
        Word::Cat => Ok(Ask::Cat {
            name,
            file: file_of(alloc, text)?,
        }),
        Word::Check => Ok(Ask::Check {
            name,
            file: file_of(alloc, text)?,
        }),
        _ => Err(LineFault::Form),
    }
}

fn name_of(alloc: Global, name: &[u8]) -> Result<Texts, LineFault>
    requires { is_script_name name.now ≡ true }
    ensures same { IfOk result (λ text. text ≡ name.now) }
    ensures fault { IfErr result (λ fault. fault ≡ faults.NoMemory) }
{
    match str::from_utf8(name) {
        Ok(text) => Ok(Texts::make(String::from_str(alloc, text)?)),
        Err(_) => Err(LineFault::NoMemory),
    }
}

// The URL of a package, without a file.
fn package_of(alloc: Global, text: &[u8]) -> Result<Url, LineFault>
    ensures { (result ≡ package_in text.now) ⊎ (result ≡ Err faults.NoMemory) }
{
    match read_url(alloc, text) {
        Ok(url) => without_file(url),
        Err(UrlFault::NoMemory) => Err(LineFault::NoMemory),
        Err(fault) => Err(LineFault::Url(fault)),
    }
}

fn without_file(url: Url) -> Result<Url, LineFault>
    ensures { result ≡ without_file url url.file }
{
    if url.file.is_some() {
        Err(LineFault::FileInUrl)
    } else {
        Ok(url)
    }
}

fn path_of(alloc: Global, text: &[u8]) -> Result<PackagePath, LineFault>
    ensures found { IfOk result (λ path. path_in text.now ≡ Some path) }
    ensures fault { IfErr result (λ fault. (fault ≡ faults.NoMemory)
        ⊎ ((fault ≡ faults.Path) × (path_in text.now ≡ None))) }
{
    match read_path(alloc, text) {
        Ok(path) => Ok(path),
        Err(PathFault::BadName) => Err(LineFault::Path),
        Err(PathFault::NoMemory) => Err(LineFault::NoMemory),
    }
}

fn file_of(alloc: Global, text: &[u8]) -> Result<FilePath, LineFault>
    ensures found { IfOk result (λ file. (file ≡ text.now) × (is_file_text text.now ≡ true)) }
    ensures fault { IfErr result (λ fault. (fault ≡ faults.NoMemory)
        ⊎ ((fault ≡ faults.File) × (is_file_text text.now ≡ false))) }
{
    if !is_file(text) {
        return Err(LineFault::File);
    }
    match read_file(alloc, text) {
        Ok(file) => Ok(file),
        Err(_) => Err(LineFault::NoMemory),
    }
}

fn roots_of(alloc: Global, text: &[u8]) -> Result<Roots, LineFault>
    ensures { (result ≡ roots_in 1 (words_in text.now)) ⊎ (result ≡ Err faults.NoMemory) }
{
    let mut roots = Vec::new(alloc);
    let mut rest = Some(text);
    let mut number = 1u32;
    while let Some(words) = rest {
        let (word, after) = first_word(words);
        match root_of(number, word) {
            Ok(root) => roots.push(root)?,
            Err(fault) => return Err(fault),
        }
        number += 1;
        rest = after;
    }
    Ok(Roots::make(roots))
}

fn root_of(number: u32, word: &[u8]) -> Result<Root, LineFault>
    ensures found { IfOk result (λ root. (root_in word.now ≡ Some root) × (nat_le number RETAIN_LIMIT ≡ true)) }
    ensures fault { IfErr result (λ fault. (fault ≡ faults.Root number)
        × ((root_in word.now ≡ None) ⊎ (nat_le number RETAIN_LIMIT ≡ false))) }
{
    match read_root(word) {
        Ok(root) if number <= RETAIN_LIMIT => Ok(root),
        _ => Err(LineFault::Root(number)),
    }
}
