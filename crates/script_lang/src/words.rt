//! The words of a line.

ghost use Rattle.std.specs.Prelude.{◌≡◌, true, IfOk, IfErr, Ok, Err};
ghost use Rattle.std.specs.List.{list_all};
ghost use Rattle.pkg_names.specs.Text.{space};
ghost use Rattle.package_url.specs.Reading.{first_cut, lent};
ghost use Rattle.script_lang.specs.Requests.{byte_in_script_name, is_script_name, one_digit, two_digits, lane_in, word_in, other_word_in, named};

use crate::request::{LineFault, SCRIPT_NAME_LIMIT};
use pkg_names::text::cut_at;

/// The word of a request.
#[derive(Clone, Copy, Debug, PartialEq, Eq)]
pub(crate) enum Word {
    Resolve,
    Open,
    Cat,
    Check,
    Close,
    Collect,
    Retain,
    Update,
    Commit,
}

// What stands before the first space, and what follows it.
pub(crate) fn first_word(text: &[u8]) -> (&[u8], Option<&[u8]>)
    ensures before { result.0.now ≡ (first_cut space text.now).0 }
    ensures after { lent result.1 ≡ (first_cut space text.now).1 }
{
    match cut_at(text, b' ') {
        Some((before, after)) => (before, Some(after)),
        None => (text, None),
    }
}

// The number of a lane.
pub(crate) fn lane_of(text: &[u8]) -> Option<u32>
    ensures { result ≡ lane_in text.now }
{
    match text {
        [digit] => one_digit(*digit),
        [first, digit] => two_digits(*first, *digit),
        _ => None,
    }
}

fn one_digit(digit: u8) -> Option<u32>
    ensures { result ≡ one_digit digit }
{
    if matches!(digit, b'1'..=b'9') {
        Some((digit - b'0') as u32)
    } else {
        None
    }
}

fn two_digits(first: u8, digit: u8) -> Option<u32>
    ensures { result ≡ two_digits first digit }
{
    if first == b'1' && matches!(digit, b'0'..=b'6') {
        Some(10 + (digit - b'0') as u32)
    } else {
        None
    }
}

pub(crate) fn word_of(text: &[u8]) -> Option<Word>
    ensures { result ≡ word_in text.now }
{
    if text == b"resolve".as_slice() {
        Some(Word::Resolve)
    } else if text == b"open".as_slice() {
        Some(Word::Open)
    } else if text == b"cat".as_slice() {
        Some(Word::Cat)
    } else if text == b"check".as_slice() {
        Some(Word::Check)
    } else if text == b"close".as_slice() {
        Some(Word::Close)
    } else {
        other_word_of(text)
    }
}

fn other_word_of(text: &[u8]) -> Option<Word>
    ensures { result ≡ other_word_in text.now }
{
    if text == b"collect".as_slice() {
        Some(Word::Collect)
    } else if text == b"retain".as_slice() {
        Some(Word::Retain)
    } else if text == b"update".as_slice() {
        Some(Word::Update)
    } else if text == b"commit".as_slice() {
        Some(Word::Commit)
    } else {
        None
    }
}

// A name, and what follows its space.
pub(crate) fn named(text: &[u8]) -> Result<(&[u8], &[u8]), LineFault>
    ensures found { IfOk result (λ parts. named text.now ≡ Ok (parts.0.now, parts.1.now)) }
    ensures name { IfOk result (λ parts. is_script_name parts.0.now ≡ true) }
    ensures fault { IfErr result (λ fault. named text.now ≡ Err fault) }
{
    let (name, rest) = first_word(text);
    if !is_script_name(name) {
        return Err(LineFault::Name);
    }
    match rest {
        Some(rest) => Ok((name, rest)),
        None => Err(LineFault::Form),
    }
}

pub(crate) fn is_script_name(text: &[u8]) -> bool
    ensures { result ≡ is_script_name text.now }
{
    !text.is_empty() && text.len() <= SCRIPT_NAME_LIMIT && has_name_bytes(text)
}

fn has_name_bytes(text: &[u8]) -> bool
    ensures { result ≡ list_all byte_in_script_name text.now }
{
    text.iter().all(|c| is_name_byte(*c))
}

fn is_name_byte(c: u8) -> bool
    ensures { result ≡ byte_in_script_name c }
{
    matches!(c, b'a'..=b'z' | b'0'..=b'9')
}
