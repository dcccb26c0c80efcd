//! The parts of a URL, each by itself.

ghost use Rattle.std.specs.Prelude.{◌≡◌, ◌⊎◌, ◌↔◌, ◌==◌, not, None, Some, IfOk, IfErr, IsTrue, option_and_then};
ghost use Rattle.std.specs.List.{list_all};
ghost use Rattle.package_url.specs.Url.{percent_sign, byte_in_host, IsHost};
ghost use Rattle.package_url.specs.Reading.{first_cut, lent, behind, host_in, path_in, hash_in, pin_in, file_in};

use crate::fault::UrlFault;
use crate::url::HOST_LIMIT;
use pkg_names::text::cut_at;
use pkg_names::{
    FileFault, FilePath, PackagePath, PathFault, Root, Texts, files_are_tested, read_file,
    read_path, read_root,
};
use std::alloc::Global;

// What follows the front.
pub(crate) fn behind<'a>(text: &'a [u8], front: &[u8]) -> Option<&'a [u8]>
    ensures { lent result ≡ behind front.now text.now }
{
    text.strip_prefix(front)
}

// What stands before the first such byte, and what follows it.
pub(crate) fn first_cut(text: &[u8], byte: u8) -> (&[u8], Option<&[u8]>)
    ensures before { result.0.now ≡ (first_cut byte text.now).0 }
    ensures after { lent result.1 ≡ (first_cut byte text.now).1 }
{
    match cut_at(text, byte) {
        Some((before, after)) => (before, Some(after)),
        None => (text, None),
    }
}

pub(crate) fn host_of(alloc: Global, text: &[u8]) -> Result<Texts, UrlFault>
    ensures found { IfOk result (λ host. host_in text.now ≡ Some host) }
    ensures fault { IfErr result (λ fault. (fault ≡ UrlFault.NoMemory)
        ⊎ ((fault ≡ UrlFault.Host) × (host_in text.now ≡ None))) }
{
    if !is_host(text) {
        return Err(UrlFault::Host);
    }
    match str::from_utf8(text) {
        Ok(host) => Ok(Texts::make(String::from_str(alloc, host)?)),
        Err(_) => Err(UrlFault::Host),
    }
}

/// Whether the text is a host.
pub fn is_host(text: &[u8]) -> bool
    ensures { IsTrue result ↔ IsHost text.now }
{
    !text.is_empty() && text.len() <= HOST_LIMIT && text.iter().all(|c| is_host_byte(*c))
}

fn is_host_byte(c: u8) -> bool
    ensures { result ≡ byte_in_host c }
{
    matches!(c, b'a'..=b'z' | b'0'..=b'9' | b'-' | b'.')
}

pub(crate) fn path_of(alloc: Global, text: Option<&[u8]>) -> Result<PackagePath, UrlFault>
    ensures found { IfOk result (λ path. option_and_then path_in (lent text.entry) ≡ Some path) }
    ensures fault { IfErr result (λ fault. (fault ≡ UrlFault.NoMemory)
        ⊎ ((fault ≡ UrlFault.Path) × (option_and_then path_in (lent text.entry) ≡ None))) }
{
    let Some(text) = text else {
        return Err(UrlFault::Path);
    };
    match read_path(alloc, text) {
        Ok(path) => Ok(path),
        Err(PathFault::BadName) => Err(UrlFault::Path),
        Err(PathFault::NoMemory) => Err(UrlFault::NoMemory),
    }
}

pub(crate) fn pin_of(query: Option<&[u8]>) -> Result<Option<Root>, UrlFault>
    ensures found { IfOk result (λ pin. pin_in (lent query.entry) ≡ Some pin) }
    ensures fault { IfErr result (λ fault. (fault ≡ UrlFault.Hash)
        × (pin_in (lent query.entry) ≡ None)) }
{
    let Some(query) = query else {
        return Ok(None);
    };
    match hash_of(query) {
        Some(root) => Ok(Some(root)),
        None => Err(UrlFault::Hash),
    }
}

fn hash_of(query: &[u8]) -> Option<Root>
    ensures { result ≡ hash_in query.now }
{
    read_root(behind(query, b"hash=")?).ok()
}

pub(crate) fn file_of(alloc: Global, fragment: Option<&[u8]>) -> Result<Option<FilePath>, UrlFault>
    ensures found { IfOk result (λ file. file_in (lent fragment.entry) ≡ Some file) }
    ensures fault { IfErr result (λ fault. (fault ≡ UrlFault.NoMemory)
        ⊎ ((fault ≡ UrlFault.Fragment) × (file_in (lent fragment.entry) ≡ None))) }
{
    files_are_tested();
    let Some(text) = fragment else {
        return Ok(None);
    };
    if !has_no_percent(text) {
        return Err(UrlFault::Fragment);
    }
    match read_file(alloc, text) {
        Ok(file) => Ok(Some(file)),
        Err(FileFault::BadFile) => Err(UrlFault::Fragment),
        Err(FileFault::NoMemory) => Err(UrlFault::NoMemory),
    }
}

fn has_no_percent(text: &[u8]) -> bool
    ensures { result ≡ list_all (λ c. not (c == percent_sign)) text.now }
{
    text.iter().all(|c| *c != b'%')
}
