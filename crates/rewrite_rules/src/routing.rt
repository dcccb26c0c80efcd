//! What rules make of a URL.

ghost use Rattle.std.specs.Prelude.{◌≡◌, ◌<◌, ◌≤◌, ◌+◌, ◌⊎◌, length, true, Err, IfOk};
ghost use Rattle.std.specs.List.{position};
ghost use Rattle.rewrite_rules.specs.Reading.{AreRules};
ghost use Rattle.rewrite_rules.specs.Routing.{target, is_front, is_match, replaced, path_behind_slash, moved, routed};

use crate::fault::RouteFault;
use crate::rule::{Rule, ends_with_slash};
use package_url::Url;
use pkg_names::{Bytes, FilePath, PackagePath, PathFault, Texts, read_path};
use std::alloc::{AllocError, Global};

/// The URL by the first rule that fits it, or itself.
pub(crate) fn route_of(alloc: Global, rules: &[Rule], url: &Url) -> Result<Url, RouteFault>
    requires { AreRules rules.now }
    ensures { (result ≡ routed rules.now url.now) ⊎ (result ≡ Err RouteFault.NoMemory) }
{
    let target = target_of(alloc, &url.path)?;
    match first_match(rules, url.host.as_slice(), target.as_slice()) {
        Some(place) => moved(alloc, place, &rules[place], url, target.as_slice()),
        None => Ok(copied(alloc, url)?),
    }
}

// `/<name>/<variant>`.
fn target_of(alloc: Global, path: &PackagePath) -> Result<Bytes, AllocError>
    ensures { IfOk result (λ text. text ≡ target path.now) }
{
    let mut out = Vec::new(alloc);
    out.push(b'/')?;
    out.extend_from_slice(path.name())?;
    out.push(b'/')?;
    out.extend_from_slice(path.variant())?;
    Ok(Bytes::make(out))
}

// Where the first rule stands that is for this host and this text.
fn first_match(rules: &[Rule], host: &[u8], text: &[u8]) -> Option<usize>
    ensures { result ≡ position (is_match host.now text.now) rules.now }
{
    rules.iter().position(|rule| is_match(rule, host, text))
}

fn is_match(rule: &Rule, host: &[u8], text: &[u8]) -> bool
    ensures { result ≡ is_match host.now text.now rule.now }
{
    rule.host_match.as_slice() == host && is_front(rule.path_prefix_match.as_slice(), text)
}

// A prefix that ends with a slash stands before the text, or another one is the text.
fn is_front(prefix: &[u8], text: &[u8]) -> bool
    ensures { result ≡ is_front prefix.now text.now }
{
    if ends_with_slash(prefix) {
        text.starts_with(prefix)
    } else {
        text == prefix
    }
}

// The URL that the rule at this place makes of a URL that it is for.
fn moved(
    alloc: Global,
    place: usize,
    rule: &Rule,
    url: &Url,
    text: &[u8],
) -> Result<Url, RouteFault>
    requires place { place < 256 }
    requires within { length rule.now.path_prefix_match ≤ length text.now }
    ensures { (result ≡ moved (place + 1) rule.now.host_replacement url.now
        (path_behind_slash (replaced rule.now text.now))) ⊎ (result ≡ Err RouteFault.NoMemory) }
{
    let number = place as u32 + 1;
    let text = replaced(alloc, rule, text)?;
    let Some(path) = path_behind_slash(alloc, text.as_slice())? else {
        return Err(RouteFault::BadResult { rule: number });
    };
    Ok(Url {
        host: copy_of_text(alloc, &rule.host_replacement)?,
        path,
        pin: url.pin,
        file: copy_of_file(alloc, &url.file)?,
    })
}

// The replacement prefix, and what follows the prefix in the text.
fn replaced(alloc: Global, rule: &Rule, text: &[u8]) -> Result<Bytes, AllocError>
    requires { length rule.now.path_prefix_match ≤ length text.now }
    ensures { IfOk result (λ bytes. bytes ≡ replaced rule.now text.now) }
{
    let prefix = rule.path_prefix_match.as_slice();
    let mut out = Vec::from_slice(alloc, rule.path_prefix_replacement.as_slice())?;
    out.extend_from_slice(&text[prefix.len()..])?;
    Ok(Bytes::make(out))
}

// The path behind a slash, if the text is that.
fn path_behind_slash(alloc: Global, text: &[u8]) -> Result<Option<PackagePath>, AllocError>
    ensures { IfOk result (λ path. path ≡ path_behind_slash text.now) }
{
    let Some(text) = text.strip_prefix(b"/") else {
        return Ok(None);
    };
    match read_path(alloc, text) {
        Ok(path) => Ok(Some(path)),
        Err(PathFault::BadName) => Ok(None),
        Err(PathFault::NoMemory) => Err(AllocError),
    }
}

// ---- copies

fn copied(alloc: Global, url: &Url) -> Result<Url, AllocError>
    ensures { IfOk result (λ copy. copy ≡ url.now) }
{
    Ok(Url {
        host: copy_of_text(alloc, &url.host)?,
        path: url.path.try_copy(alloc)?,
        pin: url.pin,
        file: copy_of_file(alloc, &url.file)?,
    })
}

// The text is UTF-8, so the second arm isn't reached; its type doesn't tell that to contracts.
fn copy_of_text(alloc: Global, text: &Texts) -> Result<Texts, AllocError>
    ensures { IfOk result (λ copy. copy ≡ text.now) }
{
    match str::from_utf8(text.as_slice()) {
        Ok(text) => Ok(Texts::make(String::from_str(alloc, text)?)),
        Err(_) => Err(AllocError),
    }
}

fn copy_of_file(alloc: Global, file: &Option<FilePath>) -> Result<Option<FilePath>, AllocError>
    ensures { IfOk result (λ copy. copy ≡ file.now) }
{
    match file {
        Some(file) => Ok(Some(file.try_copy(alloc)?)),
        None => Ok(None),
    }
}
