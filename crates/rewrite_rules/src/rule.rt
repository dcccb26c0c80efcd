ghost use Rattle.std.specs.Prelude.{◌≡◌, ◌&&◌, IfOk, IfSome};
ghost use Rattle.std.specs.Option.{option_map};
ghost use Rattle.serde_json.specs.View.{view};
ghost use Rattle.package_url.specs.Reading.{is_host_text};
ghost use Rattle.rewrite_rules.specs.Rule.{IsRule, begins_with_slash, ends_with_slash, both_or_neither, are_prefixes, is_rule};
ghost use Rattle.rewrite_rules.specs.Content.{text_at, strings_in, rule_in};

use package_url::is_host;
use pkg_names::Texts;
use serde_json::Value;
use std::alloc::{AllocError, Global};

/// A rule. A URL at the first host whose path, `/<name>/<variant>`, the first prefix fits is asked for at
/// the second host, under the path with the second prefix in place of the first.
#[derive(Debug, Drop)]
pub struct Rule {
    pub host_match: Texts,
    pub host_replacement: Texts,
    pub path_prefix_match: Texts,
    pub path_prefix_replacement: Texts,
}

/// The rule in an entry, if it says one.
pub(crate) fn rule_in(alloc: Global, value: &Value) -> Result<Option<Rule>, AllocError>
    ensures found { IfOk result (λ found. found ≡ rule_in (view value.now)) }
    ensures valid { IfOk result (λ found. IfSome found IsRule) }
{
    let Some(rule) = strings_in(alloc, value)? else {
        return Ok(None);
    };
    if is_rule(&rule) {
        Ok(Some(rule))
    } else {
        Ok(None)
    }
}

// The four strings of an entry.
fn strings_in(alloc: Global, value: &Value) -> Result<Option<Rule>, AllocError>
    ensures { IfOk result (λ found. found ≡ strings_in (view value.now)) }
{
    let Some(host_match) = text_at(value, "host_match") else {
        return Ok(None);
    };
    let Some(host_replacement) = text_at(value, "host_replacement") else {
        return Ok(None);
    };
    let Some(path_prefix_match) = text_at(value, "path_prefix_match") else {
        return Ok(None);
    };
    let Some(path_prefix_replacement) = text_at(value, "path_prefix_replacement") else {
        return Ok(None);
    };
    Ok(Some(Rule {
        host_match: owned(alloc, host_match)?,
        host_replacement: owned(alloc, host_replacement)?,
        path_prefix_match: owned(alloc, path_prefix_match)?,
        path_prefix_replacement: owned(alloc, path_prefix_replacement)?,
    }))
}

fn owned(alloc: Global, text: &str) -> Result<Texts, AllocError>
    ensures { IfOk result (λ texts. texts ≡ text.now) }
{
    Ok(Texts::make(String::from_str(alloc, text)?))
}

// The string at a member.
fn text_at<'a>(value: &'a Value, name: &str) -> Option<&'a str>
    ensures { option_map (λ s. s.now) result ≡ text_at name.now (view value.now) }
{
    value.get(name)?.as_str()
}

fn is_rule(rule: &Rule) -> bool
    ensures { result ≡ is_rule rule.now }
{
    are_hosts(rule.host_match.as_slice(), rule.host_replacement.as_slice())
        && are_prefixes(
            rule.path_prefix_match.as_slice(),
            rule.path_prefix_replacement.as_slice(),
        )
}

fn are_hosts(host: &[u8], other: &[u8]) -> bool
    ensures { result ≡ (is_host_text host.now && is_host_text other.now) }
{
    judge_host(host) && judge_host(other)
}

fn judge_host(host: &[u8]) -> bool
    ensures { result ≡ is_host_text host.now }
{
    is_host(host)
}

fn are_prefixes(prefix: &[u8], other: &[u8]) -> bool
    ensures { result ≡ are_prefixes prefix.now other.now }
{
    begins_with_slash(prefix) && begins_with_slash(other) && end_alike(prefix, other)
}

// Both end with a slash, or neither does.
fn end_alike(prefix: &[u8], other: &[u8]) -> bool
    ensures { result ≡ both_or_neither (ends_with_slash prefix.now) (ends_with_slash other.now) }
{
    if ends_with_slash(prefix) {
        ends_with_slash(other)
    } else {
        !ends_with_slash(other)
    }
}

fn begins_with_slash(text: &[u8]) -> bool
    ensures { result ≡ begins_with_slash text.now }
{
    text.starts_with(b"/")
}

pub(crate) fn ends_with_slash(text: &[u8]) -> bool
    ensures { result ≡ ends_with_slash text.now }
{
    text.ends_with(b"/")
}
