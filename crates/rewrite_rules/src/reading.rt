ghost use Rattle.std.specs.Prelude.{◌≡◌, ◌≤◌, ◌⊎◌, ◌∷◌, ◌++◌, [], Some, None, Ok, Err, IfOk, IfErr, IfSome, OnOk, length};
ghost use Rattle.std.specs.Option.{option_map};
ghost use Rattle.serde_json.specs.View.{view, items_view};
ghost use Rattle.system_lists.specs.Document.{entries};
ghost use Rattle.rewrite_rules.specs.declared.rule.Rule.{Rule as RuleOf};
ghost use Rattle.rewrite_rules.specs.Rule.{IsRule};
ghost use Rattle.rewrite_rules.specs.Content.{rule_in, rules_of, Puts, IsBad};
ghost use Rattle.rewrite_rules.specs.Reading.{content_in, content_rules, rules_in, AreRules, Holds, HasFirstFault};

use crate::fault::RulesFault;
use crate::laws::texts_hold_what_is_read;
use crate::rule::{Rule, rule_in};
use crate::rules::{RULE_LIMIT, RULES_LIMIT, Rules};
use serde_json::Value;
use std::alloc::Global;
use system_lists::read_document;

/// Reads rules: the format of `docs/rewrite_rules.md`.
pub fn read_rules(alloc: Global, bytes: &[u8]) -> Result<Rules, RulesFault>
    ensures exact { (result ≡ rules_in bytes.now) ⊎ (result ≡ Err RulesFault.NoMemory) }
    ensures holds { IfOk result (λ rules. Holds bytes.now rules) }
    ensures fault { IfErr result (λ fault. (fault ≡ RulesFault.NoMemory) ⊎ HasFirstFault bytes.now fault) }
    ensures valid { IfOk result AreRules }
{
    texts_hold_what_is_read();
    read_whole(alloc, bytes)
}

fn read_whole(alloc: Global, bytes: &[u8]) -> Result<Rules, RulesFault>
    ensures exact { (result ≡ rules_in bytes.now) ⊎ (result ≡ Err RulesFault.NoMemory) }
    ensures valid { IfOk result AreRules }
{
    if bytes.len() > RULES_LIMIT {
        return Err(RulesFault::TooLong);
    }
    let value = read_document(alloc, bytes)?;
    let Some(values) = content_in(&value) else {
        return Err(RulesFault::Json);
    };
    read_entries(alloc, values)
}

// The array `content`.
fn content_in(value: &Value) -> Option<&Vec<Value>>
    ensures { option_map (λ v. items_view v.now.items) result ≡ content_in (view value.now) }
{
    value.get("content")?.as_array()
}

fn read_entries(alloc: Global, values: &[Value]) -> Result<Rules, RulesFault>
    ensures exact { (result ≡ rules_of (entries rule_in (items_view values.now)))
        ⊎ (result ≡ Err RulesFault.NoMemory) }
    ensures valid { IfOk result AreRules }
{
    let mut rules = Vec::new(alloc);
    for value in values {
        put_rule(alloc, &mut rules, value)?;
    }
    Ok(Rules::make(alloc, rules))
}

// Puts the rule of an entry last, if it says one and there is room.
fn put_rule(alloc: Global, rules: &mut Vec<Rule>, value: &Value) -> Result<(), RulesFault>
    requires { AreRules rules.old.items }
    ensures ok { OnOk result (Puts (rule_in (view value.now)) rules.old.items rules.new.items) }
    ensures valid { OnOk result (AreRules rules.new.items) }
    ensures fault { IfErr result (λ fault. (fault ≡ RulesFault.NoMemory)
        ⊎ IsBad (rule_in (view value.now)) rules.old.items fault) }
{
    let entry = rule_in(alloc, value)?;
    put(rules, entry)
}

fn put(rules: &mut Vec<Rule>, entry: Option<Rule>) -> Result<(), RulesFault>
    requires rules { AreRules rules.old.items }
    requires entry { IfSome entry IsRule }
    ensures ok { OnOk result (Puts entry rules.old.items rules.new.items) }
    ensures valid { OnOk result (AreRules rules.new.items) }
    ensures fault { IfErr result (λ fault. (fault ≡ RulesFault.NoMemory) ⊎ IsBad entry rules.old.items fault) }
{
    let n = rules.len() as u32 + 1;
    if rules.len() >= RULE_LIMIT {
        return Err(RulesFault::Entry { n });
    }
    let Some(rule) = entry else {
        return Err(RulesFault::Entry { n });
    };
    match rules.push(rule) {
        Ok(()) => Ok(()),
        Err(_) => Err(RulesFault::NoMemory),
    }
}
