//! Laws of rules and routes. Each function has an empty body: its contract is the law.

ghost use Rattle.std.specs.Prelude.{◌≡◌, ◌↔◌, ℕ, List, Result, Ok, Err};
ghost use Rattle.package_url.specs.declared.url.Url.{Url as UrlOf};
ghost use Rattle.rewrite_rules.specs.declared.fault.RulesFault.{RulesFault as RulesFaultOf};
ghost use Rattle.rewrite_rules.specs.declared.fault.RouteFault.{RouteFault as RouteFaultOf};
ghost use Rattle.rewrite_rules.specs.declared.rule.Rule.{Rule as RuleOf};
ghost use Rattle.rewrite_rules.specs.Reading.{rules_in, Holds, HasFirstFault};
ghost use Rattle.rewrite_rules.specs.Routing.{routed, IsRouted};

use crate::rules::{RULE_LIMIT, RULES_LIMIT};

/// The numbers that definitions cite by name.
pub fn limits()
    ensures bytes { RULES_LIMIT ≡ 1_048_576 }
    ensures rules { RULE_LIMIT ≡ 256 }
{}

/// A text is read as rules exactly where its entries say them, and refused exactly by its first fault. So no
/// text holds two lists of rules, and none that holds one has a fault.
pub fn texts_hold_what_is_read()
    ensures rules { (text : List ℕ) (rules : List RuleOf) → (rules_in text ≡ Ok rules) ↔ Holds text rules }
    ensures fault { (text : List ℕ) (fault : RulesFaultOf) → (rules_in text ≡ Err fault) ↔ HasFirstFault text fault }
{}

/// Each URL has one route: itself where no rule fits it, else what the first rule that fits makes of it, or
/// that rule's number where this is no path.
pub fn urls_have_one_route()
    ensures { (rules : List RuleOf) (url : UrlOf) (answer : Result UrlOf RouteFaultOf)
        → (routed rules url ≡ answer) ↔ IsRouted rules url answer }
{}
