ghost use Rattle.std.specs.Prelude.{◌≡◌, ◌⊎◌, Err, IfOk};
ghost use Rattle.package_url.specs.Url.{IsWritable};
ghost use Rattle.rewrite_rules.specs.Reading.{AreRules};
ghost use Rattle.rewrite_rules.specs.Routing.{routed, IsRouted};

use crate::fault::RouteFault;
use crate::laws::urls_have_one_route;
use crate::routing::route_of;
use crate::rule::Rule;
use package_url::Url;
use std::alloc::Global;
use std::marker::Model;

/// The most bytes of a file with rules.
pub const RULES_LIMIT: usize = 1_048_576;

/// The most rules of a file.
pub const RULE_LIMIT: usize = 256;

/// Rules, of which the first that fits counts. Contracts see their list.
#[derive(Debug, Drop)]
pub struct Rules {
    alloc: Global,
    rules: Vec<Rule>,
}

impl Model for Rules {
    ghost use Rattle.std.specs.Prelude.{List};
    ghost use Rattle.rewrite_rules.specs.declared.rule.Rule.{Rule as RuleOf};
    ghost use Rattle.rewrite_rules.specs.Reading.{AreRules};

    ghost Value = { List RuleOf };

    ghost view = { λ r. r.rules.items };

    ghost invariant = { λ r. AreRules r.rules.items };
}

impl Rules {
    pub(crate) fn make(alloc: Global, rules: Vec<Rule>) -> Rules
        requires { AreRules rules.items }
        ensures { result ≡ rules.items }
    {
        Rules { alloc, rules }
    }

    /// The rules, in order.
    pub fn as_slice(&self) -> &[Rule]
        ensures list { result.now ≡ self.now }
        ensures valid { AreRules self.now }
    {
        &self.rules
    }

    /// The URL that is asked for in place of this one: the one that the first rule that fits makes of it, or
    /// itself where none fits. No second rule is applied.
    pub fn route(&self, url: &Url) -> Result<Url, RouteFault>
        ensures exact { (result ≡ routed self.now url.now) ⊎ (result ≡ Err RouteFault.NoMemory) }
        ensures routed { (result ≡ Err RouteFault.NoMemory) ⊎ IsRouted self.now url.now result }
        ensures writable { IsWritable url.now → IfOk result IsWritable }
    {
        urls_have_one_route();
        route_of(self.alloc, &self.rules, url)
    }
}
