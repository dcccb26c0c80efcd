//! Rules that rewrite package URLs before a repository is asked, and the repositories of hosts.
//!
//! `docs/rewrite_rules.md` has the format, what a rule does to a URL, and what is proved.
#![tactic(auto)]

mod fault;
mod hosts;
mod laws;
mod reading;
mod routing;
mod rule;
mod rules;

pub use fault::{RouteFault, RulesFault};
pub use hosts::{HostRepo, Hosts};
pub use laws::{limits, texts_hold_what_is_read, urls_have_one_route};
pub use reading::read_rules;
pub use rule::Rule;
pub use rules::{RULE_LIMIT, RULES_LIMIT, Rules};
