ghost use Rattle.std.specs.Prelude.{◌≡◌};
ghost use Rattle.rewrite_rules.specs.declared.fault.RulesFault.TheVariants as rules;
ghost use Rattle.rewrite_rules.specs.declared.fault.RouteFault.TheVariants as route;
ghost use Rattle.rewrite_rules.specs.Reading.{rules_fault};

use std::alloc::AllocError;
use system_lists::DocumentFault;

/// Why a text holds no rules. They are judged in this order. Rules are counted from 1.
#[derive(Clone, Copy, Debug, PartialEq, Eq)]
pub enum RulesFault {
    /// The text is longer than `RULES_LIMIT`.
    TooLong,
    /// The text is no JSON object, or it has version 1 and no array `content`.
    Json,
    /// The version is neither the string `1` nor the number 1.
    Version,
    /// The entry is no rule, or one too many.
    Entry { n: u32 },
    NoMemory,
}

impl From<AllocError> for RulesFault {
    ghost from_gives = { λ _ e. e ≡ rules.NoMemory };

    fn from(_e: AllocError) -> RulesFault {
        RulesFault::NoMemory
    }
}

impl From<DocumentFault> for RulesFault {
    ghost from_gives = { λ fault e. e ≡ rules_fault fault };

    fn from(fault: DocumentFault) -> RulesFault {
        match fault {
            DocumentFault::Json => RulesFault::Json,
            DocumentFault::Version => RulesFault::Version,
            DocumentFault::NoMemory => RulesFault::NoMemory,
        }
    }
}

/// Why a URL has no route. Rules are counted from 1.
#[derive(Clone, Copy, Debug, PartialEq, Eq)]
pub enum RouteFault {
    /// What this rule makes of the URL's path is no path.
    BadResult { rule: u32 },
    NoMemory,
}

impl From<AllocError> for RouteFault {
    ghost from_gives = { λ _ e. e ≡ route.NoMemory };

    fn from(_e: AllocError) -> RouteFault {
        RouteFault::NoMemory
    }
}
