//! Tests of the manifests of update packages and of rewrite rules, by their public calls, and what they share.
#![tactic(auto)]

#[cfg(test)]
mod manifests;
#[cfg(test)]
mod rules;
pub mod set_up;
