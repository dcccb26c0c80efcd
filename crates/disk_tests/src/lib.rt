//! Tests of `disk_model` over its public calls, and three small callers of it, whose proofs stand on its
//! public clauses and open lemma files alone.
#![tactic(auto)]

pub mod commit;
pub mod drill;
pub mod reads;
#[cfg(test)]
mod tests;
