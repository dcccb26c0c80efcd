//! Tests of publishing at its limits, over the public calls of `repo_publish`, and what they share.
#![tactic(auto)]

mod files;

pub use files::numbered_files;

#[cfg(test)]
mod limits;
