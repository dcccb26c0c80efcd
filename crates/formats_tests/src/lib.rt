//! Tests of the formats: Merkle roots, archives, contents and books, by their public calls, and what they share.
#![tactic(auto)]

#[cfg(test)]
mod archives;
#[cfg(test)]
mod books;
pub mod common;
#[cfg(test)]
mod contents;
#[cfg(test)]
mod roots;
