//! The stored blobs in memory, their bytes, and what is missing of packages.
#![tactic(auto)]

mod blobs;
mod contents;
mod packages;

pub use blobs::{Blob, Stock, pages_of};
pub use contents::Contents;
pub use packages::{fault_of, first_free, first_missing, is_book, is_known, is_naming};
