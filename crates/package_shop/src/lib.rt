//! Packages that are made of their files, and repositories of them: in memory, or in a folder.
#![tactic(auto)]

mod folder;
mod shop;

pub use folder::{listing_of, write_folder};
pub use shop::{Shop, push_line, with_roots};
