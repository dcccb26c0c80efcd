//! The package directories that lanes have open.
#![tactic(auto)]

mod dirs;
mod laws;

pub use dirs::{DirEntry, Dirs};
pub use laws::directories_open_and_close;

#[cfg(test)]
mod tests;
