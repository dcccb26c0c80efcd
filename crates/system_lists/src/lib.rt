//! The lists of a system package: which packages it brings, and which it has in store.
//!
//! `docs/system_lists.md` has the formats, and what is proved of the readers.
#![tactic(auto)]

mod cached;
mod document;
mod fault;
mod laws;
mod list;
mod static_;

pub use cached::read_cached;
pub use document::{DocumentFault, read_document};
pub use fault::{CachedFault, ManifestFault, ManifestFile, StaticFault, SystemFault};
pub use laws::{limits, lists_are_made_of_entries};
pub use list::{ENTRY_LIMIT, LIST_LIMIT, ListFault, PinnedList};
pub use pkg_names::Pinned;
pub use static_::{read_static, texts_stand_for_what_is_read};

#[cfg(test)]
mod tests;
