//! Blobs on pages: a blob comes in pieces and is cut into pages, which are written and read.
//!
//! `docs/blobs.md` of the repository has the rules.
#![tactic(auto)]

mod draft;
mod laws;
mod part;
mod read;
mod tail;
mod write;

pub use draft::{Draft, DraftEnd, KEPT_LIMIT, Long, PAGE_SIZE, PIECE_LIMIT, Whole};
pub use laws::{blobs_are_their_pages, landings_write_each_page_once, limits};
pub use part::read_part;
pub use read::{read_blob, root_of_blob};
pub use write::{settle_blob, write_full};

#[cfg(test)]
mod tests;
