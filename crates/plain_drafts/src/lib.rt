//! What lanes put together at a store in memory: blobs that are fetched, and the images of the slot that is filled.
#![tactic(auto)]

mod drafts;
mod images;

pub use drafts::Drafts;
pub use images::Images;
