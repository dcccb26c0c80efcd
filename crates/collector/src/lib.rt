//! What a collection removes: the stored blobs that no protected package names. Counts that are kept tell
//! it at once; the module `slow` finds it from the books of all protected packages.
#![tactic(auto)]

mod counts;
mod laws;
mod names;
pub mod slow;

pub use counts::Counts;
pub use laws::{counts_follow_packages, zeros_are_unprotected};
pub use names::names_of;
