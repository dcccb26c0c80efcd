//! The Merkle root of a blob (`docs/merkle.md`).
#![tactic(auto)]

mod binding;
mod block;
mod hasher;
mod laws;
mod level;
mod tree;

pub use binding::{Binding, same_or_collision};
pub use hasher::{BYTES_LIMIT, Hasher, TooLong, root_of};
pub use laws::{blobs_have_roots, limits, roots_bind_blobs};
