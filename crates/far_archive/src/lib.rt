//! FAR archives: a directory of files within one text of bytes.
//!
//! `docs/archive.md` has the format, and what is proved of the reader and the writer.
#![tactic(auto)]

mod archive;
mod entries;
mod fault;
mod fields;
mod judging;
mod write;

pub use archive::{Archive, FarRefusal, read_far, texts_stand_or_have_a_fault};
pub use fault::{FarFault, WriteFault};
pub use write::{FarEntry, write_far};
