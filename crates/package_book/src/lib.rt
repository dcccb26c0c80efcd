//! The books of packages: the files within a meta blob and those that it lists, and the blobs that a
//! package names by them.
//!
//! `docs/books.md` has the rules, and what is proved of them.
#![tactic(auto)]

mod book;
mod fault;
mod laws;
mod names;
mod reading;
mod shelf;

pub use book::{Book, META_LIMIT};
pub use fault::{NotABook, PackageFault};
pub use laws::{books_are_read, limits, unprotected_are_unnamed};
pub use names::{names_alone, names_come_from_books, names_stand_once};
pub use reading::book_of;
pub use shelf::{Shelf, Shelved};
