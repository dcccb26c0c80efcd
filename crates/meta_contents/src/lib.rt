//! What a package says of itself: the list of its outer files, and its name.
//!
//! `docs/contents.md` has the two grammars, and what is proved of their readers.
#![tactic(auto)]

mod contents;
mod fault;
mod indexed;
mod laws;
mod package;
mod reading;

pub use contents::{Contents, ContentsLine, LINE_LIMIT, is_in_meta, write_contents};
pub use fault::{AddFault, ContentsFault, PackageNameFault};
pub use laws::limits;
pub use package::{PackageName, read_package};
pub use reading::{read_contents, texts_stand_for_what_is_read};
