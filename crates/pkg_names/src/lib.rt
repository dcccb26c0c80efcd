//! The names that everything else speaks of: roots of blobs and paths of packages, the small lists
//! that contracts see as lists, and the streams that scripts come from and texts go to.
//!
//! `docs/formats.md` of the repository has the grammars.
#![tactic(auto)]

mod file;
mod laws;
mod lists;
pub mod numbers;
mod path;
mod pinned;
mod root;
pub mod streams;
pub mod text;

pub use file::{
    FILE_PATH_LIMIT, FileFault, FilePath, SEGMENT_LIMIT, files_are_tested, is_file, read_file,
};
pub use laws::limits;
pub use lists::{Bytes, Items, Roots, Texts};
pub use path::{NAME_LIMIT, PackagePath, PathFault, paths_are_compared, read_path, write_path};
pub use pinned::Pinned;
pub use root::{Root, RootFault, read_root, roots_have_texts, write_root};
