//! Package URLs: where a package is found, and which one it is.
//!
//! `docs/package_urls.md` has the grammar, and what is proved of the reader and the writer.
#![tactic(auto)]

mod fault;
mod laws;
mod parts;
mod reading;
mod url;
mod writing;

pub use fault::UrlFault;
pub use laws::{limits, texts_are_cut_so, texts_spell_a_url_or_have_a_fault};
pub use parts::is_host;
pub use reading::read_url;
pub use url::{HOST_LIMIT, Url};
pub use writing::write_url;

#[cfg(test)]
mod tests;
