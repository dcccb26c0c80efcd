//! The program's calls: `run` serves a script's lanes over a store and prints the history, `merkle` prints the root
//! of a file, and `read_words` tells which of them the words ask for.
#![tactic(auto)]

mod hashing;
mod input;
mod output;
mod print;
mod running;
mod words;

pub use hashing::{MerkleStatus, merkle};
pub use running::{Ended, Status, run};
pub use words::{BadWords, Command, read_words};
