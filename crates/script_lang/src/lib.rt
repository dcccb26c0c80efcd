//! The text of a history. `docs/formats.md` of the repository has its lines.
#![tactic(auto)]

mod answers;
mod calls;
mod laws;
mod line;
mod pieces;
mod request;
mod script;
mod words;

pub use laws::{limits, lines_are_spelled, scripts_are_judged_one_way, scripts_can_be_served};
pub use line::{line_of, text_of};
pub use request::{Ask, LineFault, RETAIN_LIMIT, Request, SCRIPT_NAME_LIMIT};
pub use script::{REQUEST_LIMIT, SCRIPT_LIMIT, Script, ScriptRefusal, read_script};

#[cfg(test)]
mod tests;
