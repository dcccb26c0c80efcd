//! The script language: requests of lanes, a line each. `docs/formats.md` of the repository has it.

ghost use Rattle.std.specs.Prelude.{◌≡◌, ◌≤◌, ◌⊎◌, Ok, Err, IfOk, IfErr, length};
ghost use Rattle.script_lang.specs.declared.request.LineFault.{LineFault as LineFaultOf};
ghost use Rattle.script_lang.specs.Requests.{line_in};
ghost use Rattle.script_lang.specs.declared.script.ScriptRefusal.TheVariants as refusals;
ghost use Rattle.script_lang.specs.Scripts.{IsScript, IsRefused, IsGreatestLane};

use crate::request::{LineFault, Request, read_line};
use pkg_names::text::next_line;
use std::alloc::{AllocFailed, Global};
use std::marker::Model;

/// The most bytes of a script.
pub const SCRIPT_LIMIT: usize = 1_048_576;

/// The most requests of a script.
pub const REQUEST_LIMIT: usize = 4096;

/// Why a text is no script.
#[derive(Clone, Copy, Debug, PartialEq, Eq)]
pub enum ScriptRefusal {
    /// It has more than [`SCRIPT_LIMIT`] bytes.
    TooLong,
    /// The line with this number, counted from 1, is the first bad one, for this.
    Line { number: u32, why: LineFault },
    /// The line with this number is the first bad one: it asks for one request more than [`REQUEST_LIMIT`].
    TooMany { number: u32 },
    NoMemory,
}

impl<T: Drop> From<AllocFailed<T>> for ScriptRefusal {
    ghost from_gives = { λ _ e. e ≡ refusals.NoMemory };

    fn from(_e: AllocFailed<T>) -> ScriptRefusal {
        ScriptRefusal::NoMemory
    }
}

/// The requests of a script, in line order.
#[derive(Debug, Drop)]
pub struct Script {
    requests: Vec<Request>,
}

impl Model for Script {
    ghost use Rattle.std.specs.Prelude.{List};
    ghost use Rattle.script_lang.specs.declared.request.Request.{Request};

    ghost Value = { List Request };

    ghost view = { λ s. s.requests.items };
}

impl Script {
    /// The greatest lane that a request has, and 0 without a request.
    pub fn lanes(&self) -> u32
        ensures { IsGreatestLane self.now result }
    {
        let mut lanes = 0;
        for request in self.requests.iter() {
            lanes = greater(lanes, request.lane);
        }
        lanes
    }

    pub fn requests(&self) -> &[Request]
        ensures { result.now ≡ self.now }
    {
        &self.requests
    }
}

fn greater(a: u32, b: u32) -> u32
    ensures left { a ≤ result }
    ensures right { b ≤ result }
    ensures one { (result ≡ a) ⊎ (result ≡ b) }
{
    if a < b { b } else { a }
}

/// Reads a script.
pub fn read_script(alloc: Global, text: &[u8]) -> Result<Script, ScriptRefusal>
    ensures found { IfOk result (IsScript text.now) }
    ensures refused { IfErr result (λ why. (why ≡ refusals.NoMemory) ⊎ IsRefused text.now why) }
{
    if text.len() > SCRIPT_LIMIT {
        return Err(ScriptRefusal::TooLong);
    }
    read_lines(alloc, text)
}

fn read_lines(alloc: Global, text: &[u8]) -> Result<Script, ScriptRefusal>
    requires { length text.now ≤ SCRIPT_LIMIT }
    ensures found { IfOk result (IsScript text.now) }
    ensures refused { IfErr result (λ why. (why ≡ refusals.NoMemory) ⊎ IsRefused text.now why) }
{
    let mut requests = Vec::new(alloc);
    let mut rest = text;
    let mut number = 0u32;
    while !rest.is_empty() {
        let (line, after) = next_line(rest);
        number += 1;
        match request_at(alloc, number, line)? {
            None => {}
            Some(request) => {
                if requests.len() >= REQUEST_LIMIT {
                    return Err(ScriptRefusal::TooMany { number });
                }
                requests.push(request)?;
            }
        }
        rest = after;
    }
    Ok(Script { requests })
}

fn request_at(alloc: Global, number: u32, line: &[u8]) -> Result<Option<Request>, ScriptRefusal>
    ensures found { IfOk result (λ request. line_in number line.now ≡ Ok request) }
    ensures refused { IfErr result (λ refusal. (refusal ≡ refusals.NoMemory)
        ⊎ ((why : LineFaultOf) × (refusal ≡ refusals.Line number why) × (line_in number line.now ≡ Err why))) }
{
    match read_line(alloc, number, line) {
        Ok(request) => Ok(request),
        Err(LineFault::NoMemory) => Err(ScriptRefusal::NoMemory),
        Err(why) => Err(ScriptRefusal::Line { number, why }),
    }
}
