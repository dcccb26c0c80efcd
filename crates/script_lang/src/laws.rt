//! The laws of the script language, each the contract of a function that does nothing.

ghost use Rattle.std.specs.Prelude.{◌≡◌, ◌↔◌, ℕ, List, Some, Ok, IsUtf8, All};
ghost use Rattle.script_lang.specs.declared.request.Request.{Request as RequestOf};
ghost use Rattle.script_lang.specs.declared.script.ScriptRefusal.{ScriptRefusal as RefusalOf};
ghost use Rattle.script_lang.specs.Requests.{line_in};
ghost use Rattle.script_lang.specs.Scripts.{IsScript, IsRefused};
ghost use Rattle.script_lang.specs.Servable.{IsServable};
ghost use Rattle.script_lang.specs.Spelling.{Asks};

use crate::request::{RETAIN_LIMIT, SCRIPT_NAME_LIMIT};
use crate::script::{REQUEST_LIMIT, SCRIPT_LIMIT};
use package_url::texts_spell_a_url_or_have_a_fault;

/// The numbers that definitions cite by name.
pub fn limits()
    ensures script { SCRIPT_LIMIT ≡ 1_048_576 }
    ensures requests { REQUEST_LIMIT ≡ 4096 }
    ensures name { SCRIPT_NAME_LIMIT ≡ 32 }
    ensures roots { RETAIN_LIMIT ≡ 4096 }
{}

/// A script asks for one list of requests. It isn't refused, and a text is refused for one reason.
pub fn scripts_are_judged_one_way()
    ensures script { (text : List ℕ) (requests others : List RequestOf) →
        IsScript text requests → IsScript text others → requests ≡ others }
    ensures never_both { (text : List ℕ) (requests : List RequestOf) (refusal : RefusalOf) →
        IsScript text requests → ¬ IsRefused text refusal }
    ensures refusal { (text : List ℕ) (refusal other : RefusalOf) →
        IsRefused text refusal → IsRefused text other → refusal ≡ other }
{}

/// A line asks for what it spells.
pub fn lines_are_spelled()
    ensures { (number : ℕ) (line : List ℕ) (request : RequestOf) →
        (line_in number line ≡ Ok (Some request)) ↔ (IsUtf8 line × (request.line ≡ number) × Asks line request) }
{
    texts_spell_a_url_or_have_a_fault();
}

/// Each request of a script can be served by a desk.
pub fn scripts_can_be_served()
    ensures { (text : List ℕ) (requests : List RequestOf) → IsScript text requests
        → All (λ (r : RequestOf). IsServable r.ask) requests }
{
    lines_are_spelled();
}
