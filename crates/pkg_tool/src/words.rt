//! The words of a command.

ghost use Rattle.std.specs.Prelude.{◌≡◌, ◌↔◌, ◌∷◌, [], map, true, is_some, IsOk, IfOk, IfSome};
ghost use Rattle.std.specs.String.{string_bytes};
ghost use Rattle.pkg_tool.specs.Words.{are_run_words, are_three_after, are_words, is_one_after, is_word, words_of};

/// What the words ask for, and what they name.
#[derive(Clone, Copy, Debug)]
pub enum Command<'a> {
    /// `run IMAGE REPO SCRIPT`
    Run {
        image: &'a str,
        repo: &'a str,
        script: &'a str,
    },
    /// `merkle FILE`
    Merkle {
        file: &'a str,
    },
    /// `publish FOLDER REPO PATH`
    Publish {
        folder: &'a str,
        repo: &'a str,
        path: &'a str,
    },
}

/// The words are no command.
#[derive(Clone, Copy, Debug, PartialEq, Eq)]
pub struct BadWords;

/// Reads the words of a command: its name, and as many words as it has arguments, none empty and none beginning
/// with `-`.
pub fn read_words<'a>(words: &'a [String]) -> Result<Command<'a>, BadWords>
    ensures exact { IsOk result ↔ (are_words (map string_bytes words.now) ≡ true) }
    ensures same { IfOk result (λ command. words_of command ≡ map string_bytes words.now) }
{
    if let Some((image, repo, script)) = three_after(words, "run") {
        return Ok(Command::Run {
            image,
            repo,
            script,
        });
    }
    if let Some((folder, repo, path)) = three_after(words, "publish") {
        return Ok(Command::Publish { folder, repo, path });
    }
    match one_after(words, "merkle") {
        Some(file) => Ok(Command::Merkle { file }),
        None => Err(BadWords),
    }
}

/// The words are `run` and three more, none empty and none beginning with `-`.
pub(crate) fn are_run(words: &[String]) -> bool
    ensures { result ≡ are_run_words (map string_bytes words.now) }
{
    three_after(words, "run").is_some()
}

// The three words behind this command.
fn three_after<'a>(words: &'a [String], name: &str) -> Option<(&'a str, &'a str, &'a str)>
    ensures exact { is_some result ≡ are_three_after name.now (map string_bytes words.now) }
    ensures same { IfSome result (λ found.
        map string_bytes words.now ≡ name.now ∷ found.0.now ∷ found.1.now ∷ found.2.now ∷ []) }
{
    match words {
        [command, first, second, third] => {
            if command.as_str() == name
                && may_name(first.as_bytes())
                && may_name(second.as_bytes())
                && may_name(third.as_bytes())
            {
                Some((first.as_str(), second.as_str(), third.as_str()))
            } else {
                None
            }
        }
        _ => None,
    }
}

// The word behind this command.
fn one_after<'a>(words: &'a [String], name: &str) -> Option<&'a str>
    ensures exact { is_some result ≡ is_one_after name.now (map string_bytes words.now) }
    ensures same { IfSome result (λ found. map string_bytes words.now ≡ name.now ∷ found.now ∷ []) }
{
    match words {
        [command, word] => {
            if command.as_str() == name && may_name(word.as_bytes()) {
                Some(word.as_str())
            } else {
                None
            }
        }
        _ => None,
    }
}

fn may_name(word: &[u8]) -> bool
    ensures { result ≡ is_word word.now }
{
    match word {
        [] => false,
        [first, ..] => *first != b'-',
    }
}
