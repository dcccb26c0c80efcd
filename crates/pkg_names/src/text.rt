//! Places and lines in texts.

ghost use Rattle.std.specs.Prelude.{◌≡◌, ℕ, ◌+◌, ◌<◌, ◌⊎◌, List, [], ◌∷◌, ◌++◌, length, take, drop, slice_index, All, IfSome, IfNone};
ghost use Rattle.pkg_names.specs.Text.{line_feed, HasNo, lines_of, text_of_lines};

/// Where the byte stands first.
pub fn first_place(text: &[u8], byte: u8) -> Option<usize>
    ensures found { IfSome result (λ at. (at < length text.now) × (slice_index text.now at ≡ byte)) }
    ensures first { IfSome result (λ at. HasNo byte (take at text.now)) }
    ensures none { IfNone result (HasNo byte text.now) }
{
    text.iter().position(|c| *c == byte)
}

/// Where the byte stands last.
pub fn last_place(text: &[u8], byte: u8) -> Option<usize>
    ensures found { IfSome result (λ at. (at < length text.now) × (slice_index text.now at ≡ byte)) }
    ensures last { IfSome result (λ at. HasNo byte (drop (at + 1) text.now)) }
    ensures none { IfNone result (HasNo byte text.now) }
{
    text.iter().rposition(|c| *c == byte)
}

/// What stands before the first place of the byte, and what follows it.
pub fn cut_at(text: &[u8], byte: u8) -> Option<(&[u8], &[u8])>
    ensures found { IfSome result (λ parts. text.now ≡ parts.0.now ++ byte ∷ parts.1.now) }
    ensures first { IfSome result (λ parts. HasNo byte parts.0.now) }
    ensures none { IfNone result (HasNo byte text.now) }
{
    let at = first_place(text, byte)?;
    Some((&text[..at], &text[at + 1..]))
}

/// The first line, and what follows its line feed.
pub fn next_line(text: &[u8]) -> (&[u8], &[u8])
    requires { 0 < length text.now }
    ensures lines { lines_of text.now ≡ result.0.now ∷ lines_of result.1.now }
    ensures line { HasNo line_feed result.0.now }
    ensures text { (text.now ≡ result.0.now ++ line_feed ∷ result.1.now)
        ⊎ ((text.now ≡ result.0.now) × (result.1.now ≡ [])) }
    ensures shorter { length result.1.now < length text.now }
{
    match cut_at(text, b'\n') {
        Some((line, after)) => (line, after),
        None => (text, b""),
    }
}

/// A text is its lines, each with a line feed behind it, which the last one may lack. No line has a
/// line feed, and no text has other lines.
pub fn texts_are_their_lines()
    ensures none { (text : List ℕ) → All (HasNo line_feed) (lines_of text) }
    ensures whole { (text : List ℕ) → (text ≡ text_of_lines (lines_of text))
        ⊎ (text ++ line_feed ∷ [] ≡ text_of_lines (lines_of text)) }
    ensures only { (lines : List (List ℕ)) → All (HasNo line_feed) lines → lines_of (text_of_lines lines) ≡ lines }
{}
