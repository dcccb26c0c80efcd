ghost use Rattle.std.specs.Prelude.{◌≡◌, ◌↔◌, ℕ, List, IsTrue, IsSome, IsOk, IfOk, Ok, Some};
ghost use Rattle.std.specs.Result.{result_ok};
ghost use Rattle.pkg_names.specs.declared.root.Root.{Root as RootOf};
ghost use Rattle.pkg_names.specs.Root.{root_text, is_lower_digit, IsRoot, IsRootText, root_in, root_eq};

/// The root of a blob: the Merkle root of its bytes, which names it wherever it is stored.
#[derive(Clone, Copy, Debug, PartialEq, Eq, PartialOrd, Ord, Hash)]
pub struct Root(pub [u8; 32]);

/// The text is not 64 lower-case hexadecimal digits.
#[derive(Clone, Copy, Debug, PartialEq, Eq)]
pub enum RootFault {
    BadRoot,
}

/// Reads a root from its 64 lower-case digits.
pub fn read_root(text: &[u8]) -> Result<Root, RootFault>
    ensures exact { IsOk result ↔ IsRootText text.now }
    ensures found { IfOk result (λ root. text.now ≡ root_text root) }
    ensures valid { IfOk result IsRoot }
    ensures value { result_ok result ≡ root_in text.now }
    ensures only { (root : Root) → IsRoot root → text.now ≡ root_text root → result ≡ Ok root }
{
    if !is_root_text(text) {
        return Err(RootFault::BadRoot);
    }
    let mut bytes = [0u8; 32];
    let _ = hex::decode_to_slice(text, &mut bytes);
    Ok(Root(bytes))
}

/// A text has a root exactly where it is that root's text; and one root is another exactly where the
/// test says so.
pub fn roots_have_texts()
    ensures text { (text : List ℕ) (root : RootOf) →
        (root_in text ≡ Some root) ↔ ((text ≡ root_text root) × IsRoot root) }
    ensures some { (text : List ℕ) → IsSome (root_in text) ↔ IsRootText text }
    ensures same { (root other : RootOf) → IsTrue (root_eq root other) ↔ (root ≡ other) }
{}

fn is_root_text(text: &[u8]) -> bool
    ensures { IsTrue result ↔ IsRootText text.now }
{
    text.len() == 64 && text.iter().all(|c| is_digit(*c))
}

fn is_digit(c: u8) -> bool
    ensures { result ≡ is_lower_digit c }
{
    matches!(c, b'0'..=b'9' | b'a'..=b'f')
}

/// Writes a root as its 64 lower-case digits.
pub fn write_root(root: &Root, out: &mut [u8; 64])
    ensures text { out.new ≡ root_text root.now }
{
    let _ = hex::encode_to_slice(root.0, out);
}
