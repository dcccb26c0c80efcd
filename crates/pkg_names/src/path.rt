ghost use Rattle.std.specs.Prelude.{◌≡◌, ◌⊎◌, ◌↔◌, IfOk, IsErrOf, IsTrue, Ok, Err};
ghost use Rattle.pkg_names.specs.NameAndVariant.{NameAndVariant, byte_in_name, IsName, IsPath, path_text, path_eq, Spells};
ghost use Rattle.pkg_names.specs.declared.path.PathFault.TheVariants.{NoMemory};

use crate::lists::Bytes;
use crate::text::cut_at;
use std::alloc::{AllocError, Global};
use std::marker::Model;

/// A package's path: its name and its variant. Contracts see the two byte lists.
#[derive(Debug, PartialEq, Eq, Drop)]
pub struct PackagePath {
    name: Bytes,
    variant: Bytes,
}

impl Model for PackagePath {
    ghost use Rattle.pkg_names.specs.NameAndVariant.{NameAndVariant, IsName};

    ghost Value = { NameAndVariant };

    ghost view = { λ p. record { name = p.name; variant = p.variant } };

    ghost invariant = { λ p. IsName p.name × IsName p.variant };

    ghost inverse = { λ p. record { name = p.name; variant = p.variant } };
}

impl PackagePath {
    pub fn name(&self) -> &[u8]
        ensures name { result.now ≡ self.now.name }
        ensures valid { IsPath self.now }
    {
        self.name.as_slice()
    }

    pub fn variant(&self) -> &[u8]
        ensures variant { result.now ≡ self.now.variant }
        ensures valid { IsPath self.now }
    {
        self.variant.as_slice()
    }

    /// An equal path.
    pub fn try_copy(&self, alloc: Global) -> Result<PackagePath, AllocError>
        ensures same { IfOk result (λ path. path ≡ self.now) }
    {
        Ok(PackagePath {
            name: self.name.try_copy(alloc)?,
            variant: self.variant.try_copy(alloc)?,
        })
    }
}

/// Why a text is no package path.
#[derive(Clone, Copy, Debug, PartialEq, Eq)]
pub enum PathFault {
    /// The name or the variant is none, or a second slash stands there.
    BadName,
    NoMemory,
}

impl From<AllocError> for PathFault {
    ghost from_gives = { λ _ e. e ≡ NoMemory };

    fn from(_e: AllocError) -> PathFault {
        PathFault::NoMemory
    }
}

/// Reads `<name>` or `<name>/<variant>`. The variant is `0` where none is written.
pub fn read_path(alloc: Global, text: &[u8]) -> Result<PackagePath, PathFault>
    ensures found { IfOk result (λ path. Spells text.now path) }
    ensures only { (path : NameAndVariant) → Spells text.now path →
        (result ≡ Ok path) ⊎ (result ≡ Err NoMemory) }
    ensures bad_name { IsErrOf result PathFault.BadName → (path : NameAndVariant) → ¬ Spells text.now path }
{
    match cut_at(text, b'/') {
        Some((name, variant)) => path_of(alloc, name, variant),
        None => path_of(alloc, text, b"0"),
    }
}

// The path of these two parts, if they are names.
fn path_of(alloc: Global, name: &[u8], variant: &[u8]) -> Result<PackagePath, PathFault>
    ensures found { IfOk result (λ path. path ≡ record { name = name.now; variant = variant.now }) }
    ensures valid { IfOk result IsPath }
    ensures bad_name { IsErrOf result PathFault.BadName → ¬ (IsName name.now × IsName variant.now) }
{
    if !is_name(name) || !is_name(variant) {
        return Err(PathFault::BadName);
    }
    Ok(PackagePath {
        name: Bytes::make(Vec::from_slice(alloc, name)?),
        variant: Bytes::make(Vec::from_slice(alloc, variant)?),
    })
}

/// The longest name or variant, in bytes.
pub const NAME_LIMIT: usize = 255;

/// One path is another exactly where the test says so.
pub fn paths_are_compared()
    ensures { (path other : NameAndVariant) → IsTrue (path_eq path other) ↔ (path ≡ other) }
{}

fn is_name(text: &[u8]) -> bool
    ensures { IsTrue result ↔ IsName text.now }
{
    !text.is_empty()
        && text.len() <= NAME_LIMIT
        && text.iter().all(|c| is_name_byte(*c))
        && text != b".".as_slice()
        && text != b"..".as_slice()
}

fn is_name_byte(c: u8) -> bool
    ensures { result ≡ byte_in_name c }
{
    matches!(c, b'a'..=b'z' | b'0'..=b'9' | b'-' | b'_' | b'.')
}

/// Writes `<name>/<variant>`.
pub fn write_path(alloc: Global, path: &PackagePath) -> Result<Bytes, AllocError>
    ensures text { IfOk result (λ bytes. bytes ≡ path_text path.now) }
    ensures valid { IsPath path.now }
{
    let mut out = Vec::new(alloc);
    out.extend_from_slice(path.name())?;
    out.push(b'/')?;
    out.extend_from_slice(path.variant())?;
    Ok(Bytes::make(out))
}
