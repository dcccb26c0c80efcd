//! The pieces that lines are made of.

ghost use Rattle.std.specs.Prelude.{◌≡◌, ◌++◌, codes, OnOk};
ghost use Rattle.std.specs.Fmt.{decimal};
ghost use Rattle.hex.specs.Hex.{encode_lower};
ghost use Rattle.pkg_names.specs.NameAndVariant.{path_text};
ghost use Rattle.pkg_names.specs.Root.{root_text};
ghost use Rattle.script_lang.specs.Ends.{slot_text, image_text, manifest_text, miss_text, rotten_text};
ghost use Rattle.script_lang.specs.Text.{file_text};

use abr_record::Slot;
use image_layout::ImageKind;
use pkg_names::{FilePath, PackagePath, Root, write_root};
use std::alloc::{AllocError, Global};
use store_model::Miss;
use system_lists::ManifestFile;

pub(crate) fn slot_name(slot: Slot) -> &'static [u8]
    ensures { result.now ≡ slot_text slot }
{
    match slot {
        Slot::A => b"A",
        Slot::B => b"B",
        Slot::R => b"R",
    }
}

pub(crate) fn image_name(image: ImageKind) -> &'static [u8]
    ensures { result.now ≡ image_text image }
{
    match image {
        ImageKind::Zbi => b"zbi",
        ImageKind::Vbmeta => b"vbmeta",
    }
}

pub(crate) fn manifest_name(file: ManifestFile) -> &'static [u8]
    ensures { result.now ≡ manifest_text file }
{
    match file {
        ManifestFile::Epoch => b"epoch.json",
        ManifestFile::Packages => b"packages.json",
        ManifestFile::Images => b"images.json",
    }
}

pub(crate) fn miss_name(why: Miss) -> &'static [u8]
    ensures { result.now ≡ miss_text why }
{
    match why {
        Miss::Absent => b"absent",
        Miss::Read => b"read",
        Miss::Memory => b"memory",
    }
}

// A word, and a number behind it.
pub(crate) fn push_counted(
    alloc: Global,
    out: &mut Vec<u8>,
    word: &str,
    number: u64,
) -> Result<(), AllocError>
    ensures { OnOk result (out.new.items ≡ out.old.items ++ (word.now ++ decimal number)) }
{
    let mut line = String::new(alloc);
    write!(line, "{word}{number}")?;
    out.extend_from_slice(line.as_bytes())
}

// A word, and a root behind it.
pub(crate) fn push_rooted(out: &mut Vec<u8>, word: &[u8], root: &Root) -> Result<(), AllocError>
    ensures { OnOk result (out.new.items ≡ out.old.items ++ (word.now ++ root_text root.now)) }
{
    let mut digits = [0u8; 64];
    write_root(root, &mut digits);
    out.extend_from_slice(word)?;
    out.extend_from_slice(&digits)
}

// A word, and a slot behind it.
pub(crate) fn push_slotted(out: &mut Vec<u8>, word: &[u8], slot: Slot) -> Result<(), AllocError>
    ensures { OnOk result (out.new.items ≡ out.old.items ++ (word.now ++ slot_text slot)) }
{
    out.extend_from_slice(word)?;
    out.extend_from_slice(slot_name(slot))
}

// That the bytes which were read have another root.
pub(crate) fn push_rotten(out: &mut Vec<u8>, root: &Root, got: &Root) -> Result<(), AllocError>
    ensures { OnOk result (out.new.items ≡ out.old.items ++ rotten_text root.now got.now) }
{
    push_rooted(out, b"rotten ", root)?;
    push_rooted(out, b" ", got)
}

// A word, and a package path behind it.
pub(crate) fn push_path(
    out: &mut Vec<u8>,
    word: &[u8],
    path: &PackagePath,
) -> Result<(), AllocError>
    ensures { OnOk result (out.new.items ≡ out.old.items ++ (word.now ++ path_text path.now)) }
{
    out.extend_from_slice(word)?;
    out.extend_from_slice(path.name())?;
    out.extend_from_slice(b"/")?;
    out.extend_from_slice(path.variant())
}

// A word, and a file of a directory behind it.
pub(crate) fn push_file(
    alloc: Global,
    out: &mut Vec<u8>,
    word: &str,
    dir: u64,
    file: &FilePath,
) -> Result<(), AllocError>
    ensures { OnOk result (out.new.items ≡ out.old.items ++ (word.now ++ file_text dir file.now)) }
{
    push_counted(alloc, out, word, dir)?;
    out.extend_from_slice(b" ")?;
    out.extend_from_slice(file.as_slice())
}

// The digits of bytes.
pub(crate) fn push_hex(alloc: Global, out: &mut Vec<u8>, bytes: &[u8]) -> Result<(), AllocError>
    ensures { OnOk result (out.new.items ≡ out.old.items ++ encode_lower bytes.now) }
{
    let digits = hex::encode(alloc, bytes)?;
    out.extend_from_slice(digits.as_bytes())
}
