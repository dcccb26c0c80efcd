//! Files that are made from numbers.

ghost use Rattle.std.specs.Prelude.{◌≡◌, ◌<◌, IfOk, vec_len};

use far_archive::FarEntry;
use pkg_names::{Bytes, read_file};
use std::alloc::Global;
use std::test::Fail;

/// So many files of one byte each, in the order of their paths: `<folder>/0000` and so on.
pub fn numbered_files(alloc: Global, folder: &[u8], count: u32) -> Result<Vec<FarEntry>, Fail>
    requires { count < 10_000 }
    ensures { IfOk result (λ files. vec_len files ≡ count) }
{
    let mut files = Vec::new(alloc);
    for number in 0..count {
        files.push(numbered_file(alloc, folder, number)?)?;
    }
    Ok(files)
}

// The file of a number. Its byte is the number's last one.
fn numbered_file(alloc: Global, folder: &[u8], number: u32) -> Result<FarEntry, Fail>
    requires { number < 10_000 }
{
    let mut name = Vec::from_slice(alloc, folder)?;
    name.push(b'/')?;
    for unit in [1000, 100, 10, 1_u32] {
        name.push(b'0' + digit_of(number, unit))?;
    }
    Ok(FarEntry {
        name: read_file(alloc, &name)?,
        bytes: Bytes::make(Vec::from_slice(alloc, &number.to_le_bytes()[..1])?),
    })
}

// The last digit of so many units.
fn digit_of(number: u32, unit: u32) -> u8
    ensures { result < 10 }
{
    (number.checked_div(unit).unwrap_or(0) % 10) as u8
}
