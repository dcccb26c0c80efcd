//! What several tests share.

ghost use Rattle.std.specs.Prelude.{◌≡◌, ◌≤◌, length, replicate, vec_len, IfOk};

use far_archive::FarEntry;
use pkg_merkle::{BYTES_LIMIT, Binding, same_or_collision};
use pkg_names::{Bytes, FileFault, Root, read_file};
use std::alloc::{AllocError, Global};

/// The text of a root.
pub const ONES: &[u8; 64] = b"1111111111111111111111111111111111111111111111111111111111111111";

/// The text of another one.
pub const TWOS: &[u8; 64] = b"abcdef0123456789abcdef0123456789abcdef0123456789abcdef0123456789";

/// An archive without files: a directory and names of no bytes, both at its end.
pub const NO_FILES: [u8; 64] = [
    200, 191, 11, 72, 173, 171, 197, 17, 48, 0, 0, 0, 0, 0, 0, 0, 68, 73, 82, 45, 45, 45, 45, 45,
    64, 0, 0, 0, 0, 0, 0, 0, 0, 0, 0, 0, 0, 0, 0, 0, 68, 73, 82, 78, 65, 77, 69, 83, 64, 0, 0, 0,
    0, 0, 0, 0, 0, 0, 0, 0, 0, 0, 0, 0,
];

/// The parts one after another.
pub fn joined(alloc: Global, parts: &[&[u8]]) -> Result<Vec<u8>, AllocError> {
    let mut out = Vec::new(alloc);
    for part in parts {
        out.extend_from_slice(part)?;
    }
    Ok(out)
}

/// The root of 32 times this byte.
pub fn root_of_byte(byte: u8) -> Root
    ensures { result.0 ≡ replicate 32 byte }
{
    Root([byte; 32])
}

/// These files as entries of an archive, each with its name and its bytes.
pub fn entries_of(alloc: Global, files: &[(&[u8], &[u8])]) -> Result<Vec<FarEntry>, FileFault>
    ensures { IfOk result (λ entries. vec_len entries ≡ length files.now) }
{
    let mut entries = Vec::new(alloc);
    for (name, bytes) in files {
        let name = read_file(alloc, name)?;
        let bytes = Bytes::make(bytes.to_vec(alloc)?);
        if entries.push(FarEntry { name, bytes }).is_err() {
            return Err(FileFault::NoMemory);
        }
    }
    Ok(entries)
}

/// What a blob and a copy of it show.
pub fn beside_copy(alloc: Global, blob: &[u8]) -> Result<Binding, AllocError>
    requires { length blob.now ≤ BYTES_LIMIT }
    ensures { IfOk result (λ binding. binding ≡ Binding.Same) }
{
    let copy = Vec::from_slice(alloc, blob)?;
    same_or_collision(alloc, blob, &copy)
}
