//! The system package.

ghost use Rattle.std.specs.Prelude.{◌≡◌, ◌∷◌, [], IfOk, length};
ghost use Rattle.pkg_names.specs.FileText.{IsFile};
ghost use Rattle.pkg_merkle.specs.Merkle.{merkle_root};
ghost use Rattle.meta_contents.specs.Contents.{text_of};
ghost use Rattle.far_archive.specs.Written.{listed};
ghost use Rattle.first_store.specs.Start.{outer_files, inner_files, system_meta};

use far_archive::{FarEntry, WriteFault, write_far};
use pkg_merkle::root_of;
use pkg_names::{Bytes, FileFault, read_file, write_root};
use std::alloc::{AllocError, Global};

const CONTENTS_NAME: &[u8] = b"meta/contents";

const PACKAGE_NAME: &[u8] = b"meta/package";

// The line of the static list.
fn contents_text(alloc: Global) -> Result<Vec<u8>, AllocError>
    ensures { IfOk result (λ text. text.items ≡ text_of outer_files) }
{
    let mut digits = [0u8; 64];
    write_root(&root_of(b""), &mut digits);
    let mut text = b"data/static_packages=".to_vec(alloc)?;
    text.extend_from_slice(&digits)?;
    text.push(b'\n')?;
    Ok(text)
}

fn entry(alloc: Global, name: &[u8], bytes: Vec<u8>) -> Result<FarEntry, AllocError>
    requires { IsFile name.now }
    ensures name { IfOk result (λ entry. entry.name ≡ name.now) }
    ensures bytes { IfOk result (λ entry. entry.bytes ≡ bytes.items) }
{
    match read_file(alloc, name) {
        Ok(name) => Ok(FarEntry {
            name,
            bytes: Bytes::make(bytes),
        }),
        Err(FileFault::NoMemory) => Err(AllocError),
        Err(FileFault::BadFile) => unreachable!(),
    }
}

fn entries(alloc: Global) -> Result<Vec<FarEntry>, AllocError>
    ensures { IfOk result (λ entries. listed entries.items ≡ inner_files) }
{
    let about = b"{\"name\":\"system_image\",\"version\":\"0\"}".to_vec(alloc)?;
    let contents = entry(alloc, CONTENTS_NAME, contents_text(alloc)?)?;
    let package = entry(alloc, PACKAGE_NAME, about)?;
    Ok(vec![in alloc; contents, package]?)
}

/// The meta blob of the system package.
pub(crate) fn system_meta(alloc: Global) -> Result<Vec<u8>, AllocError>
    ensures { IfOk result (λ bytes. bytes.items ≡ system_meta) }
{
    let entries = entries(alloc)?;
    match write_far(alloc, &entries) {
        Ok(bytes) => Ok(bytes),
        Err(WriteFault::NoMemory) => Err(AllocError),
        Err(WriteFault::Order { .. }) => unreachable!(),
    }
}
