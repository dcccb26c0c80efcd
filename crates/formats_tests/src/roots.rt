//! Roots that another program computed, and blobs in pieces.

ghost use Rattle.std.specs.Prelude.{◌≡◌, ◌<◌, IfOk, vec_len};

use crate::common::beside_copy;
use pkg_merkle::{BYTES_LIMIT, Binding, Hasher, TooLong, root_of};
use pkg_names::{Root, read_root};
use std::alloc::{AllocError, Global};
use std::process::Abort;
use std::test::Fail;

// A blob whose bytes repeat only after many blocks.
fn sample(alloc: Global, count: u32) -> Result<Vec<u8>, AllocError>
    ensures { IfOk result (λ bytes. vec_len bytes ≡ count) }
{
    let mut bytes = Vec::new(alloc);
    for i in 0..count {
        bytes.push(((7 * (i % 251) + 3 * (i / 256 % 251) + 5) % 251) as u8)?;
    }
    Ok(bytes)
}

// The root of a blob that comes in pieces of this size.
fn in_pieces(rt: &impl Abort, bytes: &[u8], size: usize) -> Root
    requires { 0 < size }
{
    let mut hasher = Hasher::default();
    for piece in bytes.chunks(size) {
        assert_eq!(rt; hasher.update(piece), Ok(()));
    }
    hasher.finish()
}

const TWO_LEVELS: &[u8; 64] = b"272b4297ac785a0e69adda89d6771bc0c917d26189b8c4c605b5a6ec276da64a";

// 256 data blocks have one block of hashes, and one byte more makes two, and a second level of them.
#[test]
fn at_once(rt: HostRuntime) -> Result<(), Fail> {
    let hi = b"df6d2bb7dac8a27c99a0ac498fabc106e94eab93dc88d40b2e313aeae33cb5a6";
    assert_eq!(rt; root_of(b"hi"), read_root(hi)?);
    for (count, root) in [
        (
            0,
            b"15ec7bf0b50732b49f8228e07d24365338f9e3ab994b00af08e5a3bffe55fd8b",
        ),
        (
            8191,
            b"6d33573af0b3a6644fb24d575825851fad416c6bb4c57ffc36a5cce7ca7c3a49",
        ),
        (
            8192,
            b"b7c69c4a973fd0359ffcaba1d5ef55ee5151dd48d0afb040c81ec55ca0108e16",
        ),
        (
            8193,
            b"e44008277f50f626211066aebf4415a2f225502157e6c4de4b82436d592ad291",
        ),
        (
            2_097_152,
            b"970ab98f941e7dc764be91d515d8e3a8714efb1e969ca4d76e13780f2247f2e7",
        ),
        (2_097_153, TWO_LEVELS),
    ] {
        let bytes = sample(rt.alloc(), count)?;
        assert!(rt; bytes.len() <= BYTES_LIMIT);
        assert_eq!(rt; root_of(&bytes), read_root(root)?, "{count} bytes");
    }
    Ok(())
}

#[test]
fn pieces(rt: HostRuntime) -> Result<(), Fail> {
    let bytes = sample(rt.alloc(), 2_097_153)?;
    for size in [1, 13, 4096, 8192, 65_536] {
        assert_eq!(rt;
            in_pieces(&rt, &bytes, size),
            read_root(TWO_LEVELS)?,
            "pieces of {size}"
        );
    }
    Ok(())
}

#[test]
fn limit(rt: HostRuntime) -> Result<(), Fail> {
    let piece = sample(rt.alloc(), 65_536)?;
    let mut hasher = Hasher::new();
    for _ in 0..512 {
        assert_eq!(rt; hasher.update(&piece), Ok(()));
    }
    assert_eq!(rt; hasher.update(b"x"), Err(TooLong));
    assert_eq!(rt; hasher.update(&piece), Err(TooLong));
    assert_eq!(rt; hasher.update(b""), Ok(()));
    let whole = b"53bfc3735d932e2cb4f1a2d1f5f0a12889f9eda2cd8da77d16a4b194804f5af1";
    assert_eq!(rt; hasher.finish(), read_root(whole)?);
    Ok(())
}

#[test]
fn equal_blobs(rt: HostRuntime) -> Result<(), Fail> {
    assert_eq!(rt; beside_copy(rt.alloc(), b"hi")?, Binding::Same);
    for count in [0, 20_000, 2_097_153] {
        let bytes = sample(rt.alloc(), count)?;
        assert!(rt; bytes.len() <= BYTES_LIMIT);
        assert_eq!(rt;
            beside_copy(rt.alloc(), &bytes)?,
            Binding::Same,
            "{count} bytes"
        );
    }
    Ok(())
}
