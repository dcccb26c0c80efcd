//! The hash of one block.

ghost use Rattle.std.specs.Prelude.{◌≡◌, ◌<◌, ◌≤◌, ◌^◌, ℕ, List, ◌++◌, length, replicate};
ghost use Rattle.sha2.specs.Hashers.{Holds256};
ghost use Rattle.sha2.specs.Sha256.{sha256};
ghost use Rattle.pkg_merkle.specs.Merkle.{head, told_size, block_input};

use sha2::{Digest, Sha256};

/// The bytes of a whole block.
pub(crate) const BLOCK: usize = 8192;

const ZEROS: usize = 64;

/// The state of SHA-256 after the head of a block.
pub(crate) fn opened(level: usize, index: usize, size: usize) -> Sha256
    requires index { index < 2 ^ 51 }
    requires size { size ≤ BLOCK }
    ensures { Holds256 result (head level index size) }
{
    let mut hasher = Sha256::new();
    hasher.update(((BLOCK * index | level) as u64).to_le_bytes());
    hasher.update((size as u32).to_le_bytes());
    hasher
}

/// Adds `count` zero bytes.
pub(crate) fn add_zeros(hasher: &mut Sha256, count: usize)
    ensures { (m : List ℕ) → Holds256 hasher.old m → Holds256 hasher.new (m ++ replicate count 0) }
{
    let zeros = [0u8; ZEROS];
    let mut left = count;
    while left > 0 {
        let part = left.min(ZEROS);
        hasher.update(&zeros[..part]);
        left -= part;
    }
}

/// The size in the head: a data block's own, and that of a whole block for a block of hashes.
pub(crate) fn told_size(level: usize, contents: &[u8]) -> usize
    ensures { result ≡ told_size level contents.now }
{
    if level == 0 { contents.len() } else { BLOCK }
}

/// The hash of block `index` of this level, with these contents.
pub(crate) fn block_hash(level: usize, index: usize, contents: &[u8]) -> [u8; 32]
    requires index { index < 2 ^ 51 }
    requires size { length contents.now ≤ BLOCK }
    ensures { result ≡ sha256 (block_input level index contents.now) }
{
    let mut hasher = opened(level, index, told_size(level, contents));
    hasher.update(contents);
    add_zeros(&mut hasher, (BLOCK - contents.len()) % BLOCK);
    hasher.finalize()
}
