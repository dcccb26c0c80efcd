//! One level of hashes.

ghost use Rattle.std.specs.Prelude.{◌≡◌, ◌+◌, ◌*◌, ◌/◌, ◌%◌, ◌^◌, ◌<◌, ℕ, List, [], ◌++◌, length, unwrap_or};
ghost use Rattle.sha2.specs.Sha256.{sha256};
ghost use Rattle.pkg_merkle.specs.Merkle.{block_input, first_hashes};
ghost use Rattle.pkg_merkle.specs.Hasher.{LevelHolds, open_block};

use crate::block::{BLOCK, add_zeros, opened};
use sha2::{Digest, Sha256};
use std::mem;

/// The bytes of a hash.
pub(crate) const HASH: usize = 32;

/// The hashes in a whole block.
pub(crate) const HASHES: usize = 256;

/// A level above the data, of which the last block is open.
#[derive(Drop)]
pub(crate) struct Level {
    // After the head and the hashes of the open block.
    state: Sha256,
    pub(crate) last: [u8; HASH],
}

impl Level {
    /// The level of this number, with no hash yet.
    pub(crate) fn new(number: usize) -> Level
        ensures { LevelHolds number result [] }
    {
        Level {
            state: opened(number, 0, BLOCK),
            last: [0; HASH],
        }
    }

    /// Adds hash `index`, and gives the hash of the block where that makes it whole.
    pub(crate) fn add(&mut self, number: usize, index: usize, hash: &[u8; 32]) -> Option<[u8; 32]>
        requires { index < 2 ^ 51 }
        ensures grown { (bytes : List ℕ) → length bytes ≡ HASH * index
            → LevelHolds number self.old bytes
            → LevelHolds number self.new (bytes ++ hash.now) }
        ensures filled { (bytes : List ℕ) → length bytes ≡ HASH * index
            → LevelHolds number self.old bytes
            → first_hashes number (bytes ++ hash.now) ((index + 1) / HASHES)
            ≡ first_hashes number bytes (index / HASHES) ++ unwrap_or result [] }
    {
        self.state.update(hash.as_slice());
        self.last = *hash;
        if index % HASHES < HASHES - 1 {
            return None;
        }
        let next = opened(number, index / HASHES + 1, BLOCK);
        let whole = mem::replace(&mut self.state, next);
        Some(whole.finalize())
    }

    /// The hash of the open block, of a level of `count` hashes.
    pub(crate) fn close(self, number: usize, count: usize) -> [u8; 32]
        ensures { (bytes : List ℕ) → length bytes ≡ HASH * count → 0 < count % HASHES → 0 < number
            → LevelHolds number self bytes
            → result ≡ sha256 (block_input number (count / HASHES) (open_block bytes)) }
    {
        let Level { mut state, last: _ } = self;
        add_zeros(&mut state, BLOCK - HASH * (count % HASHES));
        state.finalize()
    }
}
