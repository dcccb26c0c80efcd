//! The levels above the data.

ghost use Rattle.std.specs.Prelude.{◌≡◌, ◌+◌, ◌*◌, ◌/◌, ◌^◌, ◌<◌, ◌≤◌, ℕ, List, [], ◌++◌, length, drop};
ghost use Rattle.sha2.specs.Sha256.{sha256};
ghost use Rattle.pkg_merkle.specs.Merkle.{block, block_count, block_input, merkle_root, first_hashes, hashes};
ghost use Rattle.pkg_merkle.specs.Hasher.{LevelHolds, TreeHolds};

use crate::block::{BLOCK, block_hash};
use crate::level::{HASHES, Level};
use pkg_names::Root;

/// The levels above the data. A blob of at most 4096 data blocks has no more than two.
#[derive(Drop)]
pub(crate) struct Tree {
    hashes: Level,
    above: Level,
}

impl Tree {
    pub(crate) fn new() -> Tree
        ensures { TreeHolds result [] 0 }
    {
        Tree {
            hashes: Level::new(1),
            above: Level::new(2),
        }
    }

    /// Adds the hash of the data block `index`.
    fn add_hash(&mut self, index: usize, hash: &[u8; 32])
        requires { index < 2 ^ 51 }
        ensures { (bytes : List ℕ) → hash.now ≡ sha256 (block_input 0 index (block bytes index))
            → TreeHolds self.old bytes index → TreeHolds self.new bytes (index + 1) }
    {
        if let Some(whole) = self.hashes.add(1, index, hash) {
            let _ = self.above.add(2, index / HASHES, &whole);
        }
    }

    /// Adds the data block `index`.
    pub(crate) fn add_block(&mut self, index: usize, contents: &[u8])
        requires index { index < 2 ^ 51 }
        requires size { length contents.now ≤ BLOCK }
        ensures { (bytes : List ℕ) → block bytes index ≡ contents.now
            → TreeHolds self.old bytes index → TreeHolds self.new bytes (index + 1) }
    {
        let hash = block_hash(0, index, contents);
        self.add_hash(index, &hash);
    }

    /// Adds the whole blocks of `blocks`, from the data block `index` on.
    pub(crate) fn add_blocks(&mut self, index: usize, blocks: &[u8])
        requires { index + length blocks.now / BLOCK < 2 ^ 51 }
        ensures { (bytes : List ℕ) → drop (BLOCK * index) bytes ≡ blocks.now
            → TreeHolds self.old bytes index
            → TreeHolds self.new bytes (index + length blocks.now / BLOCK) }
    {
        for i in 0..blocks.len() / BLOCK {
            self.add_block(index + i, &blocks[BLOCK * i..BLOCK * (i + 1)]);
        }
    }

    /// Closes the level of the data's hashes, of which there are `count`.
    fn closed(self, count: usize) -> Level
        requires { count ≤ 2 ^ 51 }
        ensures { (bytes : List ℕ) → block_count bytes ≡ count → TreeHolds self bytes count
            → LevelHolds 2 result (hashes 1 (hashes 0 bytes)) }
    {
        let Tree { hashes, mut above } = self;
        if count % HASHES == 0 {
            return above;
        }
        let hash = hashes.close(1, count);
        let _ = above.add(2, count / HASHES, &hash);
        above
    }

    /// The root of a blob of `count` data blocks.
    pub(crate) fn root(self, count: usize) -> Root
        requires { count ≤ 2 ^ 51 }
        ensures { (bytes : List ℕ) → block_count bytes ≡ count → count ≤ 4096
            → TreeHolds self bytes count → result ≡ merkle_root bytes }
    {
        if count == 1 {
            return Root(self.hashes.last);
        }
        let above = self.closed(count);
        let blocks = count.div_ceil(HASHES);
        if blocks == 1 {
            return Root(above.last);
        }
        Root(above.close(2, blocks))
    }
}
