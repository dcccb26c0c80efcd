//! What two blobs of one root show.

ghost use Rattle.std.specs.Prelude.{◌≡◌, ◌≢◌, ◌+◌, ◌*◌, ◌%◌, ◌^◌, ◌<◌, ◌≤◌, ◌↔◌, ℕ, ◌++◌, length, take, drop, IfOk, IfSome, IfNone};
ghost use Rattle.pkg_merkle.specs.Merkle.{block, block_count, block_input, hashes, inputs, inputs_above, merkle_root, root_above};
ghost use Rattle.pkg_merkle.specs.Binding.{IsFound, IsLevel, IsTop, zero_digest};

use crate::block::{BLOCK, block_hash, told_size};
use crate::hasher::BYTES_LIMIT;
use crate::level::HASH;
use pkg_names::Bytes;
use std::alloc::{AllocError, Global};

/// What two blobs of one root show.
#[derive(Debug, Drop, PartialEq, Eq)]
pub enum Binding {
    /// They are equal.
    Same,
    /// Two different inputs of SHA-256 that have one digest.
    Collision { x: Bytes, y: Bytes },
    /// An input of SHA-256 whose digest is 32 zero bytes.
    ZeroDigest { x: Bytes },
}

// Block i of a level's bytes.
fn block_at(bytes: &[u8], i: usize) -> &[u8]
    requires { BLOCK * i ≤ length bytes.now }
    ensures { result.now ≡ block bytes.now i }
{
    let rest = &bytes[BLOCK * i..];
    &rest[..BLOCK.min(rest.len())]
}

// How many blocks a level's bytes are cut into.
fn block_count(bytes: &[u8]) -> usize
    requires { length bytes.now ≤ BYTES_LIMIT }
    ensures { result ≡ block_count bytes.now }
{
    bytes.len().div_ceil(BLOCK).max(1)
}

// The joined hashes of a level's blocks.
fn hashes(alloc: Global, level: usize, bytes: &[u8]) -> Result<Vec<u8>, AllocError>
    requires { length bytes.now ≤ BYTES_LIMIT }
    ensures { IfOk result (λ above. above.items ≡ hashes level bytes.now) }
{
    let mut above = Vec::new(alloc);
    for i in 0..block_count(bytes) {
        let hash = block_hash(level, i, block_at(bytes, i));
        above.extend_from_slice(&hash)?;
    }
    Ok(above)
}

// What is hashed of the block with these contents.
fn block_input(
    alloc: Global,
    level: usize,
    index: usize,
    contents: &[u8],
) -> Result<Bytes, AllocError>
    requires index { index < 2 ^ 51 }
    requires size { length contents.now ≤ BLOCK }
    ensures { IfOk result (λ input. input ≡ block_input level index contents.now) }
{
    let size = told_size(level, contents);
    let mut input = Vec::new(alloc);
    input.extend_from_slice(&((BLOCK * index | level) as u64).to_le_bytes())?;
    input.extend_from_slice(&(size as u32).to_le_bytes())?;
    input.extend_from_slice(contents)?;
    let filling = (BLOCK - contents.len()) % BLOCK;
    input.resize(input.len() + filling, 0)?;
    Ok(Bytes::make(input))
}

// What is hashed of block i of a level.
fn input_at(alloc: Global, level: usize, bytes: &[u8], i: usize) -> Result<Bytes, AllocError>
    requires size { length bytes.now ≤ BYTES_LIMIT }
    requires within { i < block_count bytes.now }
    ensures { IfOk result (λ input. input ≡ block_input level i (block bytes.now i)) }
{
    block_input(alloc, level, i, block_at(bytes, i))
}

// The input whose digest is left above a level's bytes.
fn top_input(alloc: Global, level: usize, bytes: &[u8]) -> Result<Bytes, AllocError>
    requires { level + length bytes.now ≤ BYTES_LIMIT }
    ensures { IfOk result (IsTop level bytes.now) }
{
    if bytes.len() <= BLOCK {
        return block_input(alloc, level, 0, bytes);
    }
    let above = hashes(alloc, level, bytes)?;
    top_input(alloc, level + 1, &above)
}

// The first of these hashes that is 32 zero bytes.
fn zero_hash(hashes: &[u8]) -> Option<usize>
    requires { length hashes.now % HASH ≡ 0 }
    ensures within { IfSome result (λ i. HASH * i < length hashes.now) }
    ensures found { IfSome result (λ i. take HASH (drop (HASH * i) hashes.now) ≡ zero_digest) }
    ensures none { IfNone result ((i : ℕ) → HASH * i < length hashes.now
        → take HASH (drop (HASH * i) hashes.now) ≢ zero_digest) }
{
    let zeros = [0u8; HASH];
    for i in 0..hashes.len() / HASH {
        if hashes[HASH * i..HASH * (i + 1)] == zeros[..] {
            return Some(i);
        }
    }
    None
}

// The first block in which two levels of as many blocks differ.
fn different_block(a: &[u8], b: &[u8]) -> usize
    requires size { length a.now ≤ BYTES_LIMIT }
    requires count { block_count b.now ≡ block_count a.now }
    requires apart { a.now ≢ b.now }
    ensures within { result < block_count a.now }
    ensures apart { block a.now result ≢ block b.now result }
{
    let last = block_count(a) - 1;
    for i in 0..last {
        if block_at(a, i) != block_at(b, i) {
            return i;
        }
    }
    last
}

// What two levels of this number show, above which one hash is left.
fn compared(alloc: Global, level: usize, a: &[u8], b: &[u8]) -> Result<Binding, AllocError>
    requires level_a { IsLevel level a.now }
    requires level_b { IsLevel level b.now }
    requires size_a { level + length a.now ≤ BYTES_LIMIT }
    requires size_b { level + length b.now ≤ BYTES_LIMIT }
    requires root { root_above (length a.now) level a.now ≡ root_above (length b.now) level b.now }
    ensures same { IfOk result (λ binding. (binding ≡ Binding.Same) ↔ (a.now ≡ b.now)) }
    ensures found { IfOk result (IsFound (inputs_above (length a.now) level a.now
        ++ inputs_above (length b.now) level b.now)) }
{
    if a == b {
        return Ok(Binding::Same);
    }
    if a.len() <= BLOCK || b.len() <= BLOCK {
        let x = top_input(alloc, level, a)?;
        let y = top_input(alloc, level, b)?;
        return Ok(Binding::Collision { x, y });
    }
    let above_a = hashes(alloc, level, a)?;
    if let Some(i) = zero_hash(&above_a) {
        let x = input_at(alloc, level, a, i)?;
        return Ok(Binding::ZeroDigest { x });
    }
    let above_b = hashes(alloc, level, b)?;
    if let Some(j) = zero_hash(&above_b) {
        let x = input_at(alloc, level, b, j)?;
        return Ok(Binding::ZeroDigest { x });
    }
    match compared(alloc, level + 1, &above_a, &above_b)? {
        Binding::Same => {
            let k = different_block(a, b);
            let x = input_at(alloc, level, a, k)?;
            let y = input_at(alloc, level, b, k)?;
            Ok(Binding::Collision { x, y })
        }
        found => Ok(found),
    }
}

/// Whether two blobs of one root are equal. If not, it gives inputs of SHA-256 that show how their
/// roots came to be equal (`docs/merkle.md`).
pub fn same_or_collision(alloc: Global, a: &[u8], b: &[u8]) -> Result<Binding, AllocError>
    requires size_a { length a.now ≤ BYTES_LIMIT }
    requires size_b { length b.now ≤ BYTES_LIMIT }
    requires root { merkle_root a.now ≡ merkle_root b.now }
    ensures same { IfOk result (λ binding. (binding ≡ Binding.Same) ↔ (a.now ≡ b.now)) }
    ensures found { IfOk result (IsFound (inputs a.now ++ inputs b.now)) }
{
    compared(alloc, 0, a, b)
}
