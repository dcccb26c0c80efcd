//! Times the hasher against SHA-256 alone. Under the argument `time` it hashes a blob of 32 MiB in
//! pieces of 65,536 bytes, both ways in turn, and prints the least processor time of each and their
//! ratio.
#![tactic(auto)]

ghost use Rattle.std.specs.Prelude.{◌≡◌, IfOk, vec_len};

use pkg_merkle::Hasher;
use sha2::{Digest, Sha256};
use std::alloc::{AllocError, Global};
use std::time::{CpuClock, Duration};
use std::{env, io};

const PIECE: usize = 65_536;

/// The pieces of a blob of 32 MiB.
const PIECES: usize = 512;

/// Twelve bytes for each of its blocks.
const HEADS: usize = 49_152;

const TURNS: usize = 41;

/// One byte of the root, so that the work is used.
fn root_byte(piece: &[u8]) -> u8 {
    let mut hasher = Hasher::new();
    for _ in 0..PIECES {
        let _ = hasher.update(piece);
    }
    hasher.finish().0[0]
}

/// One byte of the digest of the same bytes and the heads.
fn digest_byte(piece: &[u8], heads: &[u8]) -> u8 {
    let mut hasher = Sha256::new();
    for _ in 0..PIECES {
        hasher.update(piece);
    }
    hasher.update(heads);
    hasher.finalize()[0]
}

// So many bytes of one value.
fn filled(alloc: Global, byte: u8, count: usize) -> Result<Vec<u8>, AllocError>
    ensures { IfOk result (λ bytes. vec_len bytes ≡ count) }
{
    vec![in alloc; byte; count]
}

fn per_mille(part: Duration, whole: Duration) -> Option<u128> {
    part.as_micros()
        .checked_mul(1000)?
        .checked_div(whole.as_micros())
}

fn time<R: AllocGlobal + CpuClock + Print>(rt: &R) -> io::Result<()> {
    let piece = filled(rt.alloc(), 0x5a, PIECE)?;
    let heads = filled(rt.alloc(), 0, HEADS)?;
    let mut tree = Duration::MAX;
    let mut plain = Duration::MAX;
    let mut seen = 0;
    for _ in 0..TURNS {
        let start = rt.thread_cpu_time()?;
        seen ^= root_byte(&piece);
        let middle = rt.thread_cpu_time()?;
        seen ^= digest_byte(&piece, &heads);
        let end = rt.thread_cpu_time()?;
        tree = tree.min(middle.saturating_sub(start));
        plain = plain.min(end.saturating_sub(middle));
    }
    let ratio = per_mille(tree, plain).unwrap_or(0);
    let tree = tree.as_micros();
    let plain = plain.as_micros();
    println!(rt; "hasher {tree} us, sha2 {plain} us, ratio {ratio} per mille, byte {seen}")
}

fn main(rt: HostRuntime) -> io::Result<()> {
    for word in env::args(&rt)?.skip(1) {
        if word.as_str() == "time" {
            return time(&rt);
        }
    }
    println!(rt; "with the argument time: times the hasher against SHA-256 alone")
}
