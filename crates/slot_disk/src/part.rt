//! An image that comes in pieces: how much of it came, its SHA-256 so far, and the page that is written next.

ghost use Rattle.std.specs.Prelude.{◌≡◌, ◌+◌, ◌-◌, ◌*◌, ◌/◌, ◌%◌, ◌<◌, ◌≤◌, ◌≢◌, ℕ, List, [], ◌++◌, length, take, min};
ghost use Rattle.image_layout.specs.Sums.{image_sum};
ghost use Rattle.slot_disk.specs.Filling.{filled};

use image_layout::{ImageKind, ImageSum};
use sha2::{Digest, Sha256};

/// What came of one image.
#[derive(Drop)]
pub(crate) struct Part {
    pub(crate) len: u64,
    pub(crate) hasher: Sha256,
    // The bytes behind the last full page, with zeros behind them.
    pub(crate) next: [u8; 4096],
}

/// What came of the two images of a slot.
#[derive(Drop)]
pub(crate) struct Parts {
    pub(crate) zbi: Part,
    pub(crate) vbmeta: Part,
}

/// An image that is another than a system's, and its length and SHA-256.
#[derive(Drop)]
pub(crate) struct Difference {
    pub(crate) image: ImageKind,
    pub(crate) got: ImageSum,
}

/// A page of zeros.
#[tactic(auto, unfolding(crate::specs::Filling::filled))]
pub(crate) fn zeros() -> [u8; 4096]
    ensures zeros { result ≡ filled [] }
    ensures size { length result ≡ 4096 }
{
    [0; 4096]
}

impl Part {
    ghost use Rattle.slot_disk.specs.Filling.{HoldsBytes};

    /// An image of which nothing came yet.
    pub(crate) fn new() -> Part
        ensures { HoldsBytes result [] }
    {
        Part {
            len: 0,
            hasher: Sha256::new(),
            next: zeros(),
        }
    }

    /// The length and the SHA-256 of what came.
    pub(crate) fn sum(&self) -> ImageSum
        ensures { (bytes : List ℕ) → HoldsBytes self.now bytes → result ≡ image_sum bytes }
    {
        let hasher = self.hasher.clone().unwrap();
        ImageSum {
            len: self.len,
            sha: hasher.finalize(),
        }
    }
}

impl Parts {
    ghost use Rattle.slot_disk.specs.Filling.{HoldsImages, no_images};

    /// Nothing came yet.
    pub(crate) fn new() -> Parts
        ensures { HoldsImages result no_images }
    {
        Parts {
            zbi: Part::new(),
            vbmeta: Part::new(),
        }
    }
}

/// Copies the front of a piece behind the bytes of a page that were used, as much as has room there.
pub(crate) fn put_next(next: &mut [u8; 4096], used: usize, piece: &[u8]) -> usize
    requires { used < 4096 }
    ensures count { result ≡ min (length piece.now) (4096 - used) }
    ensures put { (tail : List ℕ) → length tail ≡ used → next.old ≡ filled tail
        → next.new ≡ filled (tail ++ take result piece.now) }
{
    let count = piece.len().min(4096 - used);
    next[used..used + count].copy_from_slice(&piece[..count]);
    count
}

/// Makes a page new where the image has become so long that it is full.
pub(crate) fn turn(next: &mut [u8; 4096], len: usize)
    ensures full { len % 4096 ≡ 0 → next.new ≡ filled [] }
    ensures other { len % 4096 ≢ 0 → next.new ≡ next.old }
{
    if len % 4096 == 0 {
        *next = zeros();
    }
}
