//! The header of a slot: the page that names its system.

ghost use Rattle.std.specs.Prelude.{◌≡◌, ◌+◌, ◌^◌, ◌<◌, ◌≤◌, ◌↔◌, ◌++◌, ℕ, codes, length, slice_index, slice_range, take, IsTrue};
ghost use Rattle.std.specs.Int.{w64, to_le_bytes};
ghost use Rattle.sha2.specs.Sha256.{sha256};
ghost use Rattle.slot_disk.specs.Header.{sum_at, sys_at, IsMarked, IsHeader, IsSum, IsSys, sum_text, header_text};
ghost use Rattle.slot_disk.specs.Steps.{Heads};

use crate::part::zeros;
use image_layout::{ImageSum, Sys};
use pkg_names::Root;
use pkg_names::numbers::u64_at;
use sha2::{Digest, Sha256};

const MAGIC: [u8; 4] = *b"SLOT";

fn bytes_at(page: &[u8; 4096], at: usize) -> [u8; 32]
    requires { at + 32 ≤ 4096 }
    ensures { result ≡ slice_range page.now at (at + 32) }
{
    let mut bytes = [0; 32];
    bytes.copy_from_slice(&page[at..at + 32]);
    bytes
}

fn sum_at(page: &[u8; 4096], at: usize) -> ImageSum
    requires { at + 40 ≤ 4096 }
    ensures { result ≡ sum_at page.now at }
{
    ImageSum {
        len: u64_at(page, at),
        sha: bytes_at(page, at + 8),
    }
}

fn is_marked(page: &[u8; 4096]) -> bool
    ensures { IsTrue result ↔ IsMarked page.now }
{
    let digest = Sha256::digest(&page[..124]);
    &page[..4] == &MAGIC[..] && &page[124..156] == &digest[..]
}

/// The system that a page names, or `None` where it is no header.
pub(crate) fn read_header(page: &[u8; 4096]) -> Option<Sys>
    ensures { Heads page.now result }
{
    if !is_marked(page) {
        return None;
    }
    Some(Sys {
        system: Root(bytes_at(page, 12)),
        epoch: u64_at(page, 4),
        zbi: sum_at(page, 44),
        vbmeta: sum_at(page, 84),
    })
}

// Puts one list behind another, which fill all of `out`.
fn join(front: &[u8], back: &[u8], out: &mut [u8])
    requires { length out.old ≡ length front.now + length back.now }
    ensures { out.new ≡ front.now ++ back.now }
{
    out[..front.len()].copy_from_slice(front);
    out[front.len()..].copy_from_slice(back);
}

// A length and a SHA-256.
fn sum_text(sum: &ImageSum) -> [u8; 40]
    ensures text { result ≡ sum_text sum.now }
    ensures sum { IsSum sum.now }
{
    let len = sum.len;
    let mut text = [0; 40];
    join(&len.to_le_bytes(), &sum.sha, &mut text);
    text
}

// The sums of both images.
fn sums_text(sys: &Sys) -> [u8; 80]
    ensures text { result ≡ sum_text sys.now.zbi ++ sum_text sys.now.vbmeta }
    ensures zbi { IsSum sys.now.zbi }
    ensures vbmeta { IsSum sys.now.vbmeta }
{
    let mut text = [0; 80];
    join(&sum_text(&sys.zbi), &sum_text(&sys.vbmeta), &mut text);
    text
}

// What stands before the sums: the magic, the epoch and the root.
fn name_text(sys: &Sys) -> [u8; 44]
    ensures text { result ≡ codes "SLOT" ++ to_le_bytes w64 sys.now.epoch ++ sys.now.system.0 }
    ensures epoch { sys.now.epoch < 2 ^ 64 }
    ensures system { length sys.now.system.0 ≡ 32 }
{
    let epoch = sys.epoch;
    let mut text = [0; 44];
    text[..4].copy_from_slice(&MAGIC);
    text[4..12].copy_from_slice(&epoch.to_le_bytes());
    text[12..].copy_from_slice(&sys.system.0);
    text
}

// The part that the digest is of.
fn header_text(sys: &Sys) -> [u8; 124]
    ensures text { result ≡ header_text sys.now }
    ensures sys { IsSys sys.now }
{
    let mut text = [0; 124];
    join(&name_text(sys), &sums_text(sys), &mut text);
    text
}

// The part that is looked at: the text and its digest.
fn head(sys: &Sys) -> [u8; 156]
    ensures head { result ≡ header_text sys.now ++ sha256 (header_text sys.now) }
    ensures sys { IsSys sys.now }
{
    let text = header_text(sys);
    let mut head = [0; 156];
    join(&text, &Sha256::digest(&text), &mut head);
    head
}

/// The header that names a system, with zeros behind its digest.
pub(crate) fn write_header(sys: &Sys) -> [u8; 4096]
    ensures spelled { take 156 result ≡ header_text sys.now ++ sha256 (header_text sys.now) }
    ensures names { IsHeader result sys.now }
    ensures rest { (i : ℕ) → 156 ≤ i → slice_index result i ≡ 0 }
{
    let mut page = zeros();
    page[..156].copy_from_slice(&head(sys));
    page
}
