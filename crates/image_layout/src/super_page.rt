//! The page that tells the geometry.

ghost use Rattle.std.specs.Prelude.{◌≡◌, ◌+◌, ◌-◌, ◌^◌, ◌<◌, ◌≤◌, ◌↔◌, ℕ, List, [], ◌++◌, length, take, drop, slice_index, slice_range, IsTrue, Ok, IfOk, codes};
ghost use Rattle.std.specs.Int.{w32, to_le_bytes, from_le_bytes};
ghost use Rattle.sha2.specs.Sha256.{sha256};
ghost use Rattle.image_layout.specs.declared.geometry.Geometry.{Geometry};
ghost use Rattle.image_layout.specs.Geometry.{IsWithinLimits, total_pages};
ghost use Rattle.image_layout.specs.Super.{super_text, IsSuper, IsMarked, HasRoom, geometry_at, zero_page, Judges};

use crate::geometry::{Geometry, total_pages};
use pkg_names::numbers::u32_at;
use sha2::{Digest, Sha256};

/// Why a super page was not read.
#[derive(Clone, Copy, Debug, PartialEq, Eq)]
pub enum SuperFault {
    /// The magic or the digest is wrong.
    NotAnImage,
    /// The layout is not 1.
    Layout { found: u32 },
    /// A number is outside its limits, or the disk has fewer pages than the image.
    Size,
}

const MAGIC: [u8; 8] = *b"FPKGIMG1";

fn is_marked(page: &[u8; 4096]) -> bool
    ensures { IsTrue result ↔ IsMarked page.now }
{
    let digest = Sha256::digest(&page[..24]);
    &page[..8] == &MAGIC[..] && &page[24..56] == &digest[..]
}

fn has_room(geometry: &Geometry, pages: u32) -> bool
    ensures { IsTrue result ↔ HasRoom geometry.now pages }
{
    geometry.is_within_limits() && total_pages(geometry) <= pages
}

/// Reads the geometry from a super page of a disk that has this number of pages.
pub fn read_super(page: &[u8; 4096], pages: u32) -> Result<Geometry, SuperFault>
    ensures judged { Judges page.now pages result }
    ensures found { IfOk result (λ geometry. IsSuper page.now geometry) }
    ensures only { (geometry : Geometry) → IsSuper page.now geometry → HasRoom geometry pages
        → result ≡ Ok geometry }
{
    if !is_marked(page) {
        return Err(SuperFault::NotAnImage);
    }
    let layout = u32_at(page, 8);
    if layout != 1 {
        return Err(SuperFault::Layout { found: layout });
    }
    let geometry = Geometry {
        blobs: u32_at(page, 12),
        data_pages: u32_at(page, 16),
        slot_pages: u32_at(page, 20),
    };
    if !has_room(&geometry, pages) {
        return Err(SuperFault::Size);
    }
    Ok(geometry)
}

// The part that the digest is of.
fn super_text(geometry: &Geometry) -> [u8; 24]
    ensures { result ≡ super_text geometry.now }
{
    let mut text = [0; 24];
    text[..8].copy_from_slice(&MAGIC);
    text[8..12].copy_from_slice(&1u32.to_le_bytes());
    text[12..16].copy_from_slice(&geometry.blobs.to_le_bytes());
    text[16..20].copy_from_slice(&geometry.data_pages.to_le_bytes());
    text[20..].copy_from_slice(&geometry.slot_pages.to_le_bytes());
    text
}

// The part that is looked at: the text and its digest.
fn head(geometry: &Geometry) -> [u8; 56]
    ensures { result ≡ super_text geometry.now ++ sha256 (super_text geometry.now) }
{
    let text = super_text(geometry);
    let mut head = [0; 56];
    head[..24].copy_from_slice(&text);
    head[24..].copy_from_slice(&Sha256::digest(&text));
    head
}

/// Writes the super page of a geometry, with zeros behind it.
pub fn write_super(geometry: &Geometry, out: &mut [u8; 4096])
    requires { IsWithinLimits geometry.now }
    ensures spelled { IsSuper out.new geometry.now }
    ensures judged { (pages : ℕ) → HasRoom geometry.now pages
        → Judges out.new pages (Ok geometry.now) }
    ensures rest { (i : ℕ) → 56 ≤ i → slice_index out.new i ≡ 0 }
{
    *out = zeros();
    out[..56].copy_from_slice(&head(geometry));
}

fn zeros() -> [u8; 4096]
    ensures { result ≡ zero_page }
{
    [0; 4096]
}
