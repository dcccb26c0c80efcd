//! How large the regions of an image are, and where they lie.

ghost use Rattle.std.specs.Prelude.{◌≡◌, ◌+◌, ◌*◌, ◌/◌, ◌^◌, ◌<◌, ◌≤◌, ◌↔◌, IsTrue};
ghost use Rattle.image_layout.specs.Geometry.{IsWithinLimits, table_pages, slot_size, table_start, slot_start, data_start, total_pages};

use abr_record::Slot;

/// The page that tells the geometry.
pub const SUPER_PAGE: u32 = 0;

/// The page of the boot record.
pub const RECORD_PAGE: u32 = 1;

/// The page that tells which copy of the table counts.
pub const SELECTOR_PAGE: u32 = 2;

/// How many pages a slot has for its vbmeta.
pub const VBMETA_PAGES: u32 = 16;

/// How many blobs the table has entries for, how many pages the data region has, and how many a
/// slot's zbi area has. `docs/disk.md` of the repository has the regions.
#[derive(Clone, Copy, Debug, PartialEq, Eq)]
pub struct Geometry {
    /// 64 to 8192, in steps of 64.
    pub blobs: u32,
    /// 1024 to 65,536, in steps of 1024.
    pub data_pages: u32,
    /// 1 to 8192.
    pub slot_pages: u32,
}

impl Geometry {
    /// Whether each number is within its limits.
    pub fn is_within_limits(&self) -> bool
        ensures { IsTrue result ↔ IsWithinLimits self.now }
    {
        64 <= self.blobs
            && self.blobs <= 8192
            && self.blobs % 64 == 0
            && 1024 <= self.data_pages
            && self.data_pages <= 65_536
            && self.data_pages % 1024 == 0
            && 1 <= self.slot_pages
            && self.slot_pages <= 8192
    }
}

/// How many pages a copy of the table has.
pub fn table_pages(geometry: &Geometry) -> u32
    requires { IsWithinLimits geometry.now }
    ensures { result ≡ table_pages geometry.now }
{
    geometry.blobs / 64 + geometry.data_pages / 1024
}

/// How many pages a slot has: its header, its zbi area and its vbmeta area.
pub fn slot_size(geometry: &Geometry) -> u32
    requires { IsWithinLimits geometry.now }
    ensures { result ≡ slot_size geometry.now }
{
    1 + geometry.slot_pages + VBMETA_PAGES
}

/// The first page of a copy of the table, the first copy or the second.
pub fn table_start(geometry: &Geometry, second: bool) -> u32
    requires { IsWithinLimits geometry.now }
    ensures { result ≡ table_start geometry.now second }
{
    if second { 3 + table_pages(geometry) } else { 3 }
}

/// The first page of a slot.
pub fn slot_start(geometry: &Geometry, slot: Slot) -> u32
    requires { IsWithinLimits geometry.now }
    ensures { result ≡ slot_start geometry.now slot }
{
    let first = 3 + 2 * table_pages(geometry);
    match slot {
        Slot::A => first,
        Slot::B => first + slot_size(geometry),
        Slot::R => first + 2 * slot_size(geometry),
    }
}

/// The first page of the data region.
pub fn data_start(geometry: &Geometry) -> u32
    requires { IsWithinLimits geometry.now }
    ensures { result ≡ data_start geometry.now }
{
    3 + 2 * table_pages(geometry) + 3 * slot_size(geometry)
}

/// How many pages an image has.
pub fn total_pages(geometry: &Geometry) -> u32
    requires { IsWithinLimits geometry.now }
    ensures total { result ≡ total_pages geometry.now }
    ensures least { 1085 ≤ result }
    ensures most { result ≤ 90550 }
{
    data_start(geometry) + geometry.data_pages
}
