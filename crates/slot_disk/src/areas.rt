//! Where the parts of a slot lie.

ghost use Rattle.std.specs.Prelude.{◌≡◌, ◌+◌, ◌≤◌};
ghost use Rattle.image_layout.specs.Geometry.{IsWithinLimits, total_pages};
ghost use Rattle.slot_disk.specs.Areas.{area_pages, area_start};

use abr_record::Slot;
use image_layout::{Geometry, ImageKind, VBMETA_PAGES, slot_start};

/// How many pages an image's area has.
pub(crate) fn area_pages(geometry: &Geometry, kind: ImageKind) -> u32
    requires { IsWithinLimits geometry.now }
    ensures pages { result ≡ area_pages geometry.now kind }
    ensures most { result ≤ 8192 }
{
    match kind {
        ImageKind::Zbi => geometry.slot_pages,
        ImageKind::Vbmeta => VBMETA_PAGES,
    }
}

/// The first page of an image's area.
pub(crate) fn area_start(geometry: &Geometry, slot: Slot, kind: ImageKind) -> u32
    requires { IsWithinLimits geometry.now }
    ensures start { result ≡ area_start geometry.now slot kind }
    ensures within { result + area_pages geometry.now kind ≤ total_pages geometry.now }
{
    let first = slot_start(geometry, slot) + 1;
    match kind {
        ImageKind::Zbi => first,
        ImageKind::Vbmeta => first + geometry.slot_pages,
    }
}
