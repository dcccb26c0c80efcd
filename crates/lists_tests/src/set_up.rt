//! What several tests share.

ghost use Rattle.std.specs.Prelude.{◌≡◌};
ghost use Rattle.std.specs.Option.{option_map};

use update_manifest::{ImageRef, Images};

/// The length of an image, if there is one.
pub fn len_of(image: &Option<ImageRef>) -> Option<u64>
    ensures { result ≡ option_map (λ found. found.len) image.now }
{
    match image {
        Some(found) => Some(found.len),
        None => None,
    }
}

/// The lengths of the zbi and the vbmeta of the next system, and of those of recovery.
pub fn lens(images: &Images) -> (u64, Option<u64>, Option<u64>, Option<u64>) {
    (
        images.zbi.len,
        len_of(&images.vbmeta),
        len_of(&images.recovery_zbi),
        len_of(&images.recovery_vbmeta),
    )
}
