//! Two pages are read: they stand together in some image.

ghost use Rattle.std.specs.Prelude.{◌≡◌, ◌≢◌, ◌<◌, OnOk};
ghost use Rattle.disk_model.specs.Past.{page_at};
ghost use Rattle.disk_model.specs.Images.{SomeImage};

use disk_model::{Disk, DiskFailed};

/// Reads two pages.
pub fn read_both<D: Disk>(
    disk: &mut D,
    a: u32,
    b: u32,
    out_a: &mut [u8; 4096],
    out_b: &mut [u8; 4096],
) -> Result<(), DiskFailed>
    requires a { a < D.pages disk.old }
    requires b { b < D.pages disk.old }
    requires apart { a ≢ b }
    ensures { OnOk result (SomeImage (D.past disk.old)
        (λ image. (page_at image a ≡ out_a.new) × (page_at image b ≡ out_b.new))) }
{
    disk.read(a, out_a)?;
    disk.read(b, out_b)?;
    Ok(())
}
