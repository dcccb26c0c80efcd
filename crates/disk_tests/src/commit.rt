//! A commit of many pages: at each moment each image has the old table or the new one.

ghost use Rattle.std.specs.Prelude.{◌≡◌, ◌⊎◌, ◌<◌, ◌-◌, ◌+◌, ◌≤◌, OnOk, length, slice_index};
ghost use Rattle.disk_model.specs.Past.{Pages};
ghost use Rattle.disk_model.specs.Images.{EachImage, AtEach};
ghost use Rattle.disk_tests.specs.Commit.{choice, first_of, IsTable};

use disk_model::{Disk, DiskFailed, settle_pages};

/// Writes the copy that doesn't count, and then page 0, which chooses it.
pub fn commit<D: Disk>(
    disk: &mut D,
    first: u32,
    pages: &[[u8; 4096]],
    chooser: &[u8; 4096],
) -> Result<(), DiskFailed>
    requires room { length pages.now + length pages.now + 1 ≤ D.pages disk.old }
    requires choice { (slice_index chooser.now 0 ≡ 1) ⊎ (slice_index chooser.now 0 ≡ 2) }
    requires first { first ≡ first_of (slice_index chooser.now 0) (length pages.now) }
    requires free { EachImage (D.past disk.old)
        (λ image. choice image ≡ 3 - slice_index chooser.now 0) }
    ensures each_moment { (before : Pages) → length before ≡ length pages.now
        → EachImage (D.past disk.old) (IsTable before)
        → AtEach (D.past disk.old) (D.past disk.new)
        (λ image. IsTable before image ⊎ IsTable pages.now image) }
    ensures done { OnOk result (EachImage (D.past disk.new) (IsTable pages.now)) }
{
    settle_pages(disk, first, pages)?;
    disk.write(0, chooser)?;
    disk.sync()?;
    Ok(())
}
