//! What is known of a fuse that a generic program has used.

ghost use Rattle.std.specs.Prelude.{◌≡◌, ◌+◌, ◌<◌, ◌≤◌, [], length, false};
ghost use Rattle.disk_model.specs.Disks.{new_mem, passed_count};

use disk_model::{Disk, FuseDisk, MemDisk};

// Some program.
fn run<D: Disk>(mut disk: D, page: &[u8; 4096]) -> D
    requires { 0 < D.pages disk }
    ensures { D.tie result ≡ D.tie disk }
{
    if disk.write(0, page).is_ok() && disk.sync().is_ok() {
        let _ = disk.write(0, page);
    }
    disk
}

/// Runs it with this many writes and syncs.
pub fn drill(inner: MemDisk, left: u64, page: &[u8; 4096]) -> MemDisk
    requires room { 0 < length inner.past.start }
    requires fresh { inner ≡ new_mem inner.past.start [] }
    ensures most { passed_count result.past.trail ≤ left }
    ensures quiet { result.starved ≡ false → passed_count result.past.trail < left
        → result.faults ≡ 0 }
{
    run(FuseDisk::make(inner, left), page).inner()
}
