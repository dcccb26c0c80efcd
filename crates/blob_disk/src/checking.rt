//! The blobs of a table are checked.

ghost use Rattle.std.specs.Prelude.{◌≡◌, ◌≤◌, Bool, Err, IfErr, OnOk};
ghost use Rattle.std.specs.List.{All};
ghost use Rattle.disk_model.specs.Past.{Rose};
ghost use Rattle.disk_model.specs.Images.{SomeImage};
ghost use Rattle.image_layout.specs.Geometry.{IsWithinLimits, total_pages};
ghost use Rattle.node_table.specs.Entries.{AreSound};
ghost use Rattle.node_table.specs.Table.{HasTable};
ghost use Rattle.blob_disk.specs.Stock.{IsGood, HasCause};

use crate::answers::CheckFault;
use crate::reading::check_entry;
use disk_model::Disk;
use image_layout::{Geometry, Place, data_start};
use node_table::{Entry, LoadFault};

/// Checks that each blob has bytes of its root. The first that hasn't is where the image is damaged.
pub(crate) fn check_all<D: Disk>(
    disk: &mut D,
    geometry: &Geometry,
    entries: &[Entry],
) -> Result<(), LoadFault>
    requires limits { IsWithinLimits geometry.now }
    requires room { total_pages geometry.now ≤ D.pages disk.old }
    requires sound { AreSound geometry.now entries.now }
    ensures good { (second : Bool) → SomeImage (D.past disk.old) (HasTable geometry.now second entries.now)
        → OnOk result (SomeImage (D.past disk.old) (λ image.
        HasTable geometry.now second entries.now image × All (IsGood geometry.now image) entries.now)) }
    ensures damaged { (second : Bool)
        → SomeImage (D.past disk.old) (HasTable geometry.now second entries.now)
        → IfErr result (HasCause (D.past disk.old) geometry.now) }
    ensures past_stays { D.past disk.new ≡ D.past disk.old }
    ensures pages_stay { D.pages disk.new ≡ D.pages disk.old }
    ensures tie_stays { D.tie disk.new ≡ D.tie disk.old }
    ensures faults_never_fall { D.faults disk.old ≤ D.faults disk.new }
    ensures cause { result ≡ Err LoadFault.Read → Rose (D.faults disk.old) (D.faults disk.new) }
{
    let _count = disk.pages();
    let start = data_start(geometry);
    for entry in entries {
        match check_entry(disk, start, entry) {
            Ok(_) => {}
            Err(CheckFault::Read) => return Err(LoadFault::Read),
            Err(CheckFault::Rotten { .. }) => {
                return Err(LoadFault::Damaged {
                    place: Place::Blob { root: entry.root },
                });
            }
        }
    }
    Ok(())
}
