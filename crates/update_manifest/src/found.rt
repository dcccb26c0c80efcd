//! The images that were found so far.

ghost use Rattle.std.specs.Prelude.{◌≡◌, ◌≤◌, [], is_none, Some, IsTrue};
ghost use Rattle.std.specs.Option.{option_len};
ghost use Rattle.update_manifest.specs.Found.{found_of, count, place_of, put_at};

use crate::image::ImageRef;
use crate::partition::{Partition, PartitionSlot, PartitionType};

/// The images of the partitions so far.
#[derive(Debug, Drop)]
pub(crate) struct Found {
    pub(crate) zbi: Option<ImageRef>,
    pub(crate) vbmeta: Option<ImageRef>,
    pub(crate) recovery_zbi: Option<ImageRef>,
    pub(crate) recovery_vbmeta: Option<ImageRef>,
}

impl Found {
    pub(crate) fn nothing() -> Found
        ensures { result ≡ found_of [] }
    {
        Found {
            zbi: None,
            vbmeta: None,
            recovery_zbi: None,
            recovery_vbmeta: None,
        }
    }

    /// How many there are.
    pub(crate) fn count(&self) -> u32
        ensures { result ≡ count self.now }
    {
        one(&self.zbi) + one(&self.vbmeta) + one(&self.recovery_zbi) + one(&self.recovery_vbmeta)
    }

    /// Puts the image of a partition in its place, if that is free.
    pub(crate) fn put(&mut self, partition: Partition) -> bool
        ensures free { result ≡ is_none (place_of partition.slot partition.kind self.old) }
        ensures put { IsTrue result →
            self.new ≡ put_at partition.slot partition.kind partition.image self.old }
    {
        match (partition.slot, partition.kind) {
            (PartitionSlot::Fuchsia, PartitionType::Zbi) => fill(&mut self.zbi, partition.image),
            (PartitionSlot::Fuchsia, PartitionType::Vbmeta) => {
                fill(&mut self.vbmeta, partition.image)
            }
            (PartitionSlot::Recovery, PartitionType::Zbi) => {
                fill(&mut self.recovery_zbi, partition.image)
            }
            (PartitionSlot::Recovery, PartitionType::Vbmeta) => {
                fill(&mut self.recovery_vbmeta, partition.image)
            }
        }
    }
}

fn one(place: &Option<ImageRef>) -> u32
    ensures value { result ≡ option_len place.now }
    ensures few { result ≤ 1 }
{
    if place.is_some() { 1 } else { 0 }
}

// Puts an image in a place that is free.
fn fill(place: &mut Option<ImageRef>, image: ImageRef) -> bool
    ensures free { result ≡ is_none place.old }
    ensures put { IsTrue result → place.new ≡ Some image }
{
    if place.is_some() {
        return false;
    }
    *place = Some(image);
    true
}
