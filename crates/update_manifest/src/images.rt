ghost use Rattle.std.specs.Prelude.{◌≡◌, ◌⊎◌, [], List, Ok, Err, IfOk, IfErr, OnOk};
ghost use Rattle.std.specs.Option.{option_map};
ghost use Rattle.serde_json.specs.View.{view, items_view};
ghost use Rattle.system_lists.specs.declared.list.ListFault.{ListFault as FaultOf};
ghost use Rattle.system_lists.specs.Document.{entries};
ghost use Rattle.system_lists.specs.Entries.{listed};
ghost use Rattle.update_manifest.specs.declared.partition.Partition.{Partition as PartitionOf};
ghost use Rattle.update_manifest.specs.Partition.{partition_in, is_same};
ghost use Rattle.update_manifest.specs.Found.{found_of, found_with};
ghost use Rattle.update_manifest.specs.Images.{partitions_at, partition_fault, images_with, images_at, images_in, Brings, HasFirstFault};

use crate::found::Found;
use crate::image::Images;
use crate::laws::{manifests_have_a_first_fault, texts_bring_what_is_read};
use crate::partition::partition_in;
use serde_json::Value;
use std::alloc::Global;
use system_lists::{ManifestFault, read_document};

/// Reads `images.json`: the grammar of `docs/update_manifests.md`.
pub fn read_images(alloc: Global, bytes: &[u8]) -> Result<Images, ManifestFault>
    ensures exact { (result ≡ images_in bytes.now) ⊎ (result ≡ Err ManifestFault.NoMemory) }
    ensures found { IfOk result (λ images. Brings bytes.now images) }
    ensures fault { IfErr result (λ fault. (fault ≡ ManifestFault.NoMemory) ⊎ HasFirstFault bytes.now fault) }
{
    texts_bring_what_is_read();
    manifests_have_a_first_fault();
    read_whole(alloc, bytes)
}

fn read_whole(alloc: Global, bytes: &[u8]) -> Result<Images, ManifestFault>
    ensures { (result ≡ images_in bytes.now) ⊎ (result ≡ Err ManifestFault.NoMemory) }
{
    let value = read_document(alloc, bytes)?;
    read_contents(alloc, &value)
}

fn read_contents(alloc: Global, value: &Value) -> Result<Images, ManifestFault>
    ensures { (result ≡ images_at (partitions_at (view value.now))) ⊎ (result ≡ Err ManifestFault.NoMemory) }
{
    let Some(values) = partitions_at(value) else {
        return Err(ManifestFault::Json);
    };
    let found = read_partitions(alloc, values)?;
    images_with(found)
}

// The array `partitions` in the object `contents`.
fn partitions_at(value: &Value) -> Option<&Vec<Value>>
    ensures { option_map (λ v. items_view v.now.items) result ≡ partitions_at (view value.now) }
{
    value.get("contents")?.get("partitions")?.as_array()
}

fn read_partitions(alloc: Global, values: &[Value]) -> Result<Found, ManifestFault>
    ensures found { IfOk result (λ found. (list : List PartitionOf)
        × (listed is_same [] (entries partition_in (items_view values.now)) ≡ Ok list) × (found ≡ found_of list)) }
    ensures fault { IfErr result (λ fault. (fault ≡ ManifestFault.NoMemory)
        ⊎ ((why : FaultOf) × (listed is_same [] (entries partition_in (items_view values.now)) ≡ Err why)
        × (fault ≡ partition_fault why))) }
{
    let mut found = Found::nothing();
    for value in values {
        put_value(alloc, &mut found, value)?;
    }
    Ok(found)
}

// Puts the image of an entry in its place, if it may stand there.
fn put_value(alloc: Global, found: &mut Found, value: &Value) -> Result<(), ManifestFault>
    ensures found { OnOk result (found_with found.old (partition_in (view value.now)) ≡ Ok found.new) }
    ensures fault { IfErr result (λ fault. (fault ≡ ManifestFault.NoMemory)
        ⊎ (found_with found.old (partition_in (view value.now)) ≡ Err fault)) }
{
    let n = found.count() + 1;
    let Some(partition) = partition_in(alloc, value)? else {
        return Err(ManifestFault::Entry { n });
    };
    if found.put(partition) {
        Ok(())
    } else {
        Err(ManifestFault::Twice { n })
    }
}

fn images_with(found: Found) -> Result<Images, ManifestFault>
    ensures { result ≡ images_with found.zbi found.vbmeta found.recovery_zbi found.recovery_vbmeta }
{
    let Found {
        zbi,
        vbmeta,
        recovery_zbi,
        recovery_vbmeta,
    } = found;
    match zbi {
        Some(zbi) => Ok(Images {
            zbi,
            vbmeta,
            recovery_zbi,
            recovery_vbmeta,
        }),
        None => Err(ManifestFault::NoZbi),
    }
}
