//! A partition of `images.json`.

ghost use Rattle.std.specs.Prelude.{◌≡◌, codes, IfOk, option_and_then};
ghost use Rattle.std.specs.Option.{option_map};
ghost use Rattle.serde_json.specs.View.{view};
ghost use Rattle.update_manifest.specs.Partition.{slot_in, type_in, text_at, slot_at, type_at, size_at, hash_at, url_at, image_url, partition_in};

use crate::image::ImageRef;
use package_url::{Url, UrlFault, read_url};
use pkg_names::{Root, read_root};
use serde_json::Value;
use std::alloc::{AllocError, Global};

/// What a partition is for: the system itself, or its recovery.
#[derive(Clone, Copy, Debug, PartialEq, Eq)]
pub(crate) enum PartitionSlot {
    Fuchsia,
    Recovery,
}

/// What a partition holds.
#[derive(Clone, Copy, Debug, PartialEq, Eq)]
pub(crate) enum PartitionType {
    Zbi,
    Vbmeta,
}

/// A slot and a type, with the image for it.
#[derive(Debug, Drop)]
pub(crate) struct Partition {
    pub(crate) slot: PartitionSlot,
    pub(crate) kind: PartitionType,
    pub(crate) image: ImageRef,
}

/// The partition in an entry, if it is one.
pub(crate) fn partition_in(alloc: Global, value: &Value) -> Result<Option<Partition>, AllocError>
    ensures { IfOk result (λ found. found ≡ partition_in (view value.now)) }
{
    let Some(slot) = slot_at(value) else {
        return Ok(None);
    };
    let Some(kind) = type_at(value) else {
        return Ok(None);
    };
    let Some(len) = size_at(value) else {
        return Ok(None);
    };
    let Some(hash) = hash_at(value) else {
        return Ok(None);
    };
    let Some(url) = url_at(alloc, value)? else {
        return Ok(None);
    };
    let sha = hash.0;
    let image = ImageRef { len, sha, url };
    Ok(Some(Partition { slot, kind, image }))
}

// The string at a member.
fn text_at<'a>(value: &'a Value, name: &str) -> Option<&'a str>
    ensures { option_map (λ s. s.now) result ≡ text_at name.now (view value.now) }
{
    value.get(name)?.as_str()
}

fn slot_at(value: &Value) -> Option<PartitionSlot>
    ensures { result ≡ slot_at (view value.now) }
{
    slot_in(text_at(value, "slot")?)
}

fn slot_in(text: &str) -> Option<PartitionSlot>
    ensures { result ≡ slot_in text.now }
{
    if text == "fuchsia" {
        Some(PartitionSlot::Fuchsia)
    } else if text == "recovery" {
        Some(PartitionSlot::Recovery)
    } else {
        None
    }
}

fn type_at(value: &Value) -> Option<PartitionType>
    ensures { result ≡ type_at (view value.now) }
{
    type_in(text_at(value, "type")?)
}

fn type_in(text: &str) -> Option<PartitionType>
    ensures { result ≡ type_in text.now }
{
    if text == "zbi" {
        Some(PartitionType::Zbi)
    } else if text == "vbmeta" {
        Some(PartitionType::Vbmeta)
    } else {
        None
    }
}

fn size_at(value: &Value) -> Option<u64>
    ensures { result ≡ size_at (view value.now) }
{
    value.get("size")?.as_u64()
}

// 64 digits are read as those of a root are.
fn hash_at(value: &Value) -> Option<Root>
    ensures { result ≡ hash_at (view value.now) }
{
    read_root(text_at(value, "hash")?.as_bytes()).ok()
}

fn url_at(alloc: Global, value: &Value) -> Result<Option<Url>, AllocError>
    ensures { IfOk result (λ found. found ≡ url_at (view value.now)) }
{
    let Some(text) = text_at(value, "url") else {
        return Ok(None);
    };
    match read_url(alloc, text.as_bytes()) {
        Ok(url) => Ok(image_url(url)),
        Err(UrlFault::NoMemory) => Err(AllocError),
        Err(_) => Ok(None),
    }
}

// The URL, if it has a pin and a file.
fn image_url(url: Url) -> Option<Url>
    ensures { result ≡ image_url url }
{
    if url.pin.is_some() && url.file.is_some() {
        Some(url)
    } else {
        None
    }
}
