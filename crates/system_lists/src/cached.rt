ghost use Rattle.std.specs.Prelude.{◌≡◌, ◌⊎◌, ◌<◌, [], length, codes, Err, IfOk, IfErr, OnOk, option_and_then};
ghost use Rattle.serde_json.specs.Find.{get, as_array};
ghost use Rattle.serde_json.specs.View.{view, items_view};
ghost use Rattle.system_lists.specs.Entries.{listed, placed, Adds};
ghost use Rattle.system_lists.specs.Lists.{has_path_of};
ghost use Rattle.system_lists.specs.Document.{entries};
ghost use Rattle.system_lists.specs.Cached.{pinned_entry, pinned_of, content_of, cached_of};

use crate::document::read_document;
use crate::fault::CachedFault;
use crate::list::{ENTRY_LIMIT, ListFault, PinnedList, put};
use package_url::{Url, UrlFault, read_url};
use pkg_names::{Items, Pinned};
use serde_json::Value;
use std::alloc::{AllocError, Global};

/// Reads a cached list: the grammar of `docs/system_lists.md`.
pub fn read_cached(alloc: Global, bytes: &[u8]) -> Result<PinnedList, CachedFault>
    ensures exact { (result ≡ cached_of bytes.now) ⊎ (result ≡ Err CachedFault.NoMemory) }
{
    let value = read_document(alloc, bytes)?;
    read_content(alloc, &value)
}

fn read_content(alloc: Global, value: &Value) -> Result<PinnedList, CachedFault>
    ensures { (result ≡ content_of (option_and_then as_array (get (codes "content") (view value.now))))
        ⊎ (result ≡ Err CachedFault.NoMemory) }
{
    let Some(content) = value.get("content") else {
        return Err(CachedFault::Json);
    };
    let Some(values) = content.as_array() else {
        return Err(CachedFault::Json);
    };
    match read_entries(alloc, values) {
        Ok(list) => Ok(list),
        Err(ListFault::Bad { n }) => Err(CachedFault::Entry { n }),
        Err(ListFault::Repeat { n }) => Err(CachedFault::Entry { n }),
        Err(ListFault::NoMemory) => Err(CachedFault::NoMemory),
    }
}

fn read_entries(alloc: Global, values: &[Value]) -> Result<PinnedList, ListFault>
    ensures { (result ≡ listed has_path_of [] (entries pinned_entry (items_view values.now)))
        ⊎ (result ≡ Err ListFault.NoMemory) }
{
    let mut list = Vec::new(alloc);
    for value in values {
        if list.len() >= ENTRY_LIMIT {
            return Err(ListFault::Bad {
                n: ENTRY_LIMIT as u32 + 1,
            });
        }
        put_value(alloc, &mut list, value)?;
    }
    Ok(Items::make(list))
}

// Puts the package of an entry last, if it may stand there.
fn put_value(alloc: Global, list: &mut Vec<Pinned>, value: &Value) -> Result<(), ListFault>
    requires { length list.old.items < ENTRY_LIMIT }
    ensures found { OnOk result
        (Adds (placed has_path_of list.old.items (pinned_entry (view value.now))) list.old.items list.new.items) }
    ensures fault { IfErr result (λ fault. (fault ≡ ListFault.NoMemory)
        ⊎ (placed has_path_of list.old.items (pinned_entry (view value.now)) ≡ Err fault)) }
{
    let entry = pinned_in(alloc, value)?;
    put(list, entry)
}

// The package of an entry.
fn pinned_in(alloc: Global, value: &Value) -> Result<Option<Pinned>, AllocError>
    ensures { IfOk result (λ found. found ≡ pinned_entry (view value.now)) }
{
    let Some(text) = value.as_str() else {
        return Ok(None);
    };
    match read_url(alloc, text.as_bytes()) {
        Ok(url) => Ok(pinned_of(url)),
        Err(UrlFault::NoMemory) => Err(AllocError),
        Err(_) => Ok(None),
    }
}

fn pinned_of(url: Url) -> Option<Pinned>
    ensures { result ≡ pinned_of url.path url.pin url.file }
{
    match (url.pin, url.file) {
        (Some(root), None) => Some(Pinned {
            path: url.path,
            root,
        }),
        _ => None,
    }
}
