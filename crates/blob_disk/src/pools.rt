//! Pages are taken for an entry, and given back.

ghost use Rattle.std.specs.Prelude.{◌≡◌, ◌+◌, ◌<◌, ◌≤◌, ℕ, List, [], ◌∷◌, ◌++◌, length, vec_len, vec_capacity};
ghost use Rattle.std.specs.List.{All, Contains};
ghost use Rattle.node_table.specs.declared.entry.Entry.{Entry as EntryOf};
ghost use Rattle.node_table.specs.Entries.{IsChained, is_among};
ghost use Rattle.page_pool.specs.Flags.{IsFree, IsTaken, free_count, AreDistinct};
ghost use Rattle.blob_disk.specs.Pooled.{IsPooled, page_sum};
ghost use Rattle.blob_disk.specs.Gone.{gone_pages};

use node_table::Entry;
use page_pool::{Pool, taken_after};
use pkg_names::Root;

/// Takes pages for one entry more.
pub(crate) fn take_pages(pool: &mut Pool, need: u32, out: &mut Vec<u32>)
    requires enough { need ≤ free_count pool.old }
    requires empty { out.old.items ≡ [] }
    requires room { need ≤ vec_capacity out.old }
    ensures given { length out.new.items ≡ need }
    ensures were_free { All (IsFree pool.old) out.new.items }
    ensures apart { AreDistinct out.new.items }
    ensures pooled { (entries : List EntryOf) (entry : EntryOf) (count : ℕ) → entry.pages ≡ out.new.items
        → IsPooled entries pool.old count → IsPooled (entries ++ entry ∷ []) pool.new count }
{
    taken_after();
    match pool.take(need, out) {
        Ok(()) => {}
        Err(_) => unreachable!(),
    }
}

/// Gives the pages of an entry back.
pub(crate) fn give_pages(pool: &mut Pool, pages: &[u32])
    requires taken { All (IsTaken pool.old) pages.now }
    requires apart { AreDistinct pages.now }
    ensures { (before behind : List EntryOf) (entry : EntryOf) (count : ℕ) → entry.pages ≡ pages.now
        → ((page : ℕ) → IsChained (before ++ behind) page → Contains entry.pages page → ⊥)
        → IsPooled (before ++ entry ∷ behind) pool.old count → IsPooled (before ++ behind) pool.new count }
{
    taken_after();
    pool.give(pages);
}

/// Notes pages, for which there is room.
pub(crate) fn note_pages(spare: &mut Vec<u32>, pages: &[u32])
    requires { length pages.now ≤ vec_capacity spare.old }
    ensures items { spare.new.items ≡ pages.now }
    ensures room { vec_capacity spare.old ≤ vec_capacity spare.new }
{
    spare.clear();
    let _ = spare.extend_from_slice(pages);
}

/// Notes the pages of the entries that have one of these roots.
pub(crate) fn note_gone(spare: &mut Vec<u32>, entries: &[Entry], roots: &[Root])
    requires { page_sum entries.now ≤ vec_capacity spare.old }
    ensures items { spare.new.items ≡ gone_pages roots.now entries.now }
    ensures room { vec_capacity spare.old ≤ vec_capacity spare.new }
{
    spare.clear();
    for entry in entries {
        note_one(spare, entry, roots);
    }
}

// Notes the pages of an entry that has one of these roots.
fn note_one(spare: &mut Vec<u32>, entry: &Entry, roots: &[Root])
    requires { vec_len spare.old + length entry.now.pages ≤ vec_capacity spare.old }
    ensures items { spare.new.items ≡ spare.old.items ++ gone_pages roots.now (entry.now ∷ []) }
    ensures room { vec_capacity spare.old ≤ vec_capacity spare.new }
{
    if is_among(roots, &entry.root) {
        let _ = spare.extend_from_slice(entry.pages.as_slice());
    }
}

// Whether the root is one of these.
fn is_among(roots: &[Root], root: &Root) -> bool
    ensures { result ≡ is_among roots.now root.now }
{
    roots.iter().any(|other| *other == *root)
}
