//! Look-ups among entries.

ghost use Rattle.std.specs.Prelude.{◌≡◌, ◌<◌, ◌≤◌, length, slice_index_or, slice_set, position, vec_len, IsSome, Some};
ghost use Rattle.node_table.specs.Entries.{IsEntry, entry_of, pages_for};
ghost use Rattle.node_table.specs.declared.entry.TheConstants.{BLOB_LIMIT};
ghost use Rattle.pkg_names.specs.Root.{root_eq};
ghost use Rattle.node_table.specs.declared.entry.Entry.{Entry as EntryOf};
ghost use Rattle.blob_disk.specs.Chains.{chain_of, draft_place, without_draft, without_pages};

use node_table::{Entry, Table};
use pkg_names::{Items, Root};
use std::alloc::Global;
use std::mem;

/// The chain of the entry of this root.
pub(crate) fn chain_of<'a>(entries: &'a [Entry], root: &Root) -> &'a [u32]
    ensures { result.now ≡ chain_of entries.now root.now }
{
    match entries.iter().find(|entry| *root == entry.root) {
        Some(entry) => entry.pages.as_slice(),
        None => &[],
    }
}

/// The entry of this root in the table.
pub(crate) fn entry_at<'a>(table: &'a Table, root: &Root) -> &'a Entry
    requires { IsSome (entry_of table.now.entries root.now) }
    ensures found { entry_of table.now.entries root.now ≡ Some result.now }
    ensures is { IsEntry table.now.geometry.data_pages result.now }
{
    table.find(root).unwrap()
}

/// The place of the draft of this root.
pub(crate) fn draft_at(drafts: &[Entry], root: &Root) -> usize
    requires { IsSome (entry_of drafts.now root.now) }
    ensures at { result ≡ draft_place root.now drafts.now }
    ensures below { result < length drafts.now }
    ensures is { (d : EntryOf)
        → entry_of drafts.now root.now ≡ Some (slice_index_or drafts.now result d) }
{
    place_of(drafts, root).unwrap()
}

// The place of the first entry of this root.
fn place_of(entries: &[Entry], root: &Root) -> Option<usize>
    ensures { result ≡ position (λ entry. root_eq root.now entry.root) entries.now }
{
    entries.iter().position(|entry| *root == entry.root)
}

/// Takes the draft of this root out of the drafts.
pub(crate) fn take_draft(drafts: &mut Vec<Entry>, root: &Root) -> Entry
    requires { IsSome (entry_of drafts.old.items root.now) }
    ensures at { draft_place root.now drafts.old.items < vec_len drafts.old }
    ensures was { (d : EntryOf) → slice_index_or drafts.old.items (draft_place root.now drafts.old.items) d ≡ result }
    ensures left { drafts.new.items ≡ without_draft root.now drafts.old.items }
{
    let place = draft_at(drafts, root);
    drafts.remove(place)
}

/// Takes the pages of the draft at this place: its whole entry. The draft stays, without pages.
pub(crate) fn lend_chain(alloc: Global, drafts: &mut Vec<Entry>, place: usize) -> Entry
    requires { place < vec_len drafts.old }
    ensures was { (d : EntryOf) → slice_index_or drafts.old.items place d ≡ result }
    ensures left { drafts.new.items ≡ slice_set drafts.old.items place (without_pages result) }
    ensures count { vec_len drafts.new ≡ vec_len drafts.old }
{
    let draft = &mut drafts[place];
    Entry {
        root: draft.root,
        len: draft.len,
        pages: mem::replace(&mut draft.pages, Items::make(Vec::new(alloc))),
    }
}

/// Gives the draft at this place its pages back.
pub(crate) fn return_chain(drafts: &mut Vec<Entry>, place: usize, pages: Vec<u32>)
    requires { place < vec_len drafts.old }
    ensures { (d : EntryOf) → drafts.new.items ≡ slice_set drafts.old.items place
        (record (slice_index_or drafts.old.items place d) { pages = pages.items }) }
{
    drafts[place].pages = Items::make(pages);
}

/// How many pages a blob of this length has.
pub(crate) fn pages_for(len: u64) -> u32
    requires { len ≤ BLOB_LIMIT }
    ensures { result ≡ pages_for len }
{
    (len as u32).div_ceil(4096).max(1)
}
