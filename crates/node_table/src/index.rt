//! The index: the place of the entry of each root.

ghost use Rattle.std.specs.Prelude.{◌≡◌, ◌≢◌, ◌+◌, ◌^◌, ◌<◌, ◌≤◌, ◌∷◌, ◌++◌, [], ◌↔◌, Some, None, false, if◌then◌else◌, length, vec_len, vec_capacity, option_copied, IsTrue};
ghost use Rattle.std.specs.List.{AllPairs};
ghost use Rattle.std.specs.HashMap.{get, spare, hash_map_len};
ghost use Rattle.pkg_names.specs.declared.root.Root.{Root as RootOf};
ghost use Rattle.pkg_names.specs.Root.{root_eq};
ghost use Rattle.node_table.specs.Entries.{is_among, without, with_added, entry_of};
ghost use Rattle.node_table.specs.Steps.{IsIndex, place_from};

use crate::entry::Entry;
use pkg_names::Root;
use std::collections::HashMap;

// Puts a place, and gives the one before.
fn put_place(index: &mut HashMap<Root, u32>, root: Root, place: u32) -> Option<u32>
    requires { 0 < spare index.old }
    ensures before { result ≡ get root_eq index.old root }
    ensures put { (other : RootOf) → get root_eq index.new other
        ≡ (if root_eq root other then Some place else get root_eq index.old other) }
    ensures spare { spare index.old ≤ spare index.new + 1 }
    ensures room { result ≡ None
        → hash_map_len index.old + spare index.old ≤ hash_map_len index.new + spare index.new }
{
    match index.insert(root, place) {
        Ok(before) => before,
        Err(_) => unreachable!(),
    }
}

/// Puts an entry last. Where its root is there already, it answers `false`, and the index is spoiled.
pub(crate) fn put_last(
    index: &mut HashMap<Root, u32>,
    entries: &mut Vec<Entry>,
    entry: Entry,
) -> bool
    requires index { IsIndex index.old entries.old.items }
    requires spare { 0 < spare index.old }
    requires capacity { vec_len entries.old < vec_capacity entries.old }
    requires small { vec_len entries.old < 2 ^ 32 }
    ensures fresh { IsTrue result ↔ (place_from 0 entries.old.items entry.root ≡ None) }
    ensures put { IsTrue result → entries.new.items ≡ entries.old.items ++ entry ∷ [] }
    ensures index { IsTrue result → IsIndex index.new entries.new.items }
    ensures kept { result ≡ false → entries.new.items ≡ entries.old.items }
    ensures spare { spare index.old ≤ spare index.new + 1 }
    ensures room { IsTrue result
        → hash_map_len index.old + spare index.old ≤ hash_map_len index.new + spare index.new }
    ensures capacity { vec_capacity entries.new ≡ vec_capacity entries.old }
{
    match put_place(index, entry.root, entries.len() as u32) {
        None => {
            entries.push_reserved(entry);
            true
        }
        Some(_) => false,
    }
}

/// Makes the index anew.
pub(crate) fn fill_index(index: &mut HashMap<Root, u32>, entries: &[Entry])
    requires spare { length entries.now ≤ hash_map_len index.old + spare index.old }
    requires small { length entries.now < 2 ^ 32 }
    requires distinct { AllPairs (λ a b. a.root ≢ b.root) entries.now }
    ensures index { IsIndex index.new entries.now }
    ensures left { hash_map_len index.old + spare index.old ≤ length entries.now + spare index.new }
    ensures room { hash_map_len index.old + spare index.old ≤ hash_map_len index.new + spare index.new }
{
    index.clear();
    for (i, entry) in entries.iter().enumerate() {
        let _ = put_place(index, entry.root, i as u32);
    }
}

/// The entry of a root.
pub(crate) fn find<'a>(
    index: &HashMap<Root, u32>,
    entries: &'a [Entry],
    root: &Root,
) -> Option<&'a Entry>
    requires { IsIndex index.now entries.now }
    ensures { option_copied result ≡ entry_of entries.now root.now }
{
    match index.get(root) {
        Some(place) => Some(&entries[*place as usize]),
        None => None,
    }
}

/// Whether a root is among these.
pub(crate) fn is_among(roots: &[Root], root: &Root) -> bool
    ensures { result ≡ is_among roots.now root.now }
{
    roots.iter().any(|other| *other == *root)
}

/// Takes the entries of these roots away.
pub(crate) fn remove(entries: &mut Vec<Entry>, gone: &[Root])
    ensures items { entries.new.items ≡ without gone.now entries.old.items }
    ensures capacity { vec_capacity entries.new ≡ vec_capacity entries.old }
{
    entries.retain(|entry| !is_among(gone, &entry.root));
}

// Takes the entries of these roots away, puts an entry last, and makes the index anew.
fn change_all(
    entries: &mut Vec<Entry>,
    index: &mut HashMap<Root, u32>,
    add: Option<Entry>,
    gone: &[Root],
)
    requires room { length (with_added add (without gone.now entries.old.items))
        ≤ vec_capacity entries.old }
    requires distinct { AllPairs (λ a b. a.root ≢ b.root)
        (with_added add (without gone.now entries.old.items)) }
    requires small { vec_capacity entries.old < 2 ^ 32 }
    requires spare { vec_capacity entries.old ≤ hash_map_len index.old + spare index.old }
    ensures items { entries.new.items ≡ with_added add (without gone.now entries.old.items) }
    ensures index { IsIndex index.new entries.new.items }
    ensures left { vec_capacity entries.old ≤ length entries.new.items + spare index.new }
    ensures capacity { vec_capacity entries.new ≡ vec_capacity entries.old }
    ensures room { hash_map_len index.old + spare index.old
        ≤ hash_map_len index.new + spare index.new }
{
    remove(entries, gone);
    if let Some(entry) = add {
        entries.push_reserved(entry);
    }
    fill_index(index, entries);
}

/// Takes the entries of these roots away, and puts an entry last. The index is made anew only where there
/// are roots to go.
pub(crate) fn change(
    entries: &mut Vec<Entry>,
    index: &mut HashMap<Root, u32>,
    add: Option<Entry>,
    gone: &[Root],
)
    requires index { IsIndex index.old entries.old.items }
    requires left { vec_capacity entries.old ≤ length entries.old.items + spare index.old }
    requires room { length (with_added add (without gone.now entries.old.items))
        ≤ vec_capacity entries.old }
    requires distinct { AllPairs (λ a b. a.root ≢ b.root)
        (with_added add (without gone.now entries.old.items)) }
    requires small { vec_capacity entries.old < 2 ^ 32 }
    requires spare { vec_capacity entries.old ≤ hash_map_len index.old + spare index.old }
    ensures items { entries.new.items ≡ with_added add (without gone.now entries.old.items) }
    ensures index { IsIndex index.new entries.new.items }
    ensures left { vec_capacity entries.old ≤ length entries.new.items + spare index.new }
    ensures capacity { vec_capacity entries.new ≡ vec_capacity entries.old }
    ensures room { hash_map_len index.old + spare index.old
        ≤ hash_map_len index.new + spare index.new }
{
    if !gone.is_empty() {
        change_all(entries, index, add, gone);
    } else if let Some(entry) = add {
        let _ = put_last(index, entries, entry);
    }
}
