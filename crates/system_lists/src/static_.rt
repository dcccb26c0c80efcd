ghost use Rattle.std.specs.Prelude.{◌≡◌, ◌⊎◌, ◌<◌, [], List, ℕ, length, map, Ok, Err, IfOk, IfErr, OnOk};
ghost use Rattle.pkg_names.specs.declared.pinned.Pinned.{Pinned as PinnedOf};
ghost use Rattle.pkg_names.specs.Text.{lines_of};
ghost use Rattle.system_lists.specs.Entries.{listed, placed, Adds};
ghost use Rattle.system_lists.specs.Lists.{has_path_of};
ghost use Rattle.system_lists.specs.Static.{whole_path_in, pinned_line, as_static, static_of, StandsFor};

use crate::fault::StaticFault;
use crate::list::{ENTRY_LIMIT, ListFault, PinnedList, put};
use pkg_names::text::{cut_at, next_line};
use pkg_names::{Items, PackagePath, PathFault, Pinned, read_path, read_root};
use std::alloc::{AllocError, Global};

/// Reads a static list: the grammar of `docs/system_lists.md`.
pub fn read_static(alloc: Global, bytes: &[u8]) -> Result<PinnedList, StaticFault>
    ensures exact { (result ≡ static_of bytes.now) ⊎ (result ≡ Err StaticFault.NoMemory) }
{
    match read_lines(alloc, bytes) {
        Ok(list) => Ok(list),
        Err(ListFault::Bad { n }) => Err(StaticFault::Line { n }),
        Err(ListFault::Repeat { n }) => Err(StaticFault::Repeat { n }),
        Err(ListFault::NoMemory) => Err(StaticFault::NoMemory),
    }
}

/// A text is read as a list exactly where it stands for it. So no text stands for two.
pub fn texts_stand_for_what_is_read()
    ensures stands { (text : List ℕ) (list : List PinnedOf) → static_of text ≡ Ok list → StandsFor text list }
    ensures only { (text : List ℕ) (list : List PinnedOf) → StandsFor text list → static_of text ≡ Ok list }
{}

fn read_lines(alloc: Global, text: &[u8]) -> Result<PinnedList, ListFault>
    ensures { (result ≡ listed has_path_of [] (map pinned_line (lines_of text.now)))
        ⊎ (result ≡ Err ListFault.NoMemory) }
{
    let mut list = Vec::new(alloc);
    let mut rest = text;
    for n in 0..ENTRY_LIMIT {
        if rest.is_empty() {
            return Ok(Items::make(list));
        }
        let (line, after) = next_line(rest);
        put_line(alloc, &mut list, line)?;
        rest = after;
    }
    if rest.is_empty() {
        Ok(Items::make(list))
    } else {
        Err(ListFault::Bad {
            n: ENTRY_LIMIT as u32 + 1,
        })
    }
}

// Puts the package of a line last, if it may stand there.
fn put_line(alloc: Global, list: &mut Vec<Pinned>, line: &[u8]) -> Result<(), ListFault>
    requires { length list.old.items < ENTRY_LIMIT }
    ensures found { OnOk result
        (Adds (placed has_path_of list.old.items (pinned_line line.now)) list.old.items list.new.items) }
    ensures fault { IfErr result (λ fault. (fault ≡ ListFault.NoMemory)
        ⊎ (placed has_path_of list.old.items (pinned_line line.now) ≡ Err fault)) }
{
    let entry = pinned_in(alloc, line)?;
    put(list, entry)
}

// The package of a line.
fn pinned_in(alloc: Global, line: &[u8]) -> Result<Option<Pinned>, AllocError>
    ensures { IfOk result (λ found. found ≡ pinned_line line.now) }
{
    let Some((path, root)) = cut_at(line, b'=') else {
        return Ok(None);
    };
    let Ok(root) = read_root(root) else {
        return Ok(None);
    };
    match whole_path(alloc, path)? {
        Some(path) => Ok(Some(Pinned { path, root })),
        None => Ok(None),
    }
}

// The path in a text that has its variant.
fn whole_path(alloc: Global, text: &[u8]) -> Result<Option<PackagePath>, AllocError>
    ensures { IfOk result (λ found. found ≡ whole_path_in text.now) }
{
    if !text.contains(&b'/') {
        return Ok(None);
    }
    match read_path(alloc, text) {
        Ok(path) => Ok(Some(path)),
        Err(PathFault::BadName) => Ok(None),
        Err(PathFault::NoMemory) => Err(AllocError),
    }
}
