//! What the sets do with their lists.

ghost use Rattle.std.specs.Prelude.{◌≡◌, ◌+◌, ◌<◌, ◌≤◌, ◌==◌, ◌++◌, map, find, option_copied, Some, OnOk, OnSome, IfNone, vec_len, vec_capacity};
ghost use Rattle.std.specs.List.{position};
ghost use Rattle.pkg_names.specs.NameAndVariant.{path_eq};
ghost use Rattle.pkg_names.specs.declared.pinned.Pinned.{Pinned as PinnedOf};
ghost use Rattle.open_tracker.specs.declared.dirs.DirEntry.{DirEntry as DirEntryOf};
ghost use Rattle.package_indexes.specs.declared.Arriving.{Arriving as ArrivingOf};
ghost use Rattle.package_indexes.specs.Indexes.{root_at, or_else, with_root, roots_of};
ghost use Rattle.package_indexes.specs.Sets.{AreDistinct, arriving_with, without_ticket, with_active, has_root, each_once};

use crate::Arriving;
use open_tracker::DirEntry;
use pkg_names::{PackagePath, Pinned, Root};
use std::alloc::AllocError;

// ---- paths

fn is_path(a: &PackagePath, b: &PackagePath) -> bool
    ensures { result ≡ path_eq a.now b.now }
{
    a.name() == b.name() && a.variant() == b.variant()
}

fn pair_of<'a>(pairs: &'a [Pinned], path: &PackagePath) -> Option<&'a Pinned>
    ensures { option_copied result ≡ find (λ (pair : PinnedOf). path_eq pair.path path.now) pairs.now }
{
    pairs.iter().find(|pair| is_path(&pair.path, path))
}

// The root of the first pair with this path.
pub(crate) fn root_of_path(pairs: &[Pinned], path: &PackagePath) -> Option<Root>
    ensures { result ≡ root_at pairs.now path.now }
{
    match pair_of(pairs, path) {
        Some(pair) => Some(pair.root),
        None => None,
    }
}

// The first of two that is there.
pub(crate) fn either(root: Option<Root>, other: Option<Root>) -> Option<Root>
    ensures { result ≡ or_else root other }
{
    match root {
        Some(root) => Some(root),
        None => other,
    }
}

fn place_at(pairs: &[Pinned], path: &PackagePath) -> Option<usize>
    ensures { result ≡ position (λ (pair : PinnedOf). path_eq pair.path path.now) pairs.now }
{
    pairs.iter().position(|pair| is_path(&pair.path, path))
}

// The path stands for this root from now on: in the place of its first pair, or else last.
pub(crate) fn put_root(pairs: &mut Vec<Pinned>, path: PackagePath, root: Root)
    requires { vec_len pairs.old < vec_capacity pairs.old }
    ensures pairs { pairs.new.items ≡ with_root pairs.old.items path root }
    ensures room { vec_capacity pairs.new ≡ vec_capacity pairs.old }
    ensures length { vec_len pairs.new ≤ vec_len pairs.old + 1 }
{
    match place_at(pairs, &path) {
        Some(place) => pairs[place].root = root,
        None => pairs.push_reserved(Pinned { path, root }),
    }
}

// ---- roots

pub(crate) fn is_among(roots: &[Root], root: &Root) -> bool
    ensures { result ≡ has_root roots.now root.now }
{
    roots.iter().any(|other| other == root)
}

// Keeps each root once, at its first place.
pub(crate) fn keep_first(roots: &mut Vec<Root>)
    ensures { roots.new.items ≡ each_once roots.old.items }
{
    let mut kept = 0;
    while kept < roots.len() {
        if is_among(&roots[..kept], &roots[kept]) {
            roots.remove(kept);
        } else {
            kept += 1;
        }
    }
}

pub(crate) fn add_roots(roots: &mut Vec<Root>, pairs: &[Pinned]) -> Result<(), AllocError>
    ensures { OnOk result (roots.new.items ≡ roots.old.items ++ roots_of pairs.now) }
{
    for pair in pairs {
        roots.push(pair.root)?;
    }
    Ok(())
}

pub(crate) fn add_arriving(roots: &mut Vec<Root>, arriving: &[Arriving]) -> Result<(), AllocError>
    ensures { OnOk result (roots.new.items
        ≡ roots.old.items ++ map (λ (arrival : ArrivingOf). arrival.root) arriving.now) }
{
    for arrival in arriving {
        roots.push(arrival.root)?;
    }
    Ok(())
}

pub(crate) fn add_open(roots: &mut Vec<Root>, dirs: &[DirEntry]) -> Result<(), AllocError>
    ensures { OnOk result (roots.new.items
        ≡ roots.old.items ++ map (λ (dir : DirEntryOf). dir.root) dirs.now) }
{
    for dir in dirs {
        roots.push(dir.root)?;
    }
    Ok(())
}

// ---- tickets

fn place_of(arriving: &[Arriving], ticket: u64) -> Option<usize>
    ensures { result ≡ position (λ (arrival : ArrivingOf). arrival.ticket == ticket) arriving.now }
{
    arriving.iter().position(|arrival| arrival.ticket == ticket)
}

// Takes the package of a ticket out of the list, if it is there.
pub(crate) fn take_ticket(arriving: &mut Vec<Arriving>, ticket: u64) -> Option<Arriving>
    requires { AreDistinct arriving.old.items }
    ensures found { result ≡ arriving_with arriving.old.items ticket }
    ensures left { arriving.new.items ≡ without_ticket arriving.old.items ticket }
    ensures distinct { AreDistinct arriving.new.items }
    ensures shorter { OnSome result (vec_len arriving.new + 1 ≡ vec_len arriving.old) }
    ensures none { IfNone result (arriving.new.items ≡ arriving.old.items) }
{
    match place_of(arriving, ticket) {
        Some(place) => Some(arriving.remove(place)),
        None => None,
    }
}

// A package that is opened is active under its path, unless the path is in the base.
pub(crate) fn make_active(active: &mut Vec<Pinned>, base: &[Pinned], arrival: Arriving)
    requires { vec_len active.old < vec_capacity active.old }
    ensures active { active.new.items ≡ with_active base.now active.old.items (Some arrival) }
    ensures room { vec_capacity active.new ≡ vec_capacity active.old }
    ensures length { vec_len active.new ≤ vec_len active.old + 1 }
{
    if root_of_path(base, &arrival.path).is_none() {
        put_root(active, arrival.path, arrival.root);
    }
}
