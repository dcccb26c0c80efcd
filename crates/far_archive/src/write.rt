//! Writing archives.

ghost use Rattle.std.specs.Prelude.{◌≡◌, ◌↔◌, ℕ, ◌+◌, ◌%◌, ◌^◌, ◌<◌, ◌≤◌, ◌++◌, [], length, OnOk, IfOk, IfSome, IfNone, All, Err};
ghost use Rattle.std.specs.List.{flat_map};
ghost use Rattle.pkg_names.specs.FileText.{IsFile};
ghost use Rattle.far_archive.specs.Archive.{IsArchive, index_bytes, item_bytes};
ghost use Rattle.far_archive.specs.Written.{up_to, filled, listed, joined_names, places_for, items_from, data_start, written, IsFirstUnordered, IsOrdered};

use crate::fault::WriteFault;
use crate::fields::Places;
use crate::judging::MAGIC;
use pkg_names::{Bytes, FilePath};
use std::alloc::{AllocError, Global};

// Files begin at multiples of this many bytes.
const PAGE: u64 = 4096;

/// A file to be written, with its name.
#[derive(Debug, Drop)]
pub struct FarEntry {
    pub name: FilePath,
    pub bytes: Bytes,
}

// The least multiple of the unit that isn't below n, if it fits.
fn up_to(unit: u64, n: u64) -> Option<u64>
    requires { 0 < unit }
    ensures { IfSome result (λ m. m ≡ up_to unit n) }
{
    let units = n.checked_add(unit - 1)? / unit;
    units.checked_mul(unit)
}

// Adds zeros up to a multiple of the unit.
fn fill(out: &mut Vec<u8>, unit: u64) -> Result<(), AllocError>
    requires { 0 < unit }
    ensures { OnOk result (out.new.items ≡ filled unit out.old.items) }
{
    let Some(len) = up_to(unit, out.len() as u64) else {
        return Err(AllocError);
    };
    out.resize(len as usize, 0)
}

// The first entry whose name isn't greater than the one before.
fn first_unordered(entries: &[FarEntry]) -> Option<u32>
    requires { length entries.now ≤ 65536 }
    ensures found { IfSome result (IsFirstUnordered (listed entries.now)) }
    ensures none { IfNone result (IsOrdered (listed entries.now)) }
{
    for k in 1..entries.len() {
        let before = entries[k - 1].name.as_slice();
        let name = entries[k].name.as_slice();
        if !before.cmp(&name).is_lt() {
            return Some(k as u32);
        }
    }
    None
}

// How long the names are together, if that fits.
fn names_len(entries: &[FarEntry]) -> Option<u64>
    ensures value { IfSome result (λ len. len ≡ length (joined_names (listed entries.now))) }
    ensures paths { IfSome result (λ _. All (λ file. IsFile file.0) (listed entries.now)) }
{
    let mut len = 0u64;
    for entry in entries {
        len = len.checked_add(entry.name.as_slice().len() as u64)?;
    }
    Some(len)
}

fn places_for(entries: &[FarEntry]) -> Option<Places>
    requires { length entries.now ≤ 65536 }
    ensures value { IfSome result (λ p. p ≡ places_for (listed entries.now)) }
    ensures paths { IfSome result (λ _. All (λ file. IsFile file.0) (listed entries.now)) }
{
    let dir_len = 32 * entries.len() as u64;
    Some(Places {
        dir_at: 64,
        dir_len,
        names_at: 64 + dir_len,
        names_len: up_to(8, names_len(entries)?)?,
    })
}

// Adds these bytes.
fn put(out: &mut Vec<u8>, bytes: &[u8]) -> Result<(), AllocError>
    ensures { OnOk result (out.new.items ≡ out.old.items ++ bytes.now) }
{
    out.extend_from_slice(bytes)
}

fn put_index(out: &mut Vec<u8>, p: &Places) -> Result<(), AllocError>
    ensures { OnOk result (out.new.items ≡ out.old.items ++ index_bytes p.now) }
{
    put(out, &MAGIC)?;
    put(out, &48u64.to_le_bytes())?;
    put(out, b"DIR-----")?;
    put(out, &p.dir_at.to_le_bytes())?;
    put(out, &p.dir_len.to_le_bytes())?;
    put(out, b"DIRNAMES")?;
    put(out, &p.names_at.to_le_bytes())?;
    put(out, &p.names_len.to_le_bytes())?;
    Ok(())
}

fn put_item(
    out: &mut Vec<u8>,
    entry: &FarEntry,
    name_at: u32,
    data_at: u64,
) -> Result<(), AllocError>
    ensures { OnOk result (out.new.items ≡ out.old.items ++ item_bytes (record {
      name_at = name_at;
      name = entry.now.name;
      data_at = data_at;
      bytes = entry.now.bytes;
    })) }
{
    let name_len = entry.name.as_slice().len() as u16;
    let data_len = entry.bytes.as_slice().len() as u64;
    put(out, &name_at.to_le_bytes())?;
    put(out, &name_len.to_le_bytes())?;
    put(out, &0u16.to_le_bytes())?;
    put(out, &data_at.to_le_bytes())?;
    put(out, &data_len.to_le_bytes())?;
    put(out, &0u64.to_le_bytes())?;
    Ok(())
}

// The directory: names from 0 on, and data from this place on.
fn put_directory(out: &mut Vec<u8>, entries: &[FarEntry], data_start: u64) -> Result<(), AllocError>
    ensures { OnOk result (out.new.items
        ≡ out.old.items ++ flat_map item_bytes (items_from (listed entries.now) 0 data_start)) }
{
    let mut name_at = 0u32;
    let mut data_at = data_start;
    for entry in entries {
        put_item(out, entry, name_at, data_at)?;
        (name_at, data_at) = after_item(entry, name_at, data_at)?;
    }
    Ok(())
}

// Where the name and the data of the next entry begin, if that fits.
fn after_item(entry: &FarEntry, name_at: u32, data_at: u64) -> Result<(u32, u64), AllocError>
    ensures { IfOk result (λ next. (next.0 ≡ name_at + length entry.now.name)
        × (next.1 ≡ data_at + up_to 4096 (length entry.now.bytes))) }
{
    let name_len = entry.name.as_slice().len() as u32;
    let Some(pages) = up_to(PAGE, entry.bytes.as_slice().len() as u64) else {
        return Err(AllocError);
    };
    match (name_at.checked_add(name_len), data_at.checked_add(pages)) {
        (Some(name), Some(file)) => Ok((name, file)),
        _ => Err(AllocError),
    }
}

fn put_names(out: &mut Vec<u8>, entries: &[FarEntry]) -> Result<(), AllocError>
    ensures { OnOk result (out.new.items ≡ out.old.items ++ joined_names (listed entries.now)) }
{
    for entry in entries {
        put(out, entry.name.as_slice())?;
    }
    Ok(())
}

// The files, each with zeros up to a page.
fn put_files(out: &mut Vec<u8>, entries: &[FarEntry]) -> Result<(), AllocError>
    requires { length out.old.items % 4096 ≡ 0 }
    ensures { OnOk result (out.new.items
        ≡ out.old.items ++ flat_map (λ file. filled 4096 file.1) (listed entries.now)) }
{
    for entry in entries {
        put(out, entry.bytes.as_slice())?;
        fill(out, PAGE)?;
    }
    Ok(())
}

// Index, directory and names, with zeros up to a multiple of 8.
fn put_front(
    out: &mut Vec<u8>,
    entries: &[FarEntry],
    p: &Places,
    data_start: u64,
) -> Result<(), AllocError>
    requires { out.old.items ≡ [] }
    ensures { OnOk result (out.new.items ≡ filled 8 (index_bytes p.now
        ++ flat_map item_bytes (items_from (listed entries.now) 0 data_start)
        ++ joined_names (listed entries.now))) }
{
    put_index(out, p)?;
    put_directory(out, entries, data_start)?;
    put_names(out, entries)?;
    fill(out, 8)
}

// The archive of these files.
fn written(alloc: Global, entries: &[FarEntry]) -> Result<Vec<u8>, AllocError>
    requires { length entries.now ≤ 65536 }
    ensures text { IfOk result (λ bytes. bytes.items ≡ written (listed entries.now)) }
    ensures paths { IfOk result (λ _. All (λ file. IsFile file.0) (listed entries.now)) }
    ensures small { IfOk result (λ bytes. length bytes.items < 2 ^ 64) }
{
    let Some(p) = places_for(entries) else {
        return Err(AllocError);
    };
    let Some(start) = data_start(&p) else {
        return Err(AllocError);
    };
    let mut out = Vec::new(alloc);
    put_front(&mut out, entries, &p, start)?;
    fill(&mut out, PAGE)?;
    put_files(&mut out, entries)?;
    Ok(out)
}

// Where the data begin, if that fits.
fn data_start(p: &Places) -> Option<u64>
    ensures { IfSome result (λ start. start ≡ up_to 4096 (p.now.names_at + p.now.names_len)) }
{
    up_to(PAGE, p.names_at.checked_add(p.names_len)?)
}

/// Writes an archive of these files. Sums that don't fit are want of memory.
pub fn write_far(alloc: Global, entries: &[FarEntry]) -> Result<Vec<u8>, WriteFault>
    requires { length entries.now ≤ 65536 }
    ensures text { IfOk result (λ bytes. bytes.items ≡ written (listed entries.now)) }
    ensures stands { IfOk result (λ bytes. IsArchive bytes.items (listed entries.now)) }
    ensures order { (k : ℕ) → (result ≡ Err (WriteFault.Order k)) ↔ IsFirstUnordered (listed entries.now) k }
{
    if let Some(entry) = first_unordered(entries) {
        return Err(WriteFault::Order { entry });
    }
    Ok(written(alloc, entries)?)
}
