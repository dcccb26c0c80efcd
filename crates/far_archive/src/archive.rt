//! Archives, and reading them.

ghost use Rattle.std.specs.Prelude.{◌≡◌, ◌≢◌, ◌↔◌, IsOk, ℕ, ◌+◌, ◌^◌, ◌<◌, ◌≤◌, length, List, All, Contains, Some, None, IfOk, IfErr, IfSome, IfNone, vec_len, slice_get};
ghost use Rattle.std.specs.Option.{option_map, option_copied};
ghost use Rattle.far_archive.specs.Fields.{AreBytes, entry_of, count, name_of, data_of, files};
ghost use Rattle.far_archive.specs.Faults.{first_fault};
ghost use Rattle.far_archive.specs.Archive.{IsArchive, HasAscendingNames};
ghost use Rattle.far_archive.specs.Invariant.{Keeps};
ghost use Rattle.far_archive.specs.Named.{file_named};

use crate::fault::FarFault;
use crate::fields::{Entry, Places, entry_at, places_of};
use crate::judging::first_fault;
use pkg_names::files_are_tested;
use std::cmp::Ordering;
use std::marker::Model;

/// An archive, which owns its bytes. Contracts see the list of its files, each a name and its bytes.
#[derive(Debug, Drop)]
pub struct Archive {
    bytes: Vec<u8>,
    places: Places,
}

impl Model for Archive {
    ghost use Rattle.std.specs.Prelude.{List, ℕ};
    ghost use Rattle.far_archive.specs.Fields.{files};
    ghost use Rattle.far_archive.specs.Invariant.{Keeps};

    ghost Value = { List (List ℕ × List ℕ) };

    ghost view = { λ a. files a.bytes.items };

    ghost invariant = { λ a. Keeps a.bytes.items a.places };
}

/// What is wrong with bytes that are no archive, and these bytes.
#[derive(Debug, Drop)]
pub struct FarRefusal {
    pub fault: FarFault,
    pub bytes: Vec<u8>,
}

/// Reads an archive. The archive keeps the bytes; a refusal hands them back. No memory is taken.
pub fn read_far(bytes: Vec<u8>) -> Result<Archive, FarRefusal>
    requires { vec_len bytes < 2 ^ 32 }
    ensures found { IfOk result (λ archive. IsArchive bytes.items archive) }
    ensures exact { IsOk result ↔ (first_fault bytes.items ≡ None) }
    ensures fault { IfErr result (λ refusal. first_fault bytes.items ≡ Some refusal.fault) }
    ensures back { IfErr result (λ refusal. refusal.bytes ≡ bytes) }
{
    if let Some(fault) = first_fault(&bytes) {
        return Err(FarRefusal { fault, bytes });
    }
    let places = places_of(&bytes);
    Ok(Archive { bytes, places })
}

// Entry k of an archive.
fn kept_entry(bytes: &[u8], p: &Places, k: u32) -> Entry
    requires kept { Keeps bytes.now p.now }
    requires within { k < count bytes.now }
    ensures entry { result ≡ entry_of bytes.now k }
    ensures name { p.now.names_at + result.name_at + result.name_len ≤ length bytes.now }
    ensures file { result.data_at + result.data_len ≤ length bytes.now }
{
    let at = p.dir_at as usize + 32 * k as usize;
    entry_at(bytes, at)
}

// The name of entry k.
fn kept_name<'a>(bytes: &'a [u8], p: &Places, k: u32) -> &'a [u8]
    requires kept { Keeps bytes.now p.now }
    requires within { k < count bytes.now }
    ensures { result.now ≡ name_of bytes.now k }
{
    let e = kept_entry(bytes, p, k);
    let from = p.names_at as usize + e.name_at as usize;
    &bytes[from..from + e.name_len as usize]
}

// The bytes of the file of entry k.
fn kept_file<'a>(bytes: &'a [u8], p: &Places, k: u32) -> &'a [u8]
    requires kept { Keeps bytes.now p.now }
    requires within { k < count bytes.now }
    ensures { result.now ≡ data_of bytes.now k }
{
    let e = kept_entry(bytes, p, k);
    let from = e.data_at as usize;
    &bytes[from..from + e.data_len as usize]
}

// The entry of this name, by bisection over the names.
fn place_of(bytes: &[u8], p: &Places, name: &[u8]) -> Option<u32>
    requires { Keeps bytes.now p.now }
    ensures found { IfSome result (λ k. (k < count bytes.now) × (name_of bytes.now k ≡ name.now)) }
    ensures none { IfNone result ((k : ℕ) → k < count bytes.now → name_of bytes.now k ≢ name.now) }
{
    let mut low = 0;
    let mut high = (p.dir_len / 32) as u32;
    while low < high {
        let middle = low + (high - low) / 2;
        match kept_name(bytes, p, middle).cmp(&name) {
            Ordering::Equal => return Some(middle),
            Ordering::Less => low = middle + 1,
            Ordering::Greater => high = middle,
        }
    }
    None
}

impl Archive {
    /// How many files there are.
    pub fn count(&self) -> u32
        ensures { result ≡ length self.now }
    {
        (self.places.dir_len / 32) as u32
    }

    /// The name of a file, counted from 0 in the order of the names.
    pub fn name_at(&self, entry: u32) -> &[u8]
        requires { entry < length self.now }
        ensures { option_map (λ file. file.0) (slice_get self.now entry) ≡ Some result.now }
    {
        kept_name(&self.bytes, &self.places, entry)
    }

    /// The bytes of the file of this name.
    pub fn find(&self, name: &[u8]) -> Option<&[u8]>
        ensures value { option_copied result ≡ file_named name.now self.now }
        ensures found { IfSome result (λ file. Contains self.now (name.now, file.now)) }
        ensures none { IfNone result (All (λ file. file.0 ≢ name.now) self.now) }
    {
        let Some(entry) = place_of(&self.bytes, &self.places, name) else {
            return None;
        };
        Some(kept_file(&self.bytes, &self.places, entry))
    }
}

/// Each text of bytes stands for one list of files, or has one first fault, and never both.
pub fn texts_stand_or_have_a_fault()
    ensures stands { (text : List ℕ) → AreBytes text → length text < 2 ^ 64 → first_fault text ≡ None
        → IsArchive text (files text) }
    ensures one { (text : List ℕ) (list : List (List ℕ × List ℕ)) → IsArchive text list → list ≡ files text }
    ensures no_fault { (text : List ℕ) (list : List (List ℕ × List ℕ)) → IsArchive text list → first_fault text ≡ None }
    ensures ascend { (text : List ℕ) (list : List (List ℕ × List ℕ)) → IsArchive text list → HasAscendingNames list }
{
    files_are_tested();
}
