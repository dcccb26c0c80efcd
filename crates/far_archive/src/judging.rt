//! The faults of a text, in the format's order.

ghost use Rattle.std.specs.Prelude.{◌≡◌, ◌+◌, ◌<◌, ◌≤◌, ◌^◌, nat_le, length, IsTrue, IfNone};
ghost use Rattle.far_archive.specs.Fields.{places, names_end, files};
ghost use Rattle.far_archive.specs.Archive.{IsArchive};
ghost use Rattle.far_archive.specs.Faults.{has_magic, has_types, is_aligned, is_inside, has_index, index_fault, first_fault};

use crate::entries::entries_fault;
use crate::fault::FarFault;
use crate::fields::{Places, places_of};
use pkg_names::files_are_tested;
use pkg_names::numbers::u64_at;

pub const MAGIC: [u8; 8] = [0xc8, 0xbf, 0x0b, 0x48, 0xad, 0xab, 0xc5, 0x11];

fn has_magic(bytes: &[u8]) -> bool
    ensures { result ≡ has_magic bytes.now }
{
    bytes.len() >= 8 && &bytes[..8] == MAGIC.as_slice()
}

fn has_types(bytes: &[u8]) -> bool
    requires { 64 ≤ length bytes.now }
    ensures { result ≡ has_types bytes.now }
{
    u64_at(bytes, 8) == 48
        && &bytes[16..24] == b"DIR-----".as_slice()
        && &bytes[40..48] == b"DIRNAMES".as_slice()
}

fn is_aligned(p: &Places) -> bool
    ensures { result ≡ is_aligned p.now }
{
    p.dir_at % 8 == 0 && p.dir_len % 8 == 0 && p.names_at % 8 == 0 && p.names_len % 8 == 0
}

// Whether this many bytes from a place on end by the limit.
pub fn ends_by(at: u64, len: u64, limit: u64) -> bool
    ensures value { result ≡ nat_le (at + len) limit }
    ensures fact { IsTrue result → at + len ≤ limit }
{
    match at.checked_add(len) {
        Some(end) => end <= limit,
        None => false,
    }
}

fn is_inside(p: &Places, len: u64) -> bool
    ensures value { result ≡ is_inside p.now len }
    ensures order { IsTrue result → p.now.dir_at + p.now.dir_len ≤ p.now.names_at }
    ensures inside { IsTrue result → p.now.names_at + p.now.names_len ≤ len }
{
    64 <= p.dir_at
        && ends_by(p.dir_at, p.dir_len, p.names_at)
        && ends_by(p.names_at, p.names_len, len)
}

#[tactic(auto, unfolding(crate::specs::Faults::has_index))]
fn has_index(bytes: &[u8]) -> bool
    ensures value { result ≡ has_index bytes.now }
    ensures long { IsTrue result → 64 ≤ length bytes.now }
    ensures order { IsTrue result
        → (places bytes.now).dir_at + (places bytes.now).dir_len ≤ (places bytes.now).names_at }
    ensures inside { IsTrue result → names_end bytes.now ≤ length bytes.now }
{
    if bytes.len() < 64 {
        return false;
    }
    let p = places_of(bytes);
    has_types(bytes) && is_aligned(&p) && is_inside(&p, bytes.len() as u64)
}

#[tactic(auto, unfolding(crate::specs::Faults::index_fault, crate::specs::Faults::has_directory))]
fn index_fault(bytes: &[u8]) -> Option<FarFault>
    ensures value { result ≡ index_fault bytes.now }
    ensures long { IfNone result (64 ≤ length bytes.now) }
    ensures order { IfNone result ((places bytes.now).dir_at + (places bytes.now).dir_len
        ≤ (places bytes.now).names_at) }
    ensures inside { IfNone result (names_end bytes.now ≤ length bytes.now) }
{
    if !has_magic(bytes) {
        return Some(FarFault::Magic);
    }
    if !has_index(bytes) {
        return Some(FarFault::Index);
    }
    if places_of(bytes).dir_len % 32 != 0 {
        return Some(FarFault::Directory);
    }
    None
}

// The same without what a text is that has none.
#[tactic(auto, unfolding(crate::specs::Faults::first_fault))]
fn fault_of(bytes: &[u8]) -> Option<FarFault>
    requires { length bytes.now < 2 ^ 32 }
    ensures value { result ≡ first_fault bytes.now }
    ensures long { IfNone result (64 ≤ length bytes.now) }
{
    if let Some(fault) = index_fault(bytes) {
        return Some(fault);
    }
    entries_fault(bytes, &places_of(bytes))
}

/// The first fault of the bytes, if they have one.
pub fn first_fault(bytes: &[u8]) -> Option<FarFault>
    requires { length bytes.now < 2 ^ 32 }
    ensures value { result ≡ first_fault bytes.now }
    ensures long { IfNone result (64 ≤ length bytes.now) }
    ensures stands { IfNone result (IsArchive bytes.now (files bytes.now)) }
{
    files_are_tested();
    fault_of(bytes)
}
