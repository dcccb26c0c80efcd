//! The numbers of an archive at their places.

ghost use Rattle.std.specs.Prelude.{◌≡◌, ◌+◌, ◌≤◌, length};
ghost use Rattle.far_archive.specs.Fields.{places, entry};

use pkg_names::numbers::{u16_at, u32_at, u64_at};

/// Where the directory and the names lie.
#[derive(Clone, Copy, Debug)]
pub struct Places {
    pub dir_at: u64,
    pub dir_len: u64,
    pub names_at: u64,
    pub names_len: u64,
}

/// What a directory entry says. The two zeros have to be 0.
#[derive(Clone, Copy, Debug)]
pub struct Entry {
    pub name_at: u32,
    pub name_len: u16,
    pub name_zero: u16,
    pub data_at: u64,
    pub data_len: u64,
    pub end_zero: u64,
}

#[tactic(auto, unfolding(crate::specs::Fields::places))]
pub fn places_of(bytes: &[u8]) -> Places
    requires { 64 ≤ length bytes.now }
    ensures { result ≡ places bytes.now }
{
    Places {
        dir_at: u64_at(bytes, 24),
        dir_len: u64_at(bytes, 32),
        names_at: u64_at(bytes, 48),
        names_len: u64_at(bytes, 56),
    }
}

#[tactic(auto, unfolding(crate::specs::Fields::entry))]
pub fn entry_at(bytes: &[u8], at: usize) -> Entry
    requires { at + 32 ≤ length bytes.now }
    ensures { result ≡ entry bytes.now at }
{
    Entry {
        name_at: u32_at(bytes, at),
        name_len: u16_at(bytes, at + 4),
        name_zero: u16_at(bytes, at + 6),
        data_at: u64_at(bytes, at + 8),
        data_len: u64_at(bytes, at + 16),
        end_zero: u64_at(bytes, at + 24),
    }
}
