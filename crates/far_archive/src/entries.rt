//! The entries of the directory, judged one after the other.

ghost use Rattle.std.specs.Prelude.{◌≡◌, ◌+◌, ◌*◌, ◌<◌, ◌≤◌, ◌^◌, nat_le, true, false, length, IsTrue, Some, None, IfOk, IfErr, IfSome, IfNone};
ghost use Rattle.far_archive.specs.Fields.{places, part, entry, entry_of, count, name_of, end_of, names_end};
ghost use Rattle.far_archive.specs.Faults.{has_name, has_range, name_before, floor, entry_fault, entries_fault};

use crate::fault::FarFault;
use crate::fields::{Entry, Places, entry_at};
use crate::judging::ends_by;
use pkg_names::is_file;

// The name of an entry, if it lies within the names.
fn name_within<'a>(bytes: &'a [u8], p: &Places, e: &Entry) -> Option<&'a [u8]>
    requires { p.now.names_at + p.now.names_len ≤ length bytes.now }
    ensures found { IfSome result (λ name. (nat_le (e.now.name_at + e.now.name_len) p.now.names_len ≡ true)
        × (name.now ≡ part bytes.now (p.now.names_at + e.now.name_at) e.now.name_len)) }
    ensures none { IfNone result (nat_le (e.now.name_at + e.now.name_len) p.now.names_len ≡ false) }
{
    let len = u64::from(e.name_len);
    let at = u64::from(e.name_at);
    if at + len > p.names_len {
        return None;
    }
    let from = (p.names_at + at) as usize;
    Some(&bytes[from..from + e.name_len as usize])
}

// The name of entry k, if it is one that may stand there.
#[tactic(auto, unfolding(crate::specs::Faults::has_name))]
fn good_name<'a>(bytes: &'a [u8], p: &Places, e: &Entry, before: &[u8], k: u32) -> Option<&'a [u8]>
    requires places { p.now ≡ places bytes.now }
    requires inside { names_end bytes.now ≤ length bytes.now }
    requires entry { e.now ≡ entry_of bytes.now k }
    requires before { before.now ≡ name_before bytes.now k }
    ensures found { IfSome result (λ name. (has_name bytes.now k ≡ true) × (name.now ≡ name_of bytes.now k)) }
    ensures none { IfNone result (has_name bytes.now k ≡ false) }
{
    let name = name_within(bytes, p, e)?;
    if e.name_zero == 0 && is_file(name) && before.cmp(&name).is_lt() {
        Some(name)
    } else {
        None
    }
}

#[tactic(auto, unfolding(crate::specs::Faults::has_range))]
fn has_range(bytes: &[u8], p: &Places, e: &Entry, start: u64, k: u32) -> bool
    requires places { p.now ≡ places bytes.now }
    requires inside { names_end bytes.now ≤ length bytes.now }
    requires entry { e.now ≡ entry_of bytes.now k }
    requires start { start ≡ floor bytes.now k }
    ensures value { result ≡ has_range bytes.now k }
    ensures ends { IsTrue result → e.now.data_at + e.now.data_len ≤ length bytes.now }
{
    e.end_zero == 0
        && e.data_at % 4096 == 0
        && p.names_at + p.names_len <= e.data_at
        && start <= e.data_at
        && ends_by(e.data_at, e.data_len, bytes.len() as u64)
}

// What the entries so far say of the next one: the name that has to be less, and where data may begin.
#[derive(Clone, Copy)]
struct Before<'a> {
    name: &'a [u8],
    end: u64,
}

// The fault of entry k, or what it says of the next one.
#[tactic(auto, unfolding(crate::specs::Faults::entry_fault))]
fn after_entry<'a>(
    bytes: &'a [u8],
    p: &Places,
    before: Before<'a>,
    k: u32,
) -> Result<Before<'a>, FarFault>
    requires places { p.now ≡ places bytes.now }
    requires inside { names_end bytes.now ≤ length bytes.now }
    requires directory { p.now.dir_at + 32 * k + 32 ≤ length bytes.now }
    requires before { before.name.now ≡ name_before bytes.now k }
    requires start { before.end ≡ floor bytes.now k }
    ensures found { IfOk result (λ after. (entry_fault bytes.now k ≡ None)
        × (after.name.now ≡ name_of bytes.now k) × (after.end ≡ end_of bytes.now k)) }
    ensures fault { IfErr result (λ fault. entry_fault bytes.now k ≡ Some fault) }
{
    let at = p.dir_at as usize + 32 * k as usize;
    let e = entry_at(bytes, at);
    let Some(name) = good_name(bytes, p, &e, before.name, k) else {
        return Err(FarFault::Name { entry: k });
    };
    if !has_range(bytes, p, &e, before.end, k) {
        return Err(FarFault::Range { entry: k });
    }
    Ok(Before {
        name,
        end: e.data_at + e.data_len,
    })
}

/// The first fault of the entries.
pub fn entries_fault(bytes: &[u8], p: &Places) -> Option<FarFault>
    requires places { p.now ≡ places bytes.now }
    requires directory { p.now.dir_at + p.now.dir_len ≤ length bytes.now }
    requires inside { names_end bytes.now ≤ length bytes.now }
    requires small { length bytes.now < 2 ^ 32 }
    ensures { result ≡ entries_fault bytes.now 0 (count bytes.now) }
{
    let mut before = Before {
        name: b"",
        end: p.names_at + p.names_len,
    };
    for k in 0..(p.dir_len / 32) as u32 {
        match after_entry(bytes, p, before, k) {
            Ok(after) => before = after,
            Err(fault) => return Some(fault),
        }
    }
    None
}
