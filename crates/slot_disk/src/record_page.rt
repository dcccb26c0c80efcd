//! The page of the boot record.

ghost use Rattle.std.specs.Prelude.{◌≡◌, ◌≤◌, ℕ, slice_index, take};
ghost use Rattle.abr_record.specs.Bytes.{record_bytes};
ghost use Rattle.slot_disk.specs.Header.{record_on};

use crate::part::zeros;
use abr_record::{Record, decode, encode, initial};

/// The record of a page: the initial one where none can be read.
pub(crate) fn read_record(page: &[u8; 4096]) -> Record
    ensures { result ≡ record_on page.now }
{
    let mut bytes = [0; 32];
    bytes.copy_from_slice(&page[..32]);
    decode(&bytes).unwrap_or(initial())
}

/// The page that has a record, with zeros behind it.
pub(crate) fn write_record(value: &Record) -> [u8; 4096]
    ensures spelled { take 32 result ≡ record_bytes value.now }
    ensures reads { record_on result ≡ value.now }
    ensures rest { (i : ℕ) → 32 ≤ i → slice_index result i ≡ 0 }
{
    let mut page = zeros();
    page[..32].copy_from_slice(&encode(value));
    page
}
