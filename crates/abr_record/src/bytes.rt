//! The 32 bytes of a boot record.

ghost use Rattle.std.specs.Prelude.{◌≡◌, ◌+◌, ◌≤◌, ◌↔◌, length, take, drop, Some, IsTrue, IsSome, IfSome};
ghost use Rattle.std.specs.Int.{w32, to_be_bytes};
ghost use Rattle.abr_record.specs.Crc.{crc32};
ghost use Rattle.abr_record.specs.Bytes.{magic_bytes, flag_byte, slot_bytes, summed_bytes, record_bytes, IsRecordBytes, slot_at, record_at, decoded};

use crate::crc::crc32;
use crate::{Record, SlotRecord};

const MAGIC: [u8; 4] = *b"\0AB0";

const MAJOR: u8 = 2;

const MINOR: u8 = 1;

fn slot_at(bytes: &[u8; 32], at: usize) -> SlotRecord
    requires { at + 3 ≤ 32 }
    ensures { result ≡ slot_at bytes.now at }
{
    SlotRecord {
        priority: bytes[at],
        tries: bytes[at + 1],
        successful: bytes[at + 2] != 0,
    }
}

fn has_magic(bytes: &[u8; 32]) -> bool
    ensures { IsTrue result ↔ (take 4 bytes.now ≡ magic_bytes) }
{
    &bytes[..4] == &MAGIC[..]
}

fn has_crc(bytes: &[u8; 32]) -> bool
    ensures { IsTrue result ↔ (drop 28 bytes.now ≡ to_be_bytes w32 (crc32 (take 28 bytes.now))) }
{
    let crc = crc32(&bytes[..28]).to_be_bytes();
    &bytes[28..] == &crc[..]
}

fn is_record(bytes: &[u8; 32]) -> bool
    ensures { IsTrue result ↔ IsRecordBytes bytes.now }
{
    has_magic(bytes) && bytes[4] == MAJOR && has_crc(bytes)
}

/// Reads a record. `None` where the magic, the major version or the CRC is wrong, and nowhere else.
pub fn decode(bytes: &[u8; 32]) -> Option<Record>
    ensures exactly { IsSome result ↔ IsRecordBytes bytes.now }
    ensures read { IfSome result (λ value. value ≡ record_at bytes.now) }
    ensures decoded { result ≡ decoded bytes.now }
{
    if !is_record(bytes) {
        return None;
    }
    Some(Record {
        a: slot_at(bytes, 8),
        b: slot_at(bytes, 12),
        one_shot: bytes[16],
    })
}

fn slot_bytes(slot: &SlotRecord) -> [u8; 4]
    ensures { result ≡ slot_bytes slot.now }
{
    [slot.priority, slot.tries, u8::from(slot.successful), 0]
}

// The part that the CRC is of.
fn summed_bytes(value: &Record) -> [u8; 28]
    ensures { result ≡ summed_bytes value.now }
{
    let mut bytes = [0; 28];
    bytes[..4].copy_from_slice(&MAGIC);
    bytes[4] = MAJOR;
    bytes[5] = MINOR;
    bytes[8..12].copy_from_slice(&slot_bytes(&value.a));
    bytes[12..16].copy_from_slice(&slot_bytes(&value.b));
    bytes[16] = value.one_shot;
    bytes
}

// The part that the CRC is of, and the CRC.
fn record_bytes(value: &Record) -> [u8; 32]
    ensures { result ≡ record_bytes value.now }
{
    let summed = summed_bytes(value);
    let mut bytes = [0; 32];
    bytes[..28].copy_from_slice(&summed);
    bytes[28..].copy_from_slice(&crc32(&summed).to_be_bytes());
    bytes
}

/// Writes a record: reserved bytes are 0, and a flag is 0 or 1.
pub fn encode(value: &Record) -> [u8; 32]
    ensures spelled { result ≡ record_bytes value.now }
    ensures back { decoded result ≡ Some value.now }
{
    record_bytes(value)
}
