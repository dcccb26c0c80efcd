//! Which slot boots, and the record after it.

ghost use Rattle.std.specs.Prelude.{◌≡◌};
ghost use Rattle.abr_record.specs.Boot.{is_bootable, is_a_first, tried, after_slot, boot_slot, boot_record};

use crate::{Record, Slot, SlotRecord};

/// Whether a slot can be booted: it has a priority, and has succeeded or has a try left.
pub fn bootable(slot: &SlotRecord) -> bool
    ensures { result ≡ is_bootable slot.now }
{
    slot.priority > 0 && (slot.successful || slot.tries > 0)
}

fn is_a_first(value: &Record) -> bool
    ensures { result ≡ is_a_first value.now }
{
    bootable(&value.a) && (!bootable(&value.b) || value.b.priority <= value.a.priority)
}

fn boot_slot(value: &Record) -> Slot
    ensures { result ≡ boot_slot value.now }
{
    if value.one_shot != 0 {
        Slot::R
    } else if is_a_first(value) {
        Slot::A
    } else if bootable(&value.b) {
        Slot::B
    } else {
        Slot::R
    }
}

// A slot that boots before it has succeeded loses a try.
fn tried(slot: &SlotRecord) -> SlotRecord
    ensures { result ≡ tried slot.now }
{
    if slot.successful {
        *slot
    } else {
        SlotRecord {
            tries: slot.tries.saturating_sub(1),
            ..*slot
        }
    }
}

/// The slot that boots, and the record after that boot.
pub fn boot(value: &Record) -> (Slot, Record)
    ensures slot { result.0 ≡ boot_slot value.now }
    ensures after { result.1 ≡ boot_record value.now }
{
    let slot = boot_slot(value);
    let after = match slot {
        Slot::A => Record {
            a: tried(&value.a),
            ..*value
        },
        Slot::B => Record {
            b: tried(&value.b),
            ..*value
        },
        Slot::R => Record {
            one_shot: 0,
            ..*value
        },
    };
    (slot, after)
}
