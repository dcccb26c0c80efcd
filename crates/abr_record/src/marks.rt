//! The records to begin with, and the marks that a store sets.

ghost use Rattle.std.specs.Prelude.{◌≡◌, ◌≢◌, ◌==◌, ◌&&◌};
ghost use Rattle.abr_record.specs.Boot.{factory_record};
ghost use Rattle.abr_record.specs.Marks.{active_slot, unbootable_slot, lowered, committed_slot, active_record, unbootable_record, committed_record, initial_record};

use crate::{Record, Slot, SlotRecord};

const ACTIVE: SlotRecord = SlotRecord {
    priority: 15,
    tries: 7,
    successful: false,
};

const UNBOOTABLE: SlotRecord = SlotRecord {
    priority: 0,
    tries: 0,
    successful: false,
};

/// The record that is read where none can be: both slots may be tried, A first.
pub fn initial() -> Record
    ensures { result ≡ initial_record }
{
    Record {
        a: ACTIVE,
        b: SlotRecord {
            priority: 14,
            tries: 7,
            successful: false,
        },
        one_shot: 0,
    }
}

/// The record that a factory writes: A has succeeded, and B can't be booted.
pub fn factory() -> Record
    ensures { result ≡ factory_record }
{
    Record {
        a: SlotRecord {
            priority: 15,
            tries: 0,
            successful: true,
        },
        b: UNBOOTABLE,
        one_shot: 0,
    }
}

fn lowered(slot: &SlotRecord) -> SlotRecord
    ensures { result ≡ lowered slot.now }
{
    SlotRecord {
        priority: slot.priority.min(14),
        ..*slot
    }
}

fn committed_slot(slot: &SlotRecord) -> SlotRecord
    ensures { result ≡ committed_slot slot.now }
{
    SlotRecord {
        priority: if slot.priority == 0 {
            15
        } else {
            slot.priority
        },
        tries: 0,
        successful: true,
    }
}

// The record with these two slots.
fn with_slots(value: &Record, a: SlotRecord, b: SlotRecord) -> Record
    ensures { result ≡ record value.now { a = a; b = b } }
{
    Record { a, b, ..*value }
}

/// Makes a slot the one that boots next: it has the highest priority and all tries, and has yet to
/// succeed.
pub fn mark_active(value: &Record, slot: Slot) -> Record
    requires { slot ≢ Slot.R }
    ensures { result ≡ active_record slot value.now }
{
    match slot {
        Slot::A => with_slots(value, ACTIVE, lowered(&value.b)),
        Slot::B => with_slots(value, lowered(&value.a), ACTIVE),
        Slot::R => *value,
    }
}

/// Takes a slot out of the boot. The other one stays as it is.
pub fn mark_unbootable(value: &Record, slot: Slot) -> Record
    requires { slot ≢ Slot.R }
    ensures { result ≡ unbootable_record slot value.now }
{
    match slot {
        Slot::A => with_slots(value, UNBOOTABLE, value.b),
        Slot::B => with_slots(value, value.a, UNBOOTABLE),
        Slot::R => *value,
    }
}

/// A slot has succeeded, and the other one is taken out of the boot.
pub fn commit(value: &Record, slot: Slot) -> Record
    requires { slot ≢ Slot.R }
    ensures { result ≡ committed_record slot value.now }
{
    match slot {
        Slot::A => with_slots(value, committed_slot(&value.a), UNBOOTABLE),
        Slot::B => with_slots(value, UNBOOTABLE, committed_slot(&value.b)),
        Slot::R => *value,
    }
}
