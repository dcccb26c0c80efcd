//! The step of a boot.

ghost use Rattle.std.specs.Prelude.{◌≡◌, ◌≢◌, ◌↔◌, IsTrue};
ghost use Rattle.abr_record.specs.Boot.{boot_slot, boot_record};

use abr_record::{Record, Slot, boot};

/// What a boot does: the slot that it takes, the record after it, and whether that is another one.
#[derive(Clone, Copy, Debug, PartialEq, Eq)]
pub struct BootStep {
    pub slot: Slot,
    pub next: Record,
    pub write: bool,
}

/// The step of a boot from this record (`docs/boot_record.md`).
pub fn boot_step(value: &Record) -> BootStep
    ensures slot { result.slot ≡ boot_slot value.now }
    ensures next { result.next ≡ boot_record value.now }
    ensures write { IsTrue result.write ↔ (boot_record value.now ≢ value.now) }
{
    let (slot, next) = boot(value);
    BootStep {
        slot,
        next,
        write: next != *value,
    }
}
