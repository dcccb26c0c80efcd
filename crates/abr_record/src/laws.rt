//! Laws of the boot record. Each function has an empty body: its contract is the law.

ghost use Rattle.std.specs.Prelude.{◌≡◌, ◌≢◌, ◌⊎◌, ◌↔◌, ℕ, ◌+◌, ◌<◌, ◌≤◌, List, length, slice_index, slice_set, codes, All, None, IsTrue};
ghost use Rattle.abr_record.specs.declared.Slot.{Slot};
ghost use Rattle.abr_record.specs.declared.SlotRecord.{SlotRecord};
ghost use Rattle.abr_record.specs.declared.Record.{Record};
ghost use Rattle.abr_record.specs.declared.settling.Settled.{Settled};
ghost use Rattle.abr_record.specs.Boot.{is_bootable, tried, boot_slot, boot_record, factory_record};
ghost use Rattle.abr_record.specs.Bytes.{IsRecordBytes, decoded};
ghost use Rattle.abr_record.specs.Crc.{crc32};
ghost use Rattle.abr_record.specs.Marks.{active_record, unbootable_record, committed_record};
ghost use Rattle.abr_record.specs.Settling.{SettlesOn, record_after};

use crate::Slot;

/// Which slot boots. A or B boots only where recovery isn't asked for and it can be booted, and then
/// exactly where the other can't be or goes behind it: by a lower priority, or, of A's, by the same.
/// Else recovery boots. The factory record boots A, and stays as it is.
pub fn which_slot_boots()
    ensures can { (slot : SlotRecord) → IsTrue (is_bootable slot)
        ↔ ((0 < slot.priority) × (IsTrue slot.successful ⊎ (0 < slot.tries))) }
    ensures a { (r : Record) → (boot_slot r ≡ Slot.A) ↔ ((r.one_shot ≡ 0) × IsTrue (is_bootable r.a)
        × (IsTrue (is_bootable r.b) → r.b.priority ≤ r.a.priority)) }
    ensures b { (r : Record) → (boot_slot r ≡ Slot.B) ↔ ((r.one_shot ≡ 0) × IsTrue (is_bootable r.b)
        × (IsTrue (is_bootable r.a) → r.a.priority < r.b.priority)) }
    ensures factory { boot_slot factory_record ≡ Slot.A }
    ensures stays { boot_record factory_record ≡ factory_record }
{}

/// What a boot leaves. Recovery takes back what asked for it. A slot that has succeeded is booted and
/// stays as it is. One that hasn't loses exactly one try, and nothing else. All else stays.
pub fn boots_take_tries()
    ensures recovery { (r : Record) → boot_slot r ≡ Slot.R → boot_record r ≡ record r { one_shot = 0 } }
    ensures a { (r : Record) → boot_slot r ≡ Slot.A → boot_record r ≡ record r { a = tried r.a } }
    ensures b { (r : Record) → boot_slot r ≡ Slot.B → boot_record r ≡ record r { b = tried r.b } }
    ensures succeeded { (slot : SlotRecord) → IsTrue slot.successful → tried slot ≡ slot }
    ensures one { (slot : SlotRecord) → IsTrue (is_bootable slot) → (IsTrue slot.successful → ⊥)
        → (tries : ℕ) × (slot.tries ≡ tries + 1) × (tried slot ≡ record slot { tries = tries }) }
{}

/// What the marks come to. Where recovery isn't asked for, a slot that was made active boots next, and so
/// does one that was committed; then that boot changes nothing. A slot that was made unbootable, and the
/// other one at a commit, can't be booted.
pub fn marks_decide_boots()
    ensures active { (slot : Slot) (r : Record) → slot ≢ Slot.R → r.one_shot ≡ 0
        → boot_slot (active_record slot r) ≡ slot }
    ensures unbootable { (slot : Slot) (r : Record) → slot ≢ Slot.R
        → boot_slot (unbootable_record slot r) ≢ slot }
    ensures committed { (slot : Slot) (r : Record) → slot ≢ Slot.R → r.one_shot ≡ 0
        → boot_slot (committed_record slot r) ≡ slot }
    ensures stays { (slot : Slot) (r : Record) → slot ≢ Slot.R → r.one_shot ≡ 0
        → boot_record (committed_record slot r) ≡ committed_record slot r }
    ensures alone { (slot other : Slot) (r : Record) → slot ≢ Slot.R → other ≢ Slot.R → other ≢ slot
        → boot_slot (committed_record slot r) ≢ other }
{}

/// The CRC has its published check value, and sees each change of one byte: two lists of bytes that
/// differ in just one byte have two CRCs. So bytes that are read as a record, with one of them changed,
/// are read as none.
pub fn changes_are_seen()
    ensures check { crc32 (codes "123456789") ≡ 0xcbf43926 }
    ensures crc { (bytes : List ℕ) (i byte : ℕ) → All (λ b. b < 256) bytes → byte < 256 → i < length bytes
        → byte ≢ slice_index bytes i → crc32 (slice_set bytes i byte) ≢ crc32 bytes }
    ensures read { (bytes : List ℕ) (i byte : ℕ) → All (λ b. b < 256) bytes → byte < 256
        → length bytes ≡ 32 → i < 32 → byte ≢ slice_index bytes i → IsRecordBytes bytes
        → decoded (slice_set bytes i byte) ≡ None }
{}

/// What it is to settle. A record settles on one slot, after one number of boots. From then on it stays as
/// it is, and the slot is recovery or one that has succeeded.
pub fn settling_is_unique()
    ensures one { (r : Record) (s t : Settled) → SettlesOn r s → SettlesOn r t → s ≡ t }
    ensures stays { (r : Record) (s : Settled) (n : ℕ) → SettlesOn r s → s.boots ≤ n
        → record_after n r ≡ record_after s.boots r }
    ensures a { (r : Record) (s : Settled) → SettlesOn r s → s.slot ≡ Slot.A
        → IsTrue (record_after s.boots r).a.successful }
    ensures b { (r : Record) (s : Settled) → SettlesOn r s → s.slot ≡ Slot.B
        → IsTrue (record_after s.boots r).b.successful }
{}
