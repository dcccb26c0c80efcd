//! The boot record: which slot boots, how often it may still be tried, and its bytes.
//!
//! `docs/boot_record.md` of the repository has its rules and its format.
#![tactic(auto)]

mod booting;
mod bytes;
mod crc;
mod laws;
mod marks;
mod settling;

pub use booting::{boot, bootable};
pub use bytes::{decode, encode};
pub use laws::{
    boots_take_tries, changes_are_seen, marks_decide_boots, settling_is_unique, which_slot_boots,
};
pub use marks::{commit, factory, initial, mark_active, mark_unbootable};
pub use settling::{Settled, settles};

/// A slot that can boot. `R` is recovery.
#[derive(Clone, Copy, Debug, PartialEq, Eq)]
pub enum Slot {
    A,
    B,
    R,
}

/// What the boot record knows of slot A or B.
#[derive(Clone, Copy, Debug, PartialEq, Eq)]
pub struct SlotRecord {
    /// The higher one boots; 0 is never booted.
    pub priority: u8,
    /// How often it may be tried before it has succeeded.
    pub tries: u8,
    pub successful: bool,
}

/// The boot record.
#[derive(Clone, Copy, Debug, PartialEq, Eq)]
pub struct Record {
    pub a: SlotRecord,
    pub b: SlotRecord,
    /// Not 0: the next boot is recovery, once.
    pub one_shot: u8,
}

#[cfg(test)]
mod tests;
