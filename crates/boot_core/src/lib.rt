//! Whether a system is whole, read through a store that can be looked into, and the step of a boot.
//!
//! `docs/model.md` has the rules of a whole system, and `docs/boot_record.md` those of a boot.
#![tactic(auto)]

mod boot;
mod hand;
mod laws;
mod looking;
mod memory;
mod seen;
mod wholeness;

pub use boot::{BootStep, boot_step};
pub use laws::{booted_slots_are_whole, whole_systems_are_complete};
pub use looking::{Look, LookReply, SeenBlob};
pub use memory::MemLook;
pub use wholeness::{BaseOf, WholeFault, whole};
