//! A disk of pages, what a power loss may leave of it, and disks in memory.
#![tactic(auto)]

mod act;
mod copy;
mod disk;
mod fuse;
mod last;
mod laws;
mod mem;
mod pages;
mod power_loss;
mod quiet;
mod replay;
mod rows;
mod trail;

pub use act::DiskAct;
pub use copy::CopyFault;
pub use disk::{Disk, DiskFailed};
pub use fuse::FuseDisk;
pub use laws::{
    earlier_moment, fresh_disk, images_after_sync, images_after_write, pages_apart,
    possible_after_act, untouched_page,
};
pub use mem::MemDisk;
pub use power_loss::{Pick, RestartFault, last_picks, restart};
pub use quiet::QuietDisk;
pub use rows::{settle_pages, write_pages};
pub use trail::Trail;
