/// What was done to a disk: a write that succeeded, a write that failed, or a sync that succeeded.
#[derive(Debug, Drop)]
pub enum DiskAct {
    Wrote(u32, [u8; 4096]),
    Failed(u32, [u8; 4096]),
    Synced,
}
