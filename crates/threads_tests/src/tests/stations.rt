//! Two threads that borrow one value with the lock in it.
use crate::depot::Depot;
use crate::stations::serve_and_close;
use disk_model::{Disk, MemDisk};
use pkg_merkle::root_of;
use std::test::Fail;

#[test]
fn stations_borrow_one_value(rt: HostRuntime) -> Result<(), Fail> {
    let disk = MemDisk::make(rt.alloc(), 3, Vec::new(rt.alloc()))?;
    let (depot, ones, twos) = serve_and_close(&rt, rt.alloc(), disk, 40)?;
    assert_eq!(rt; (ones, twos), (40, 40));
    let (puts, drafts) = depot.into_parts();
    assert_eq!(rt; puts.len(), 80);
    let mut counts = [0u64; 3];
    for (at, put) in puts.iter().enumerate() {
        assert_eq!(rt; put.number, at as u64);
        let lane = (put.lane % 3) as usize;
        counts[lane] = counts[lane].wrapping_add(1);
    }
    assert_eq!(rt; counts, [0, 40, 40]);
    for (lane, draft) in drafts.into_iter().enumerate() {
        let mut bytes = Vec::new(rt.alloc());
        for _ in 0..counts[lane % 3] {
            bytes.extend_from_slice(&[(lane % 3) as u8; 4096])?;
        }
        if bytes.len() > 1_000_000 {
            return Err(Fail::from("more bytes than were put"));
        }
        assert_eq!(rt; draft.finish(), root_of(bytes.as_slice()));
    }
    Ok(())
}
