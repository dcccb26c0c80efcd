//! Runs whose history can't be written whole.

use crate::set_up::{copies, run_text};
use package_shop::Shop;
use pkg_names::streams::MemSink;
use pkg_tool::Status;
use std::test::Fail;

// A sink that fails at its first call, and one that is full in mid-text. The history is there all the same.
#[test]
fn sinks_that_fail(rt: HostRuntime) -> Result<(), Fail> {
    let alloc = rt.alloc();
    for (script, room, failing, written, events) in [
        (
            b"1 collect".as_slice(),
            999u32,
            1u64,
            b"".as_slice(),
            2usize,
        ),
        (b"1 collect\n", 3, 0, b"1 0", 2),
        (b"", 999, 1, b"", 1),
    ] {
        let repos = copies(alloc, Shop::new(alloc).into_repo(Vec::new(alloc)), 1)?;
        let mut sink = MemSink::make(alloc, room, vec![in alloc; failing]?)?;
        let ended = run_text(&rt, alloc, script, repos, &mut sink)?;
        assert_eq!(rt; ended.status, Status::SinkFault);
        assert!(rt; !ended.starved);
        assert_eq!(rt; ended.history.len(), events);
        assert_eq!(rt; sink.written(), written);
    }
    Ok(())
}
