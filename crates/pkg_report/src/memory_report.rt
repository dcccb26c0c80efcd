//! A report in memory.

ghost use Rattle.std.specs.Prelude.{◌≡◌, ◌↔◌, ◌≤◌, [], false, OnOk, OnErr, IsErr};
ghost use Rattle.pkg_names.specs.Streams.{Rose};
ghost use Rattle.pkg_tool.specs.Written.{Wrote};

use crate::report::{NotSaid, Report};
use std::alloc::Global;

/// A report that tells what was said, or one that fails.
#[derive(Debug, Drop)]
pub struct MemReport {
    said: Vec<u8>,
    fails: bool,
    faults: u64,
}

impl MemReport {
    pub fn make(alloc: Global, fails: bool) -> MemReport
        ensures said { result.said.items ≡ [] }
        ensures fails { result.fails ≡ fails }
        ensures faults { result.faults ≡ 0 }
    {
        MemReport {
            said: Vec::new(alloc),
            fails,
            faults: 0,
        }
    }

    /// What was said.
    pub fn said(&self) -> &[u8]
        ensures { result.now ≡ self.now.said.items }
    {
        &self.said
    }
}

impl Report for MemReport {
    ghost use Rattle.std.specs.Prelude.{Some};

    ghost said = { λ r. Some r.said.items };

    ghost faults = { λ r. r.faults };

    // It fails where it is one that fails, or memory is short.
    fn say(&mut self, line: &[u8]) -> Result<(), NotSaid> {
        if self.fails || self.said.extend_from_slice(line).is_err() {
            self.faults = self.faults.saturating_add(1);
            return Err(NotSaid);
        }
        Ok(())
    }
}
