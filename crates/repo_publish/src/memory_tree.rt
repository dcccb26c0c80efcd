//! A tree in memory that tells its files, and fails where it is told to.

ghost use Rattle.std.specs.Prelude.{◌≡◌, ◌≢◌, ◌↔◌, if◌then◌else◌, Some, IsTrue};
ghost use Rattle.pkg_names.specs.Streams.{one_more};
ghost use Rattle.pkg_names.specs.MemoryStreams.{IsListed};
ghost use Rattle.repo_source.specs.Repo.{Fails};
ghost use Rattle.repo_publish.specs.Tree.{Takes, tree_failed};
ghost use Rattle.repo_publish.specs.Memory.{after_next};

use crate::tree::{Tree, TreeReply};
use far_archive::FarEntry;
use std::alloc::Global;
use std::marker::Model;

/// A tree in memory. Its calls are counted from 1, and those whose number is listed fail.
#[derive(Debug, Drop)]
pub struct MemTree {
    // the last one first
    files: Vec<FarEntry>,
    failing: Vec<u64>,
    calls: u64,
    faults: u64,
}

impl Model for MemTree {
    ghost use Rattle.std.specs.Prelude.{reverse};
    ghost use Rattle.repo_publish.specs.Memory.{TreeInMemory};

    ghost Value = { TreeInMemory };

    ghost view = { λ t. record {
      left = reverse t.files.items;
      failing = t.failing.items;
      calls = t.calls;
      faults = t.faults;
    } };
}

impl MemTree {
    /// A tree of these files, whose listed calls fail.
    pub fn make(mut files: Vec<FarEntry>, failing: Vec<u64>) -> MemTree
        ensures made { result ≡ record {
          left = files.items;
          failing = failing.items;
          calls = 0;
          faults = 0;
        } }
    {
        files.reverse();
        MemTree {
            files,
            failing,
            calls: 0,
            faults: 0,
        }
    }

    /// How often it has failed.
    pub fn faults(&self) -> u64
        ensures faults { result ≡ self.now.faults }
    {
        self.faults
    }
}

impl Tree for MemTree {
    ghost use Rattle.std.specs.Prelude.{Some};

    ghost left = { λ t. Some t.left };

    ghost faults = { λ t. t.faults };

    fn next(&mut self, alloc: Global) -> TreeReply
        ensures took { Takes (Some self.old.left) result (Some self.new.left) }
        ensures faults { Fails (tree_failed result) self.old.faults self.new.faults }

        // A listed call fails, and no other; none wants memory. The whole tree after the call.
        ensures listed { (result ≡ TreeReply.Failed) ↔ IsListed self.old.failing self.old.calls }
        ensures memory { result ≢ TreeReply.NoMemory }
        ensures tree { self.new ≡ after_next result self.old }
    {
        let _ = alloc;
        if count_call(&self.failing, &mut self.calls, &mut self.faults) {
            return TreeReply::Failed;
        }
        match self.files.pop() {
            Some(file) => TreeReply::File(file),
            None => TreeReply::End,
        }
    }
}

// Counts a call. Whether it is to fail.
pub(crate) fn count_call(failing: &[u64], calls: &mut u64, faults: &mut u64) -> bool
    ensures listed { IsTrue result ↔ IsListed failing.now calls.old }
    ensures calls { calls.new ≡ one_more calls.old }
    ensures faults { faults.new ≡ if result then one_more faults.old else faults.old }
    ensures failed { Fails result faults.old faults.new }
{
    *calls = calls.saturating_add(1);
    let fails = failing.contains(calls);
    if fails {
        *faults = faults.saturating_add(1);
    }
    fails
}
