//! A disk of pages.

ghost use Rattle.std.specs.Prelude.{◌≡◌, ◌⊎◌, ℕ, ◌+◌, ◌-◌, ◌^◌, ◌<◌, ◌≤◌, min, List, Option, OnOk, OnErr, IfSome};
ghost use Rattle.disk_model.specs.declared.act.DiskAct.TheVariants.{Wrote, Failed, Synced};
ghost use Rattle.disk_model.specs.Past.{Past, IsPast, with_act, state_of, MayRead, Rose};

/// The disk failed to read, to write or to sync.
#[derive(Clone, Copy, Debug, PartialEq, Eq)]
pub struct DiskFailed;

/// A disk of pages of 4096 bytes. At a power loss each page holds, apart from the others, what was
/// written to it last, or the value of a write that failed since then, or an older value that no sync
/// has ended. `docs/disk.md` has the model.
pub trait Disk {
    /// What it began with and what was done to it since, where it tells.
    ghost past: { Self → Option Past };

    /// How many pages it has.
    ghost pages: { Self → ℕ };

    /// How often it has failed.
    ghost faults: { Self → ℕ };

    /// How often it was read.
    ghost reads: { Self → ℕ };

    /// Numbers by which its owner knows it again, after others had it. No call changes them.
    ghost tie: { Self → List ℕ };

    fn pages(&self) -> u32
        ensures count { result ≡ pages self.now }
        ensures told { IfSome (past self.now) (IsPast (pages self.now)) };

    /// Reads a page.
    fn read(&mut self, page: u32, out: &mut [u8; 4096]) -> Result<(), DiskFailed>
        requires { page < pages self.old }
        ensures value { OnOk result (IfSome (past self.old)
            (λ told. MayRead (state_of told page) out.new)) }
        ensures past_stays { past self.new ≡ past self.old }
        ensures pages_stay { pages self.new ≡ pages self.old }
        ensures tie_stays { tie self.new ≡ tie self.old }
        ensures counted { reads self.new ≡ min (reads self.old + 1) (2 ^ 64 - 1) }
        ensures faults_never_fall { faults self.old ≤ faults self.new }
        ensures told_before { IfSome (past self.old) (IsPast (pages self.old)) }
        ensures told { IfSome (past self.new) (IsPast (pages self.new)) }
        ensures cause { OnErr result (Rose (faults self.old) (faults self.new)) };

    /// Writes a page. A write that fails may have been made or not, unless the disk is sure that
    /// nothing was written.
    fn write(&mut self, page: u32, bytes: &[u8; 4096]) -> Result<(), DiskFailed>
        requires { page < pages self.old }
        ensures wrote { OnOk result
            (past self.new ≡ with_act (past self.old) (Wrote page bytes.now)) }
        ensures failed { OnErr result
            ((past self.new ≡ with_act (past self.old) (Failed page bytes.now))
            ⊎ (past self.new ≡ past self.old)) }
        ensures pages_stay { pages self.new ≡ pages self.old }
        ensures tie_stays { tie self.new ≡ tie self.old }
        ensures reads_stay { reads self.new ≡ reads self.old }
        ensures faults_never_fall { faults self.old ≤ faults self.new }
        ensures told_before { IfSome (past self.old) (IsPast (pages self.old)) }
        ensures told { IfSome (past self.new) (IsPast (pages self.new)) }
        ensures cause { OnErr result (Rose (faults self.old) (faults self.new)) };

    /// Ends the older values of every page: afterwards a page holds what was written to it last, or the
    /// value of a write that failed since then. A sync that fails ends none.
    fn sync(&mut self) -> Result<(), DiskFailed>
        ensures synced { OnOk result (past self.new ≡ with_act (past self.old) Synced) }
        ensures failed { OnErr result (past self.new ≡ past self.old) }
        ensures pages_stay { pages self.new ≡ pages self.old }
        ensures tie_stays { tie self.new ≡ tie self.old }
        ensures reads_stay { reads self.new ≡ reads self.old }
        ensures faults_never_fall { faults self.old ≤ faults self.new }
        ensures told_before { IfSome (past self.old) (IsPast (pages self.old)) }
        ensures told { IfSome (past self.new) (IsPast (pages self.new)) }
        ensures cause { OnErr result (Rose (faults self.old) (faults self.new)) };
}
