//! Where scripts come from and where texts go.
//!
//! A stream that can't tell what it holds, as a file or standard output, has `None` for its bytes.

mod adapters;
mod memory;

ghost use Rattle.std.specs.Prelude.{◌≡◌, ℕ, ◌<◌, ◌≤◌, List, length, Option, IfOk, OnErr};
ghost use Rattle.pkg_names.specs.Streams.{Gave, Rose, Took};

pub use adapters::{FileSource, OutSink};
pub use memory::{DropSink, MemSink, MemSource};

/// The source could not give.
#[derive(Clone, Copy, Debug, PartialEq, Eq)]
pub struct SourceFailed;

/// The sink could not take.
#[derive(Clone, Copy, Debug, PartialEq, Eq)]
pub struct SinkFailed;

/// A stream that is read to its end.
pub trait Source {
    /// The bytes that are left, where the source tells them.
    ghost left: { Self → Option (List ℕ) };

    /// How often it has failed. It never falls, and stands still at the end of its type.
    ghost faults: { Self → ℕ };

    /// Puts the next bytes into the front of `out`, and answers how many: 0 at the end alone.
    fn take(&mut self, out: &mut [u8]) -> Result<usize, SourceFailed>
        requires { 0 < length out.old }
        ensures within { IfOk result (λ count. count ≤ length out.old) }
        ensures took { IfOk result (λ count. Took (left self.old) out.new count (left self.new)) }
        ensures err { OnErr result (left self.new ≡ left self.old) }
        ensures cause { OnErr result (Rose (faults self.old) (faults self.new)) }
        ensures faults { faults self.old ≤ faults self.new };
}

/// A stream that is written to.
pub trait Sink {
    /// The bytes that were written, where the sink tells them.
    ghost written: { Self → Option (List ℕ) };

    /// How often it has failed. It never falls, and stands still at the end of its type.
    ghost faults: { Self → ℕ };

    /// Writes a front of `bytes`, at least one of them, and answers how many.
    fn give(&mut self, bytes: &[u8]) -> Result<usize, SinkFailed>
        requires { 0 < length bytes.now }
        ensures some { IfOk result (λ count. 0 < count) }
        ensures within { IfOk result (λ count. count ≤ length bytes.now) }
        ensures gave { IfOk result (λ count. Gave (written self.old) bytes.now count (written self.new)) }
        ensures err { OnErr result (written self.new ≡ written self.old) }
        ensures cause { OnErr result (Rose (faults self.old) (faults self.new)) }
        ensures faults { faults self.old ≤ faults self.new };
}
