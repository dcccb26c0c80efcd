//! What a boot makes of the state.

ghost use Rattle.std.specs.Prelude.{◌≡◌};
ghost use Rattle.abr_record.specs.Boot.{boot_slot};
ghost use Rattle.plain_state.specs.Booting.{booted_with};

use crate::state::State;
use abr_record::{Slot, boot};
use fetch_queue::Queue;
use package_indexes::Indexes;
use system_lists::PinnedList;

impl State {
    /// The slot that the boot record boots.
    pub fn boot_slot(&self) -> Slot
        ensures { result ≡ boot_slot self.now.abr }
    {
        boot(&self.abr).0
    }

    /// The state after the boot of a system with these packages. Its books stay, and nothing is under way.
    pub fn booted(self, base: PinnedList, cached: PinnedList) -> State
        ensures { result ≡ booted_with self base cached }
    {
        let (running, abr) = boot(&self.abr);
        State {
            booted: true,
            indexes: Indexes::make(self.alloc, base.into_vec(), cached.into_vec()),
            queue: Queue::new(self.alloc),
            abr,
            running,
            ..self
        }
    }
}
