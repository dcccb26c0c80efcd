//! Open packages.

ghost use Rattle.std.specs.Prelude.{◌≡◌, ◌+◌, ◌≤◌, None, Some, IfOk, OnOk, OnErr};
ghost use Rattle.open_tracker.specs.Directories.{root_of};
ghost use Rattle.store_model.specs.declared.events.Act.TheVariants as acts;
ghost use Rattle.store_model.specs.Acts.OpenPath.{root_to_open};
ghost use Rattle.store_model.specs.Acts.Close.{next_close};
ghost use Rattle.plain_state.specs.Holdings.{ends_due};
ghost use Rattle.plain_ledger.specs.Ledgers.{Notes, NotesAt, Stays};

use crate::history::History;
use crate::ledger::{Ledger, make_room};
use pkg_names::{PackagePath, Root};
use plain_state::State;
use std::alloc::AllocError;
use store_model::Act;

impl Ledger {
    /// A package that is here is opened. The event's number is the directory.
    pub fn open_path(&mut self, lane: u32, path: PackagePath, root: Root) -> Result<u64, AllocError>
        requires { root_to_open self.old.state path ≡ Some root }
        ensures ok { IfOk result (NotesAt self.old lane (acts.OpenPath path (Some root)) self.new) }
        ensures err { OnErr result (Stays self.old self.new) }
    {
        let number = self.history.next_number();
        make_room(&mut self.history, &self.state, 2)?;
        self.state.open_path(number, lane, root)?;
        let reply = Some(root);
        self.history.note(lane, Act::OpenPath { path, reply });
        Ok(number)
    }

    /// Closes a directory of the lane, and tells whether it was open. Memory is wanted only where it wasn't.
    pub fn close(&mut self, lane: u32, dir: u64) -> Result<bool, AllocError>
        ensures ok { IfOk result (λ closed. Notes self.old lane (acts.Close dir closed) self.new) }
        ensures err { OnErr result (Stays self.old self.new) }
        ensures open { OnErr result (root_of self.old.state.dirs dir lane ≡ None) }
    {
        room_to_close(&mut self.history, &self.state, lane, dir)?;
        let closed = self.state.close_dir(dir, lane);
        self.history.note(lane, Act::Close { dir, closed });
        Ok(closed)
    }
}

// Makes room for the event that closes a directory. An open one has its place already.
fn room_to_close(
    history: &mut History,
    state: &State,
    lane: u32,
    dir: u64,
) -> Result<(), AllocError>
    requires { ends_due state.now ≤ history.old.spare }
    ensures events { history.new.events ≡ history.old.events }
    ensures ok { OnOk result (ends_due (next_close state.now lane dir) + 1 ≤ history.new.spare) }
    ensures kept { history.old.spare ≤ history.new.spare }
    ensures open { OnErr result (root_of state.now.dirs dir lane ≡ None) }
{
    match state.root_of_dir(dir, lane) {
        Some(_) => Ok(()),
        None => make_room(history, state, 1),
    }
}
