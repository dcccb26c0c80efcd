//! The ends of what an update holds.

ghost use Rattle.store_model.specs.Calls.{HoldsAnyStage};
ghost use Rattle.store_model.specs.Desk.{KeepsImages};
ghost use Rattle.system_updater.specs.Serving.{Point};
ghost use Rattle.system_updater.specs.Serving.Point.{Closing, Leaving};
ghost use Rattle.system_updater.specs.Holding.{HoldsAt};
ghost use Rattle.system_updater.specs.Viewing.{Told};
ghost use Rattle.system_updater.specs.Steps.{Goes};

use store_model::{Desk, Dir};

// Closes a directory that is open.
pub(crate) fn close<K: Desk>(desk: &mut K, dir: Dir)
    ensures goes { (next : Point) (repo : Told) → HoldsAt (Closing dir next) (K.view desk.old)
        → Goes (Closing dir next) next (K.view desk.old) (K.view desk.new) repo repo
        (K.firm desk.old) (K.firm desk.new) }
    ensures images { KeepsImages (K.kept desk.old) (K.kept desk.new) }
{
    let _ = desk.close(dir);
}

// Leaves the stage.
pub(crate) fn leave<K: Desk>(desk: &mut K)
    requires { HoldsAnyStage (K.view desk.old) }
    ensures { (next : Point) (repo : Told)
        → Goes (Leaving next) next (K.view desk.old) (K.view desk.new) repo repo (K.firm desk.old) (K.firm desk.new) }
{
    desk.leave_stage();
}
