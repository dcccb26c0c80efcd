//! What was done to a disk.

ghost use Rattle.std.specs.Prelude.{◌≡◌};

use crate::act::DiskAct;
use std::marker::Model;

/// The acts of a disk since it began, in order.
#[derive(Drop)]
pub struct Trail {
    acts: Vec<DiskAct>,
}

impl Model for Trail {
    ghost use Rattle.std.specs.Prelude.{List};
    ghost use Rattle.disk_model.specs.declared.act.DiskAct.{DiskAct};

    ghost Value = { List DiskAct };

    ghost view = { λ t. t.acts.items };
}

impl Trail {
    pub(crate) fn of(acts: Vec<DiskAct>) -> Trail
        ensures { result ≡ acts.items }
    {
        Trail { acts }
    }

    pub fn as_slice(&self) -> &[DiskAct]
        ensures { result.now ≡ self.now }
    {
        &self.acts
    }
}
